//! Names in messages, which may point back to others.

ghost use Rattle.std.specs.Prelude.{◌≡◌, ◌≤◌, ◌+◌, length, take, IfOk, IfSome};
ghost use Rattle.std.specs.Option.{option_copied};
ghost use Rattle.dns_name.specs.Labels.{IsName};
ghost use Rattle.dns_wire.specs.declared.fault.WireFault.{WireFault};
ghost use Rattle.dns_wire.specs.Fault.{Gives};
ghost use Rattle.dns_wire.specs.Read.Decoding.{FollowsEnd, FollowsName};
ghost use Rattle.dns_wire.specs.Read.Name.{SpelledIn, name_read_in, name_read, name_end};

use crate::fault::WireFault;
use crate::limits::HEADER_OCTETS;
use crate::read::chains::Wire;
use crate::read::place::{Next, next_at};
use dns_name::{MAX_NAME_OCTETS, Name, NameBuilder};
use std::alloc::Global;

/// Follows a name from a place of a message on: the name, and the place after it. If the name's own octets pass the
/// limit, the fault is `ending`.
#[inline(always)]
fn follow_name(
    alloc: Global,
    message: &Wire<'_>,
    limit: usize,
    ending: WireFault,
    start: usize,
) -> Result<(Name, usize), WireFault>
    requires within { start ≤ limit }
    requires limit { limit ≤ length message.now }
    ensures stands { FollowsName message.now limit ending start result }
    ensures name { IfOk result (λ r. IsName r.0) }
{
    let octets = message.as_slice();
    let (mut front, _) = octets.split_at(limit);
    let mut labels = NameBuilder::new();
    let mut at = start;
    let mut run = start;
    let mut beyond = ending;
    let mut after = None;
    loop {
        match next_at(front, at) {
            Next::Finish => return Ok((labels.name(alloc)?, after.unwrap_or(at + 1))),
            Next::Label(n) => {
                if n >= labels.room() {
                    return Err(WireFault::BadName { at: start });
                }
                if front.len() - at <= n {
                    return Err(beyond);
                }
                labels.push(&front[at + 1..at + 1 + n]);
                at += n + 1;
            }
            Next::Pointer(to) => {
                if to >= run {
                    return Err(WireFault::BadPointer { at });
                }
                after = Some(after.unwrap_or(at + 2));
                at = message.end_of(to);
                run = at;
                front = octets;
                beyond = WireFault::Short;
            }
            Next::Reserved => return Err(WireFault::BadName { at: start }),
            Next::Cut => return Err(beyond),
        }
    }
}

/// The name of the first question, if it is known and nothing but a pointer to it is at a place. Most owners are.
fn pointed_name<'a>(message: &Wire<'a>, limit: usize, at: usize) -> Option<&'a Name>
    requires within { at ≤ limit }
    requires limit { limit ≤ length message.now }
    ensures { IfSome (option_copied result) (λ name. SpelledIn message.now (take limit message.now) at (at + 2) name) }
{
    let Some(name) = message.first() else {
        return None;
    };
    let (front, _) = message.as_slice().split_at(limit);
    match next_at(front, at) {
        Next::Pointer(to) if to == HEADER_OCTETS && to < at => Some(name),
        _ => None,
    }
}

/// The name at a place of a message, and the place after it. If the name's own octets, up to the end of its first pointer,
/// pass the limit, the fault is `ending`.
pub(crate) fn name_in(
    alloc: Global,
    message: &Wire<'_>,
    limit: usize,
    ending: WireFault,
    at: usize,
) -> Result<(Name, usize), WireFault>
    requires within { at ≤ limit }
    requires limit { limit ≤ length message.now }
    ensures exact { Gives result (name_read_in message.now (take limit message.now) ending at) }
    ensures within { IfOk result (λ r. r.1 ≤ limit) }
{
    if let Some(name) = pointed_name(message, limit, at) {
        return Ok((name.clone()?, at + 2));
    }
    follow_name(alloc, message, limit, ending, at)
}

/// The owner of the record at a place of a message, and the place after it.
pub(crate) fn owner_at(
    alloc: Global,
    message: &Wire<'_>,
    at: usize,
) -> Result<(Name, usize), WireFault>
    requires { at ≤ length message.now }
    ensures exact { Gives result (name_read message.now at) }
    ensures within { IfOk result (λ r. r.1 ≤ length message.now) }
{
    name_in(
        alloc,
        message,
        message.as_slice().len(),
        WireFault::Short,
        at,
    )
}

/// The name at a place of a message, and the place after it. It is for questions: no name is known before them.
pub(crate) fn name_at(
    alloc: Global,
    message: &Wire<'_>,
    at: usize,
) -> Result<(Name, usize), WireFault>
    requires { at ≤ length message.now }
    ensures exact { Gives result (name_read message.now at) }
    ensures within { IfOk result (λ r. r.1 ≤ length message.now) }
{
    follow_name(
        alloc,
        message,
        message.as_slice().len(),
        WireFault::Short,
        at,
    )
}

/// Follows a name as `follow_name` does, and keeps nothing of it. It takes no memory.
fn follow_end(message: &Wire<'_>, limit: usize, start: usize) -> Option<usize>
    requires within { start ≤ limit }
    requires limit { limit ≤ length message.now }
    ensures { FollowsEnd message.now limit start result }
{
    let octets = message.as_slice();
    let (mut front, _) = octets.split_at(limit);
    let mut used = 0;
    let mut at = start;
    let mut run = start;
    let mut after = None;
    loop {
        match next_at(front, at) {
            Next::Finish => return Some(after.unwrap_or(at + 1)),
            Next::Label(n) => {
                if used + n + 1 >= MAX_NAME_OCTETS {
                    return None;
                }
                if front.len() - at <= n {
                    return None;
                }
                used += n + 1;
                at += n + 1;
            }
            Next::Pointer(to) => {
                if run <= to {
                    return None;
                }
                after = Some(after.unwrap_or(at + 2));
                at = message.end_of(to);
                run = at;
                front = octets;
            }
            Next::Reserved => return None,
            Next::Cut => return None,
        }
    }
}

/// The place after the name at a place of a message, if one is there and its own octets do not pass the limit. It takes
/// no memory.
pub(crate) fn name_end(message: &Wire<'_>, limit: usize, at: usize) -> Option<usize>
    requires within { at ≤ limit }
    requires limit { limit ≤ length message.now }
    ensures exact { (ending : WireFault) → result ≡ name_end message.now (take limit message.now) ending at }
    ensures within { IfSome result (λ after. after ≤ limit) }
{
    follow_end(message, limit, at)
}
