//! The request in the octets that a server received.

ghost use Rattle.std.specs.Prelude.{◌≡◌, ◌≤◌, ◌+◌, length, IfOk, IfErr, MatchOption, IfSome};
ghost use Rattle.dns_wire.specs.Server.Asking.{IsMalformed, AsksName, AsksFor, IsGood, IsQueryFrom, AskedOnce, HasWholeName, LacksWholeName};
ghost use Rattle.dns_name.specs.Labels.{Labels};
ghost use Rattle.dns_wire.specs.Read.Number.{u16_at};

use crate::limits::HEADER_OCTETS;
use crate::message::CLASS_IN;
use crate::rcode::Rcode;
use crate::read::chains::Wire;
use crate::read::header::head_in;
use crate::read::name::name_at;
use crate::read::number::u16_at;
use crate::read::place::{Next, next_at};
use crate::server::query::{Asked, Query};
use crate::server::spelling::QuestionOctets;
use crate::server::walking::sections_end;
use dns_name::{MAX_NAME_OCTETS, NoMemory};
use dns_text::{Question, is_excluded};
use std::alloc::{AllocError, Global};

/// The place after the name at a place of a message, if the name is whole.
fn whole_end(message: &[u8], start: usize) -> Option<usize>
    requires { start ≤ length message.now }
    ensures stands { MatchOption result (LacksWholeName message.now start) (λ after. HasWholeName message.now start after) }
    ensures within { IfSome result (λ after. after ≤ length message.now) }
{
    let mut used = 0;
    let mut at = start;
    loop {
        match next_at(message, at) {
            Next::Finish => return Some(at + 1),
            Next::Label(n) => {
                if used + n + 1 >= MAX_NAME_OCTETS {
                    return None;
                }
                if message.len() - at <= n {
                    return None;
                }
                used += n + 1;
                at += n + 1;
            }
            Next::Pointer(_) => return None,
            Next::Reserved => return None,
            Next::Cut => return None,
        }
    }
}

/// The place after the question's name, if the octets are a message with one question whose name has no pointer.
fn one_question(message: &[u8]) -> Option<usize>
    requires { HEADER_OCTETS ≤ length message.now }
    ensures { MatchOption result (IsMalformed message.now) (λ at. (labels : Labels) × AsksName message.now labels at) }
{
    if u16_at(message, 4) != 1 {
        return None;
    }
    let at = whole_end(message, HEADER_OCTETS)?;
    if message.len() < at + 4 {
        return None;
    }
    let end = sections_end(message, at + 4)?;
    if end != message.len() {
        return None;
    }
    Some(at)
}

/// The query of a question of class IN, by the place after its name.
#[inline(always)]
fn query_of(alloc: Global, message: &[u8], at: usize) -> Result<Query, NoMemory>
    requires header { HEADER_OCTETS ≤ length message.now }
    requires name { (labels : Labels) × AsksName message.now labels at }
    requires class { u16_at message.now (at + 2) ≡ CLASS_IN }
    ensures { IfOk result (λ query. (labels : Labels) → AsksName message.now labels at → IsQueryFrom message.now labels at query) }
{
    let Ok((owner, _)) = name_at(alloc, &Wire::plain(message), HEADER_OCTETS) else {
        // The name is valid, so only memory can have run out.
        return Err(AllocError);
    };
    let head = head_in(message);
    let kind = u16_at(message, at);
    let (front, _) = message.split_at(at + 4);
    let (_, octets) = front.split_at(HEADER_OCTETS);
    let octets = QuestionOctets::from_slice(alloc, octets)?;
    Ok(Query {
        id: head.id,
        rd: head.rd,
        question: Question { owner, kind },
        octets,
    })
}

/// The request in the octets that a server received (RFC 1035, section 4.1). The Z bits and the contents of the other
/// sections are ignored, and take no memory.
pub fn read_question(alloc: Global, octets: &[u8]) -> Result<Asked, NoMemory>
    ensures asked { IfOk result (AsksFor octets.now) }

    // Only a request for an answer takes memory.
    ensures memory { IfErr result (λ _. IsGood octets.now) }
{
    if octets.len() < HEADER_OCTETS {
        return Ok(Asked::Drop);
    }
    let head = head_in(octets);
    if head.qr {
        return Ok(Asked::Drop);
    }
    if !head.opcode.is_query() {
        return Ok(Asked::Fault(Rcode::NOT_IMPLEMENTED));
    }
    let Some(at) = one_question(octets) else {
        return Ok(Asked::Fault(Rcode::FORMAT_ERROR));
    };
    if u16_at(octets, at + 2) != CLASS_IN || is_excluded(u16_at(octets, at)) {
        return Ok(Asked::Fault(Rcode::NOT_IMPLEMENTED));
    }
    Ok(Asked::Good(query_of(alloc, octets, at)?))
}

/// Octets ask for one thing at most.
pub fn one_verdict()
    ensures { AskedOnce }
{}
