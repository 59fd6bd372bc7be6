//! The test whether a message would take too long to read.
//!
//! Names share their ends by pointers (RFC 1035, section 4.1.4), so a message of 64 KiB can spell two million octets of names. The test
//! follows each name as reading does, keeps nothing, and gives up after `MOST_STEPS`. What is counted is in `specs/Dear.antt`.

ghost use Rattle.std.specs.Prelude.{◌≡◌, ◌⊎◌, ◌+◌, ◌≤◌, ◌<◌, false, None, Some, length, slice_get};
ghost use Rattle.std.specs.Prelude.{IfErr, IfOk, IsTrue, OnOk};
ghost use Rattle.dns_wire.specs.declared.read.place.Next.TheVariants.{Cut, Pointer, Reserved};
ghost use Rattle.dns_wire.specs.Read.Number.{u16_at};
ghost use Rattle.dns_wire.specs.Read.Place.{next_at};
ghost use Rattle.replies.specs.Dear.{DataTakes, MessageTakes, NameAt, QuestionTakes, RecordTakes, RestTakes, StringsTake, Times};
ghost use Rattle.replies.specs.Dear.{IsLong, IsQuick, Read};

use crate::limits::{ITEM_STEPS, MOST_DATAGRAM, MOST_STEPS, STEP_OCTETS};
use dns_name::MAX_NAME_OCTETS;
use dns_text::{Form, form_of};
use dns_wire::{CLASS_IN, HEADER_OCTETS};

/// The least octet that is not the length of a label (RFC 1035, section 4.1.4).
const LABEL_END: usize = 64;

/// The least octet that begins a pointer (RFC 1035, section 4.1.4).
const POINTER_MARK: usize = 192;

/// The least flags that are those of a response (RFC 1035, section 4.1.1).
const RESPONSE_MARK: u16 = 32768;

/// The reason why a walk over a message ends early.
#[derive(Clone, Copy)]
enum Stop {
    /// There are not enough steps left.
    Dear,
    /// The message is malformed, so reading ends here too.
    Faulty,
}

/// Takes steps from those that are left.
fn take_steps(left: &mut usize, steps: usize) -> Result<(), Stop>
    ensures ok { OnOk result (left.new + steps ≡ left.old) }
    ensures err { IfErr result (λ stop. (stop ≡ Stop.Dear) × (left.old < steps)) }
{
    if *left < steps {
        return Err(Stop::Dear);
    }
    *left -= steps;
    Ok(())
}

/// The octet at a place.
fn octet_at(octets: &[u8], at: usize) -> Result<usize, Stop>
    ensures ok { IfOk result (λ octet. slice_get octets.now at ≡ Some octet) }
    ensures within { OnOk result (at < length octets.now) }
    ensures small { IfOk result (λ octet. octet < 256) }
    ensures err { IfErr result (λ stop. (stop ≡ Stop.Faulty) × (slice_get octets.now at ≡ None) × (length octets.now ≤ at)) }
{
    match octets.get(at) {
        Some(octet) => Ok(usize::from(*octet)),
        None => Err(Stop::Faulty),
    }
}

/// The number of 16 bits at a place.
#[tactic(auto, using(crate::proofs::Dearness::number_here))]
fn number_at(octets: &[u8], at: usize) -> Result<u16, Stop>
    ensures ok { IfOk result (λ number. number ≡ u16_at octets.now at) }
    ensures within { OnOk result (at + 2 ≤ length octets.now) }
    ensures err { IfErr result (λ stop. (stop ≡ Stop.Faulty) × (length octets.now < at + 2)) }
{
    let high = octet_at(octets, at)?;
    let low = octet_at(octets, at + 1)?;
    Ok((high * 256 + low) as u16)
}

/// Follows the name at a place, and returns the place after it. Reading copies the name of a response's first question where a pointer
/// to it is all of a name.
fn follow_name(octets: &[u8], copies: bool, start: usize, left: &mut usize) -> Result<usize, Stop>
    ensures within { IfOk result (λ after. after ≤ length octets.now) }
    ensures takes { Read (NameAt octets.now copies start) left.old left.new result }
{
    let mut at = start;
    let mut run = start;
    let mut used = 0;
    let mut after = None;
    loop {
        let octet = octet_at(octets, at)?;
        if octet == 0 {
            return Ok(after.unwrap_or(at + 1));
        }
        if octet < LABEL_END {
            if MAX_NAME_OCTETS < used + octet + 2 || octets.len() - at <= octet {
                return Err(Stop::Faulty);
            }
            take_steps(left, 1 + octet / STEP_OCTETS)?;
            used += octet + 1;
            at += octet + 1;
        } else {
            let to = pointer_at(octets, at, octet)?;
            if to >= run {
                return Err(Stop::Faulty);
            }
            take_steps(left, 1)?;
            if copies && at == start && to == HEADER_OCTETS {
                return Ok(after.unwrap_or(at + 2));
            }
            after = Some(after.unwrap_or(at + 2));
            at = to;
            run = to;
        }
    }
}

/// The place to which the pointer at a place leads, whose first octet this is.
#[tactic(auto, using(crate::proofs::Dearness::next_half, crate::proofs::Dearness::next_pointer, crate::proofs::Dearness::next_reserved))]
fn pointer_at(octets: &[u8], at: usize, octet: usize) -> Result<usize, Stop>
    requires within { at < length octets.now }
    requires small { octet < 256 }
    requires mark { LABEL_END ≤ octet }
    requires octet { slice_get octets.now at ≡ Some octet }
    ensures within { OnOk result (at + 2 ≤ length octets.now) }
    ensures ok { IfOk result (λ to. next_at octets.now at ≡ Pointer to) }
    ensures err { IfErr result (λ stop. (stop ≡ Stop.Faulty)
        × ((next_at octets.now at ≡ Cut) ⊎ (next_at octets.now at ≡ Reserved))) }
{
    if octet < POINTER_MARK {
        return Err(Stop::Faulty);
    }
    let low = octet_at(octets, at + 1)?;
    Ok((octet - POINTER_MARK) * 256 + low)
}

/// Passes over strings, each preceded by its length, and returns the place after them.
fn pass_strings(strings: &[u8], end: usize, left: &mut usize) -> Result<usize, Stop>
    ensures { Read (StringsTake end strings.now) left.old left.new result }
{
    let mut rest = strings;
    while let Some((size, behind)) = rest.split_first() {
        match behind.get(usize::from(*size)..) {
            Some(others) => rest = others,
            None => return Err(Stop::Faulty),
        }
        take_steps(left, ITEM_STEPS)?;
    }
    Ok(end)
}

/// Passes over the RDATA between two places: follows each of its names. Returns the second place.
fn pass_data(
    octets: &[u8],
    copies: bool,
    form: Form,
    begin: usize,
    end: usize,
    left: &mut usize,
) -> Result<usize, Stop>
    requires within { begin ≤ end }
    requires end { end ≤ length octets.now }
    ensures { Read (DataTakes octets.now copies form begin end) left.old left.new result }
{
    match form {
        Form::Name => {
            follow_name(octets, copies, begin, left)?;
        }
        Form::Mx => {
            follow_name(octets, copies, begin + 2, left)?;
        }
        Form::Srv => {
            follow_name(octets, copies, begin + 6, left)?;
        }
        Form::Soa => {
            let second = follow_name(octets, copies, begin, left)?;
            follow_name(octets, copies, second, left)?;
        }
        Form::Txt => return pass_strings(&octets[begin..end], end, left),
        Form::A | Form::Aaaa | Form::Opaque => {}
    }
    Ok(end)
}

/// Passes over the record at a place, and returns the place after it.
fn pass_record(octets: &[u8], copies: bool, start: usize, left: &mut usize) -> Result<usize, Stop>
    ensures { Read (RecordTakes octets.now copies start) left.old left.new result }
{
    take_steps(left, ITEM_STEPS)?;
    let at = follow_name(octets, copies, start, left)?;
    pass_rest(octets, copies, at, left)
}

/// Passes over what follows the owner of a record, at a place, and returns the place after the record.
fn pass_rest(octets: &[u8], copies: bool, at: usize, left: &mut usize) -> Result<usize, Stop>
    requires { at ≤ length octets.now }
    ensures { Read (RestTakes octets.now copies at) left.old left.new result }
{
    let kind = number_at(octets, at)?;
    let class = number_at(octets, at + 2)?;
    let begin = at + 10;
    let end = begin + usize::from(number_at(octets, at + 8)?);
    if octets.len() < end {
        return Err(Stop::Faulty);
    }
    if class == CLASS_IN {
        return pass_data(octets, copies, form_of(kind), begin, end, left);
    }
    Ok(end)
}

/// Passes over a message, in the order of reading, and returns the place after it.
fn pass_message(octets: &[u8], left: &mut usize) -> Result<usize, Stop>
    ensures { Read (MessageTakes octets.now) left.old left.new result }
{
    let questions = number_at(octets, 4)?;
    let records = u32::from(number_at(octets, 6)?)
        + u32::from(number_at(octets, 8)?)
        + u32::from(number_at(octets, 10)?);
    let flags = number_at(octets, 2)?;
    let copies = questions > 0 && flags >= RESPONSE_MARK;
    let at = pass_questions(octets, questions, left)?;
    pass_records(octets, copies, records, at, left)
}

/// Passes over so many questions, the first ones of a message, and returns the place after them.
fn pass_questions(octets: &[u8], count: u16, left: &mut usize) -> Result<usize, Stop>
    ensures { Read (Times (QuestionTakes octets.now) count HEADER_OCTETS) left.old left.new result }
{
    let mut at = HEADER_OCTETS;
    for _ in 0..count {
        at = follow_name(octets, false, at, left)? + 4;
    }
    Ok(at)
}

/// Passes over so many records at a place, and returns the place after them.
fn pass_records(
    octets: &[u8],
    copies: bool,
    count: u32,
    start: usize,
    left: &mut usize,
) -> Result<usize, Stop>
    ensures { Read (Times (RecordTakes octets.now copies) count start) left.old left.new result }
{
    let mut at = start;
    for _ in 0..count {
        at = pass_record(octets, copies, at, left)?;
    }
    Ok(at)
}

/// Whether a message would take too long to read: more than some 5 ms of a processor. It takes no memory. No message is dear that is
/// as short as a datagram.
pub fn is_dear(octets: &[u8]) -> bool
    ensures short { length octets.now ≤ MOST_DATAGRAM → result ≡ false }
    ensures dear { IsTrue result → IsLong octets.now }
    ensures quick { result ≡ false → MOST_DATAGRAM < length octets.now → IsQuick octets.now }
{
    if octets.len() <= MOST_DATAGRAM {
        return false;
    }
    let mut left = MOST_STEPS;
    match pass_message(octets, &mut left) {
        Err(Stop::Dear) => true,
        Ok(_) => false,
        Err(Stop::Faulty) => false,
    }
}
