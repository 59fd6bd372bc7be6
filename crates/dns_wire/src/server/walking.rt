//! Walking over a message without keeping its contents, and so without memory.

ghost use Rattle.std.specs.Prelude.{◌≡◌, ◌≤◌, length, take, is_ok, IfSome};
ghost use Rattle.dns_wire.specs.Read.Rdata.{data_read, txt_read};
ghost use Rattle.dns_wire.specs.Read.Record.{record_read};
ghost use Rattle.dns_wire.specs.Server.Walking.{name_place, records_place, sections_place, data_name_place, ends_with_name, is_soa};
ghost use Rattle.dns_wire.specs.Read.Name.{place_after};

use crate::limits::HEADER_OCTETS;
use crate::read::chains::{Wire, blank_ends, has_many_names};
use crate::read::name::name_end;
use crate::read::number::u16_at;
use crate::read::record::frame_at;
use dns_text::{Form, spell_strings};

/// The place after the name at a place, if one is there.
fn owner_end(message: &Wire<'_>, at: usize) -> Option<usize>
    requires { at ≤ length message.now }
    ensures exact { result ≡ name_place message.now at }
    ensures within { IfSome result (λ after. after ≤ length message.now) }
{
    name_end(message, message.as_slice().len(), at)
}

/// The place after a name in the RDATA, which begins at a place. The name's own octets must end within the RDATA.
#[tactic(auto, unfolding(crate::specs::Read::Rdata::data_name_read))]
fn data_name_end(message: &Wire<'_>, end: usize, at: usize, place: usize) -> Option<usize>
    requires within { place ≤ end }
    requires end { end ≤ length message.now }
    ensures exact { result ≡ data_name_place message.now (take end message.now) at place }
    ensures within { IfSome result (λ after. after ≤ end) }
{
    name_end(message, end, place)
}

/// Whether a name begins at a place of RDATA and ends with it.
fn ends_with_name(message: &Wire<'_>, end: usize, at: usize, place: usize) -> bool
    requires { end ≤ length message.now }
    ensures { result ≡ ends_with_name message.now (take end message.now) at place }
{
    if end < place {
        return false;
    }
    match data_name_end(message, end, at, place) {
        Some(after) => after == end,
        None => false,
    }
}

/// Whether the RDATA is that of an SOA record: two names and five numbers.
fn is_soa(message: &Wire<'_>, end: usize, at: usize) -> bool
    requires within { at ≤ end }
    requires end { end ≤ length message.now }
    ensures { result ≡ is_soa message.now (take end message.now) at }
{
    let (front, _) = message.as_slice().split_at(end);
    let Some(second) = data_name_end(message, end, at, at) else {
        return false;
    };
    match data_name_end(message, end, at, second) {
        Some(numbers) => numbers + 20 == front.len(),
        None => false,
    }
}

/// Whether the front ends with one string or more, each preceded by its length.
fn are_strings(front: &[u8], at: usize) -> bool
    requires { at ≤ length front.now }
    ensures { result ≡ is_ok (txt_read front.now at) }
{
    let (_, octets) = front.split_at(at);
    if octets.is_empty() {
        return false;
    }
    spell_strings(octets)
}

/// Whether data of a form begins at one place of a message and ends at another.
#[tactic(auto, unfolding(crate::specs::Read::Rdata::data_read))]
fn has_form(message: &Wire<'_>, end: usize, at: usize, form: Form) -> bool
    requires within { at ≤ end }
    requires end { end ≤ length message.now }
    ensures { result ≡ is_ok (data_read message.now (take end message.now) at form) }
{
    let (front, _) = message.as_slice().split_at(end);
    match form {
        Form::A => front.len() - at == 4,
        Form::Aaaa => front.len() - at == 16,
        Form::Name => ends_with_name(message, end, at, at),
        Form::Mx => ends_with_name(message, end, at, at + 2),
        Form::Soa => is_soa(message, end, at),
        Form::Txt => are_strings(front, at),
        Form::Srv => ends_with_name(message, end, at, at + 6),
        Form::Opaque => true,
    }
}

/// The place after the record at a place, if one is there.
#[tactic(auto, unfolding(crate::specs::Read::Record::record_read))]
fn record_end(message: &Wire<'_>, at: usize) -> Option<usize>
    requires { at ≤ length message.now }
    ensures exact { result ≡ place_after (record_read message.now at) }
    ensures within { IfSome result (λ after. after ≤ length message.now) }
{
    let at = owner_end(message, at)?;
    let Ok(frame) = frame_at(message.as_slice(), at) else {
        return None;
    };
    if !has_form(message, frame.end, frame.begin, frame.form) {
        return None;
    }
    Some(frame.end)
}

/// The place after this many records, if they are there.
fn records_end(message: &Wire<'_>, count: u16, at: usize) -> Option<usize>
    requires { at ≤ length message.now }
    ensures exact { result ≡ records_place message.now count at }
    ensures within { IfSome result (λ after. after ≤ length message.now) }
{
    let mut place = at;
    for _ in 0..count {
        place = record_end(message, place)?;
    }
    Some(place)
}

/// The place after the records of all sections, if they are there. The first section begins at a place.
#[tactic(auto, unfolding(crate::specs::Server::Walking::sections_place))]
fn sections_end_in(message: &Wire<'_>, at: usize) -> Option<usize>
    requires header { HEADER_OCTETS ≤ length message.now }
    requires within { at ≤ length message.now }
    ensures { result ≡ sections_place message.now at }
{
    let octets = message.as_slice();
    let at = records_end(message, u16_at(octets, 6), at)?;
    let at = records_end(message, u16_at(octets, 8), at)?;
    records_end(message, u16_at(octets, 10), at)
}

/// The same for a message with many names, whose chains of pointers are noted. It is a function of its own because the notes take much of the stack.
#[inline(never)]
fn noted_sections_end(octets: &[u8], at: usize) -> Option<usize>
    requires header { HEADER_OCTETS ≤ length octets.now }
    requires within { at ≤ length octets.now }
    ensures { result ≡ sections_place octets.now at }
{
    let mut ends = blank_ends();
    sections_end_in(&Wire::noted(octets, &mut ends), at)
}

/// The place after the records of all sections, if they are there. The first section begins at a place.
pub(crate) fn sections_end(octets: &[u8], at: usize) -> Option<usize>
    requires header { HEADER_OCTETS ≤ length octets.now }
    requires within { at ≤ length octets.now }
    ensures { result ≡ sections_place octets.now at }
{
    if has_many_names(octets) {
        return noted_sections_end(octets, at);
    }
    sections_end_in(&Wire::plain(octets), at)
}
