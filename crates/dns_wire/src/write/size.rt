//! The number of octets of a message, and room for them: `None` above 65,535.

ghost use Rattle.std.specs.Prelude.{◌≡◌, ◌≤◌, ◌+◌, length, IfSome};
ghost use Rattle.std.specs.List.{flat_map, AllByRecursion};
ghost use Rattle.std.specs.Option.{option_copied};
ghost use Rattle.dns_name.specs.declared.limits.TheConstants.{MAX_NAME_OCTETS};
ghost use Rattle.dns_text.specs.Data.{IsSized};
ghost use Rattle.dns_wire.specs.Lent.{part_at, in_order};
ghost use Rattle.dns_wire.specs.Write.Size.{within, records_len, IsRoom, IsRoomFor, IsRoomForReply};
ghost use Rattle.dns_wire.specs.WellFormed.{HasItsForm, HasForms, AreFormed};
ghost use Rattle.dns_wire.specs.Write.Name.{owner_octets};
ghost use Rattle.dns_wire.specs.Write.Question.{question_octets};
ghost use Rattle.dns_wire.specs.Write.Rdata.{data_octets};
ghost use Rattle.dns_wire.specs.Write.Record.{record_octets, records_octets};
ghost use Rattle.dns_wire.specs.Write.Message.{message_octets};

use crate::lent::{LentRecord, Section, Sections, record_in};
use crate::limits::{HEADER_OCTETS, MOST_OCTETS};
use crate::message::{Classed, Message};
use crate::server::query::Query;
use dns_name::Name;
use dns_text::{Data, Question};

/// A sum.
fn sum_of(before: usize, more: usize) -> Option<usize>
    requires { before ≤ MOST_OCTETS }
    ensures { result ≡ within (before + more) }
{
    if more > MOST_OCTETS - before {
        return None;
    }
    Some(before + more)
}

/// RDATA.
#[tactic(auto, unfolding(crate::specs::Write::Rdata::data_octets))]
pub(crate) fn data_len(body: &Data) -> Option<usize>
    requires { IsSized body.now }
    ensures { result ≡ within (length (data_octets body.now)) }
{
    match body {
        Data::A(octets) => Some(octets.len()),
        Data::Aaaa(octets) => Some(octets.len()),
        Data::One(name) => Some(name.wire_len()),
        Data::Mx { exchange, .. } => Some(2 + exchange.wire_len()),
        Data::Soa {
            primary,
            mailbox,
            ..
        } => Some(primary.wire_len() + mailbox.wire_len() + 20),
        Data::Txt(strings) => sum_of(0, strings.octets().len()),
        Data::Srv { target, .. } => Some(6 + target.wire_len()),
        Data::Opaque(octets) => sum_of(0, octets.as_slice().len()),
    }
}

/// An owner in a message whose first question has this name.
fn owner_len(first: Option<&Name>, owner: &Name) -> usize
    ensures exact { result ≡ length (owner_octets (option_copied first.entry) owner.now) }
    ensures few { result ≤ MAX_NAME_OCTETS }
{
    match first {
        Some(first) if *first == *owner => 2,
        _ => owner.wire_len(),
    }
}

/// A record in a message whose first question has this name.
fn record_len(first: Option<&Name>, entry: &LentRecord<'_>) -> Option<usize>
    requires { IsSized entry.now.item.body }
    ensures { result ≡ within (length (record_octets (option_copied first.entry) entry.now)) }
{
    let owner = owner_len(first, entry.owner);
    let body = data_len(entry.body)?;
    sum_of(body, owner + 10)
}

/// A part of a section, after this many octets.
fn part_len<S: Section>(
    before: usize,
    first: Option<&Name>,
    section: &S,
    part: usize,
) -> Option<usize>
    requires few { before ≤ MOST_OCTETS }
    requires forms { AllByRecursion HasItsForm (part_at (S.parts section.now) part) }
    ensures { result ≡ within (before + length (records_octets (option_copied first.entry) (part_at (S.parts section.now) part))) }
{
    let mut total = before;
    for place in 0..section.record_count(part) {
        let len = record_len(first, &record_in(section, part, place))?;
        total = sum_of(total, len)?;
    }
    Some(total)
}

/// A section, after this many octets.
fn section_len<S: Section>(before: usize, first: Option<&Name>, section: &S) -> Option<usize>
    requires few { before ≤ MOST_OCTETS }
    requires forms { AllByRecursion HasItsForm (in_order (S.parts section.now)) }
    ensures { result ≡ within (before + length (records_octets (option_copied first.entry) (in_order (S.parts section.now)))) }
{
    let mut total = before;
    for part in 0..section.part_count() {
        total = part_len(total, first, section, part)?;
    }
    Some(total)
}

/// A header and questions.
fn questions_len(questions: &[Classed<Question>]) -> Option<usize>
    ensures { result ≡ within (HEADER_OCTETS + length (flat_map question_octets questions.now)) }
{
    let mut total = HEADER_OCTETS;
    for question in questions {
        total = sum_of(total, question.item.owner.wire_len() + 4)?;
    }
    Some(total)
}

/// All sections, after this many octets.
fn sections_len<A: Section, B: Section, C: Section>(
    before: usize,
    first: Option<&Name>,
    sections: &Sections<'_, A, B, C>,
) -> Option<usize>
    requires few { before ≤ MOST_OCTETS }
    requires forms { AreFormed sections.now }
    ensures { result ≡ within (before + records_len (option_copied first.entry) sections.now) }
{
    let total = section_len(before, first, sections.answer)?;
    let total = section_len(total, first, sections.authority)?;
    section_len(total, first, sections.additional)
}

/// The same with each owner whole. This is no bound if the question's name is the root: a pointer is longer than that.
fn whole_len<A: Section, B: Section, C: Section>(
    before: usize,
    first: Option<&Name>,
    sections: &Sections<'_, A, B, C>,
) -> Option<usize>
    requires few { before ≤ MOST_OCTETS }
    requires forms { AreFormed sections.now }
    ensures { IfSome result (λ n. (before + records_len (option_copied first.entry) sections.now ≤ n) × (n ≤ MOST_OCTETS)) }
{
    match first {
        Some(first) if first.wire_len() < 2 => None,
        _ => sections_len(before, None, sections),
    }
}

/// Room for a message whose header and questions take this many octets. Owners are compared with the question's name only
/// if the message might be too long with each of them whole.
fn room_behind<A: Section, B: Section, C: Section>(
    before: usize,
    first: Option<&Name>,
    sections: &Sections<'_, A, B, C>,
) -> Option<usize>
    requires few { before ≤ MOST_OCTETS }
    requires forms { AreFormed sections.now }
    ensures { IsRoom (before + records_len (option_copied first.entry) sections.now) result }
{
    if let Some(room) = whole_len(before, first, sections) {
        return Some(room);
    }
    sections_len(before, first, sections)
}

/// Room for a message.
pub(crate) fn message_room(message: &Message) -> Option<usize>
    requires { HasForms message.now }
    ensures { IsRoomFor message.now (message_octets message.now) result }
{
    let before = questions_len(message.questions.as_slice())?;
    room_behind(before, message.first_name(), &message.sections())
}

/// Room for a reply to a query, whose octets it repeats, whatever its head.
pub(crate) fn reply_room<A: Section, B: Section, C: Section>(
    query: &Query,
    sections: &Sections<'_, A, B, C>,
) -> Option<usize>
    requires { AreFormed sections.now }
    ensures { IsRoomForReply query.now sections.now result }
{
    let before = sum_of(HEADER_OCTETS, query.octets.as_slice().len())?;
    room_behind(before, Some(&query.question.owner), sections)
}
