//! The header as octets.

ghost use Rattle.std.specs.Prelude.{◌≡◌, ◌++◌, ◌<◌, ◌≤◌, ◌+◌, length, OnOk};
ghost use Rattle.dns_wire.specs.Lent.{in_order};
ghost use Rattle.dns_wire.specs.WellFormed.{IsHead};
ghost use Rattle.dns_wire.specs.Write.Header.{flags_of, header_octets, counted_header, AreFew};

use crate::lent::{Section, Sections};
use crate::limits::{HEADER_OCTETS, MOST_COUNT};
use crate::message::Head;
use std::alloc::AllocError;

fn flags_of(head: &Head) -> u16
    ensures value { result ≡ flags_of head.now }
    ensures opcode { head.now.opcode < 16 }
    ensures z { head.now.z < 8 }
    ensures rcode { head.now.rcode < 16 }
{
    u16::from(head.qr) * 32768
        + u16::from(head.opcode.number()) * 2048
        + u16::from(head.aa) * 1024
        + u16::from(head.tc) * 512
        + u16::from(head.rd) * 256
        + u16::from(head.ra) * 128
        + u16::from(head.z.number()) * 16
        + u16::from(head.rcode.number())
}

/// A header with these counts of questions and of the records of each section.
#[tactic(auto, unfolding(crate::specs::Write::Header::header_octets))]
pub(crate) fn header_of(
    head: &Head,
    questions: u16,
    answer: u16,
    authority: u16,
    additional: u16,
) -> [u8; HEADER_OCTETS]
    ensures value { result ≡ header_octets head.now questions answer authority additional }
    ensures fits { IsHead head.now }
{
    let [id, id_low] = head.id.to_be_bytes();
    let [flags, flags_low] = flags_of(head).to_be_bytes();
    let [questions, questions_low] = questions.to_be_bytes();
    let [answer, answer_low] = answer.to_be_bytes();
    let [authority, authority_low] = authority.to_be_bytes();
    let [additional, additional_low] = additional.to_be_bytes();
    [
        id,
        id_low,
        flags,
        flags_low,
        questions,
        questions_low,
        answer,
        answer_low,
        authority,
        authority_low,
        additional,
        additional_low,
    ]
}

/// How many records a section has.
fn count_of<S: Section>(section: &S) -> u16
    requires { length (in_order (S.parts section.now)) ≤ MOST_COUNT }
    ensures { result ≡ length (in_order (S.parts section.now)) }
{
    let mut count = 0;
    for part in 0..section.part_count() {
        count += section.record_count(part) as u16;
    }
    count
}

/// The header of a message with this many questions.
pub(crate) fn push_header<A: Section, B: Section, C: Section>(
    out: &mut Vec<u8>,
    head: &Head,
    questions: u16,
    sections: &Sections<'_, A, B, C>,
) -> Result<(), AllocError>
    requires { AreFew sections.now }
    ensures fits { IsHead head.now }
    ensures octets { OnOk result (out.new.items ≡ out.old.items ++ counted_header head.now questions sections.now) }
{
    let answer = count_of(sections.answer);
    let authority = count_of(sections.authority);
    let additional = count_of(sections.additional);
    let header = header_of(head, questions, answer, authority, additional);
    out.extend_from_slice(&header)
}
