//! Replies as octets.

ghost use Rattle.std.specs.Prelude.{◌≡◌, true, false, ◌<◌, ◌≤◌, ◌^◌, length, option_map, IfOk, IfSome, IsTrue};
ghost use Rattle.std.specs.List.{AllByRecursion};
ghost use Rattle.dns_query.specs.declared.over.Over.TheVariants.{Udp};
ghost use Rattle.dns_wire.specs.declared.server.query.Asked.TheVariants.{Good};
ghost use Rattle.dns_wire.specs.Server.Asking.{AsksFor};
ghost use Rattle.dns_wire.specs.WellFormed.{HasItsForm, IsHead};
ghost use Rattle.iterate.specs.Told.{IsFit};
ghost use Rattle.replies.specs.declared.limits.TheConstants.{MOST_MESSAGE};
ghost use Rattle.replies.specs.Lending.{answer_parts, authority_parts};
ghost use Rattle.replies.specs.Sizing.{IsCutReply, MustBeCut};
ghost use Rattle.replies.specs.Reply.{fault_octets, head_told, most_octets, IsSent, Tells, WritesReply};

use crate::lending::{AnswerSection, AuthoritySection};
use crate::sizing::must_be_cut;
use dns_name::NoMemory;
use dns_query::Over;
use dns_text::Items;
use dns_wire::{
    EncodeFault, Head, NoRecords, Opcode, Query, Rcode, Reserved, Section, cut_for_udp,
    encode_lent, fault_reply, written_is_read,
};
use iterate::{Answer, AnswerSet, Soa};
use std::alloc::{AllocError, Global};

/// An identifier has 16 bits (RFC 1035, section 4.1.1).
fn id_law(id: u16)
    ensures { id < 2 ^ 16 }
{}

/// The head of a reply to a query.
fn head_of(query: &Query, rcode: Rcode, aa: bool) -> Head
    ensures told { result ≡ head_told query.now rcode aa }
    ensures fits { IsHead result }
{
    id_law(query.id);
    let _number = rcode.number();
    Head {
        id: query.id,
        qr: true,
        opcode: Opcode::QUERY,
        aa,
        tc: false,
        rd: query.rd,
        ra: true,
        z: Reserved::ZERO,
        rcode,
    }
}

/// The reply to a faulty query: a header with the RCODE, alone.
pub fn write_fault(alloc: Global, octets: &[u8], rcode: Rcode) -> Result<Vec<u8>, NoMemory>
    requires { 12 ≤ length octets.now }
    ensures octets { IfOk result (λ out. out.items ≡ fault_octets octets.now rcode) }
    ensures short { IfOk result (λ out. length out.items ≡ 12) }
{
    let reply = fault_reply(octets, rcode).unwrap();
    Vec::from_slice(alloc, &reply)
}

/// Cuts a reply that is too long for UDP to its header, with TC set, and the question.
fn cut(over: Over, query: &Query, mut out: Vec<u8>) -> Vec<u8>
    requires { length out.items ≤ MOST_MESSAGE }
    ensures sent { IsSent over query.now out.items result.items }
    ensures short { length result.items ≤ most_octets over }
{
    match over {
        Over::Tcp => out,
        Over::Udp => {
            cut_for_udp(&mut out, query);
            out
        }
    }
}

/// Whether a reply goes out over UDP and must be cut. Some that must be cut are written whole first: see `must_be_cut`.
fn is_cut(
    over: Over,
    query: &Query,
    aliases: &Items<AnswerSet>,
    last: &Option<AnswerSet>,
    authority: &Option<Soa>,
) -> bool
    ensures { IsTrue result → (over ≡ Udp)
        × MustBeCut query.now (answer_parts aliases.now last.now) (authority_parts authority.now) }
{
    match over {
        Over::Tcp => false,
        Over::Udp => must_be_cut(query, aliases, last, authority),
    }
}

/// Writes the header of a reply, with TC set, and the question, in place of what a buffer holds. That is the reply over UDP if it must
/// be cut.
fn write_cut(buffer: Vec<u8>, query: &Query, head: &Head) -> Result<Vec<u8>, NoMemory>
    requires { IsHead head.now }
    ensures short { IfOk result (λ out. length out.items ≤ most_octets Udp) }
    ensures written { IfOk result (λ out. IsCutReply query.now head.now out.items) }
{
    written_is_read();
    let _len = query.question.owner.wire_len();
    let mut head = *head;
    head.tc = true;
    match encode_lent(buffer, query, &head, &NoRecords, &NoRecords) {
        Ok(out) => Ok(out),
        // A header and a question are never too long, so memory ran out.
        Err(_) => Err(AllocError),
    }
}

/// Writes a reply as it goes out, in place of what a buffer holds. If it has too many octets for any message, the reply is
/// SERVFAIL, a header alone.
fn write_reply<A: Section, B: Section>(
    alloc: Global,
    buffer: Vec<u8>,
    over: Over,
    octets: &[u8],
    query: &Query,
    head: &Head,
    answer: &A,
    authority: &B,
) -> Result<Vec<u8>, NoMemory>
    requires header { 12 ≤ length octets.now }
    requires answer { AllByRecursion (AllByRecursion HasItsForm) (A.parts answer.now) }
    requires authority { AllByRecursion (AllByRecursion HasItsForm) (B.parts authority.now) }
    ensures short { IfOk result (λ out. length out.items ≤ most_octets over) }
    ensures written { IfOk result (WritesReply over octets.now query.now head.now (A.parts answer.now) (B.parts authority.now)) }
{
    match encode_lent(buffer, query, head, answer, authority) {
        Ok(out) => Ok(cut(over, query, out)),
        Err(EncodeFault::TooLong) => write_fault(alloc, octets, Rcode::SERVER_FAILURE),
        Err(EncodeFault::NoMemory) => Err(AllocError),
    }
}

/// Writes the reply to a query, as it goes out, in place of what a buffer holds. None if the answer is silence. It fails only
/// if no memory is left.
pub fn write_answer(
    alloc: Global,
    buffer: Vec<u8>,
    over: Over,
    octets: &[u8],
    query: &Query,
    answer: &Answer,
) -> Result<Option<Vec<u8>>, NoMemory>
    requires asks { AsksFor octets.now (Good query.now) }
    requires fit { IsFit answer.now }
    ensures short { IfOk result (λ reply. IfSome reply (λ out. length out.items ≤ most_octets over)) }
    ensures tells { IfOk result (λ reply. Tells over octets.now query.now answer.now (option_map (λ out. out.items) reply)) }
{
    match answer {
        Answer::Silent => Ok(None),
        Answer::Reply {
            rcode,
            aa,
            aliases,
            last,
            authority,
        } => {
            let head = head_of(query, *rcode, *aa);
            // The records of a reply that UDP cannot carry are not written first.
            if is_cut(over, query, aliases, last, authority) {
                return Ok(Some(write_cut(buffer, query, &head)?));
            }
            let answer = AnswerSection { aliases, last };
            let authority = AuthoritySection { authority };
            let out = write_reply(
                alloc, buffer, over, octets, query, &head, &answer, &authority,
            )?;
            Ok(Some(out))
        }
    }
}
