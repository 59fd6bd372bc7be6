//! Messages and replies written into a buffer.

ghost use Rattle.std.specs.Prelude.{◌≡◌, ◌≤◌, ◌⊎◌, length, [], ◌∷◌, IfOk, IfErr, Err};
ghost use Rattle.std.specs.List.{AllByRecursion};
ghost use Rattle.dns_name.specs.Labels.{IsName};
ghost use Rattle.dns_wire.specs.declared.write.encoding.EncodeFault.{EncodeFault};
ghost use Rattle.dns_wire.specs.declared.write.encoding.EncodeFault.TheVariants.{TooLong, NoMemory};
ghost use Rattle.dns_wire.specs.Write.Encoding.{Encodes, EncodesReply, FailsFor, WrittenIsRead, RepliesAreRead, EncodesLent};
ghost use Rattle.dns_wire.specs.Read.Message.{SpelledMessage};
ghost use Rattle.dns_wire.specs.Lent.{reply_of, lent_reply};
ghost use Rattle.dns_wire.specs.WellFormed.{HasItsForm, HasForms, IsHead, AreFormed, AreRecords, IsWellFormed};
ghost use Rattle.dns_wire.specs.Write.Question.{in_class_in};
ghost use Rattle.dns_wire.specs.Write.Message.{message_octets, octets_with, IsTooLong};

use crate::lent::{NoRecords, Section, Sections};
use crate::message::{Head, Message};
use crate::server::query::Query;
use crate::write::header::push_header;
use crate::write::message::push_sections;
use crate::write::question::push_questions;
use crate::write::size::{message_room, reply_room};
use std::alloc::{AllocError, AllocFailed, Global};
use thiserror::Error;

/// The fault of a message that is not written.
#[derive(Clone, Copy, Debug, PartialEq, Eq, Error)]
pub enum EncodeFault {
    /// More than 65,535 octets, or questions or records of a section (RFC 1035, sections 4.1.1 and 4.2.2).
    #[error("the message is too long")]
    TooLong,
    /// Memory ran out.
    #[error("out of memory")]
    NoMemory,
}

impl From<AllocError> for EncodeFault {
    ghost from_gives = { λ _ e. e ≡ NoMemory };

    fn from(_e: AllocError) -> EncodeFault {
        EncodeFault::NoMemory
    }
}

impl<T: Drop> From<AllocFailed<T>> for EncodeFault {
    ghost from_gives = { λ _ e. e ≡ NoMemory };

    fn from(_e: AllocFailed<T>) -> EncodeFault {
        EncodeFault::NoMemory
    }
}

/// A message that isn't too long, in one buffer with room for it.
#[tactic(auto, unfolding(crate::specs::Write::Message::octets_with))]
fn write_message(alloc: Global, message: &Message, room: usize) -> Result<Vec<u8>, AllocError>
    requires forms { HasForms message.now }
    requires fits { ¬ (IsTooLong message.now) }
    requires room { length (message_octets message.now) ≤ room }
    ensures octets { IfOk result (λ out. out.items ≡ message_octets message.now) }
    ensures fits { IfOk result (λ _. IsWellFormed message.now) }
{
    let questions = message.questions.as_slice();
    let sections = message.sections();
    let mut out = Vec::with_capacity(alloc, room)?;
    push_header(&mut out, &message.head, questions.len() as u16, &sections)?;
    push_questions(&mut out, questions)?;
    push_sections(&mut out, message.first_name(), &sections)?;
    Ok(out)
}

/// A message as octets: an owner that is the first question's name is a pointer to it, every other name is whole
/// (RFC 1035, section 4.1).
pub fn encode(alloc: Global, message: &Message) -> Result<Vec<u8>, EncodeFault>
    requires { HasForms message.now }
    ensures encoded { IfOk result (λ out. Encodes (message_octets message.now) message.now out.items) }
    ensures fails { FailsFor message.now result }
{
    match message_room(message) {
        None => Err(EncodeFault::TooLong),
        Some(room) => Ok(write_message(alloc, message, room)?),
    }
}

/// A reply that isn't too long. It replaces the contents of a buffer, which grows if it must.
#[tactic(auto, unfolding(crate::specs::Write::Message::octets_with))]
fn write_reply<A: Section, B: Section, C: Section>(
    mut out: Vec<u8>,
    query: &Query,
    head: &Head,
    sections: &Sections<'_, A, B, C>,
    room: usize,
) -> Result<Vec<u8>, AllocError>
    requires forms { AreFormed sections.now }
    requires fits { ¬ (IsTooLong (reply_of head.now query.now.question sections.now)) }
    requires room { length (octets_with query.now.octets (reply_of head.now query.now.question sections.now)) ≤ room }
    ensures octets { IfOk result (λ out. out.items ≡ octets_with query.now.octets (reply_of head.now query.now.question sections.now)) }
    ensures fits { IfOk result (λ _. IsHead head.now × AreRecords sections.now × IsName query.now.question.owner) }
{
    let owner = &query.question.owner;
    let _len = owner.wire_len();
    out.clear();
    out.reserve(room)?;
    push_header(&mut out, head, 1, sections)?;
    out.extend_from_slice(query.octets.as_slice())?;
    push_sections(&mut out, Some(owner), sections)?;
    Ok(out)
}

/// A reply as octets, its question in the upper and lower case of the query's. It replaces the contents of a buffer.
fn encode_sections<A: Section, B: Section, C: Section>(
    buffer: Vec<u8>,
    query: &Query,
    head: &Head,
    sections: &Sections<'_, A, B, C>,
) -> Result<Vec<u8>, EncodeFault>
    requires { AreFormed sections.now }
    ensures encoded { IfOk result (λ out. EncodesReply query.now (reply_of head.now query.now.question sections.now) out.items) }
    ensures fails { FailsFor (reply_of head.now query.now.question sections.now) result }
{
    match reply_room(query, sections) {
        None => Err(EncodeFault::TooLong),
        Some(room) => Ok(write_reply(buffer, query, head, sections, room)?),
    }
}

/// A reply as octets, its question in the upper and lower case of the query's.
pub fn encode_reply(alloc: Global, query: &Query, reply: &Message) -> Result<Vec<u8>, EncodeFault>
    requires forms { HasForms reply.now }
    requires question { reply.now.questions ≡ in_class_in query.now.question ∷ [] }
    ensures encoded { IfOk result (λ out. EncodesReply query.now reply.now out.items) }
    ensures fails { FailsFor reply.now result }
{
    encode_sections(Vec::new(alloc), query, &reply.head, &reply.sections())
}

/// A reply as octets, from a head and borrowed sections, its question in the upper and lower case of the query's. It
/// replaces the contents of a buffer, which grows only if it has too little room. No name is copied.
pub fn encode_lent<A: Section, B: Section>(
    buffer: Vec<u8>,
    query: &Query,
    head: &Head,
    answer: &A,
    authority: &B,
) -> Result<Vec<u8>, EncodeFault>
    requires answer { AllByRecursion (AllByRecursion HasItsForm) (A.parts answer.now) }
    requires authority { AllByRecursion (AllByRecursion HasItsForm) (B.parts authority.now) }
    ensures encoded { IfOk result (λ out. EncodesLent query.now head.now (A.parts answer.now) (B.parts authority.now) out.items) }
    ensures fails { FailsFor (lent_reply head.now query.now.question (A.parts answer.now) (B.parts authority.now)) result }
{
    let sections = Sections {
        answer,
        authority,
        additional: &NoRecords,
    };
    encode_sections(buffer, query, head, &sections)
}

/// A written message is read back as that message, and as no other.
pub fn written_is_read()
    ensures messages { WrittenIsRead }
    ensures replies { RepliesAreRead }
{}
