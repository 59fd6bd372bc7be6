//! A message: its header, questions and records.

ghost use Rattle.std.specs.Prelude.{◌≡◌};
ghost use Rattle.std.specs.Option.{option_copied};
ghost use Rattle.dns_wire.specs.Lent.{records_of};
ghost use Rattle.dns_wire.specs.Write.Question.{first_name};

use crate::lent::Sections;
use crate::opcode::Opcode;
use crate::rcode::Rcode;
use crate::reserved::Reserved;
use dns_name::Name;
use dns_text::{Items, Question, Record};

/// The header of a message without its counts (RFC 1035, section 4.1.1).
#[derive(Clone, Copy, PartialEq, Eq)]
pub struct Head {
    /// The identifier. A response has that of its query.
    pub id: u16,
    /// Whether it is a response.
    pub qr: bool,
    /// The kind of query.
    pub opcode: Opcode,
    /// Whether the answer is authoritative.
    pub aa: bool,
    /// Whether the message was truncated.
    pub tc: bool,
    /// Whether recursion is desired.
    pub rd: bool,
    /// Whether recursion is available.
    pub ra: bool,
    /// The reserved bits.
    pub z: Reserved,
    /// The response code.
    pub rcode: Rcode,
}

/// The class of the Internet, IN (RFC 1035, section 3.2.4).
pub const CLASS_IN: u16 = 1;

/// A question or a record with its class (RFC 1035, section 3.2.4).
#[derive(Drop, PartialEq)]
pub struct Classed<T> {
    pub item: T,
    pub class: u16,
}

/// A message (RFC 1035, section 4.1). A record of a class other than IN has opaque data.
#[derive(Drop, PartialEq)]
pub struct Message {
    pub head: Head,
    pub questions: Items<Classed<Question>>,
    pub answer: Items<Classed<Record>>,
    pub authority: Items<Classed<Record>>,
    pub additional: Items<Classed<Record>>,
}

/// The name of the first of some questions, if there is one.
pub(crate) fn first_owner(questions: &[Classed<Question>]) -> Option<&Name>
    ensures { option_copied result ≡ first_name questions.now }
{
    match questions.first() {
        Some(first) => Some(&first.item.owner),
        None => None,
    }
}

impl Message {
    /// The name of the first question, if there is one.
    pub(crate) fn first_name(&self) -> Option<&Name>
        ensures { option_copied result ≡ first_name self.now.questions }
    {
        first_owner(self.questions.as_slice())
    }

    /// The borrowed records of each section.
    pub(crate) fn sections(
        &self,
    ) -> Sections<'_, Items<Classed<Record>>, Items<Classed<Record>>, Items<Classed<Record>>>
        ensures { result ≡ records_of self.now }
    {
        Sections {
            answer: &self.answer,
            authority: &self.authority,
            additional: &self.additional,
        }
    }
}
