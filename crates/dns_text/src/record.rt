//! Questions and records.

ghost use Rattle.std.specs.Prelude.{◌≡◌, true, IfOk};
ghost use Rattle.dns_text.specs.declared.record.Data.{Data};
ghost use Rattle.dns_text.specs.declared.record.Question.{Question};
ghost use Rattle.dns_text.specs.declared.record.Record.{Record};

use crate::items::Octets;
use crate::strings::Strings;
use crate::ttl::Ttl;
use dns_name::{Name, NoMemory};

/// A name and a type (RFC 1035, section 4.1.2).
#[derive(Drop, PartialEq)]
pub struct Question {
    pub owner: Name,
    pub kind: u16,
}

impl Clone for Question {
    fn clone(&self) -> Result<Question, NoMemory>
        ensures { IfOk result (λ copy. copy ≡ self.now) }
    {
        Ok(Question {
            owner: self.owner.clone()?,
            kind: self.kind,
        })
    }
}

/// The data of a record (RFC 1035, section 3.3).
#[derive(Drop, PartialEq)]
pub enum Data {
    /// An IPv4 address, its first octet first (RFC 1035, section 3.4.1).
    A([u8; 4]),
    /// An IPv6 address, its first octet first (RFC 3596, section 2.2).
    Aaaa([u8; 16]),
    /// The one name of NS, CNAME and PTR (RFC 1035, sections 3.3.1, 3.3.11 and 3.3.12).
    One(Name),
    /// A mail exchange; the least preference is tried first (RFC 1035, section 3.3.9).
    Mx {
        preference: u16,
        exchange: Name,
    },
    /// The start of a zone of authority; times are in seconds (RFC 1035, section 3.3.13).
    Soa {
        primary: Name,
        mailbox: Name,
        serial: u32,
        refresh: u32,
        retry: u32,
        expire: u32,
        minimum: u32,
    },
    /// One or more strings of at most 255 octets each (RFC 1035, section 3.3.14).
    Txt(Strings),
    /// The place of a service (RFC 2782).
    Srv {
        priority: u16,
        weight: u16,
        port: u16,
        target: Name,
    },
    /// The octets of every other type (RFC 3597, section 5).
    Opaque(Octets),
}

/// A record (RFC 1035, section 3.2).
#[derive(Drop, PartialEq)]
pub struct Record {
    pub owner: Name,
    pub kind: u16,
    pub ttl: Ttl,
    pub body: Data,
}

/// Values that `==` calls equal are the same, and each value is equal to itself.
pub fn equality_law()
    ensures data_exact { (a b : Data) → ⟦<Data as PartialEq>⟧.eq a b ≡ true → a ≡ b }
    ensures questions_exact { (a b : Question) → ⟦<Question as PartialEq>⟧.eq a b ≡ true → a ≡ b }
    ensures records_exact { (a b : Record) → ⟦<Record as PartialEq>⟧.eq a b ≡ true → a ≡ b }
    ensures data_itself { (a : Data) → ⟦<Data as PartialEq>⟧.eq a a ≡ true }
    ensures question_itself { (a : Question) → ⟦<Question as PartialEq>⟧.eq a a ≡ true }
    ensures record_itself { (a : Record) → ⟦<Record as PartialEq>⟧.eq a a ≡ true }
{}
