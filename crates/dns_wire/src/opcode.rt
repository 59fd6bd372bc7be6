//! The kind of a query.

ghost use Rattle.std.specs.Prelude.{◌≡◌, ◌<◌, ◌/◌, ◌%◌, ◌↔◌, IsTrue, IsSome, IfSome};

use std::marker::Model;

/// The kind of a query, in 4 bits (RFC 1035, section 4.1.1). Contracts see the number.
#[derive(Clone, Copy, PartialEq, Eq)]
pub struct Opcode {
    number: u8,
}

impl Model for Opcode {
    ghost use Rattle.std.specs.Prelude.{ℕ, ◌<◌};

    ghost Value = { ℕ };

    ghost view = { λ opcode. opcode.number };

    ghost invariant = { λ opcode. opcode.number < 16 };

    ghost inverse = { λ number. record { number = number } };
}

impl Opcode {
    /// A standard query.
    pub const QUERY: Opcode = Opcode { number: 0 };

    /// The kind with this number, if the number has 4 bits.
    pub fn from_number(number: u8) -> Option<Opcode>
        ensures some { IsSome result ↔ (number < 16) }
        ensures value { IfSome result (λ opcode. opcode ≡ number) }
    {
        if number >= 16 {
            return None;
        }
        Some(Opcode { number })
    }

    /// The kind in the flags of a header.
    pub(crate) fn in_flags(flags: u16) -> Opcode
        ensures { result ≡ flags / 2048 % 16 }
    {
        Opcode {
            number: (flags / 2048 % 16) as u8,
        }
    }

    /// Whether it is a standard query.
    pub fn is_query(self) -> bool
        ensures { IsTrue result ↔ (self ≡ 0) }
    {
        self.number == 0
    }

    /// The number, below 16.
    pub fn number(self) -> u8
        ensures value { result ≡ self }
        ensures range { self < 16 }
    {
        self.number
    }
}
