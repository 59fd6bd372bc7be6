//! The reserved bits of a header.

ghost use Rattle.std.specs.Prelude.{◌≡◌, ◌<◌, ◌/◌, ◌%◌, ◌↔◌, IsSome, IfSome};

use std::marker::Model;

/// The bits Z, 3 of them, which are reserved (RFC 1035, section 4.1.1). Contracts see the number.
#[derive(Clone, Copy, PartialEq, Eq)]
pub struct Reserved {
    number: u8,
}

impl Model for Reserved {
    ghost use Rattle.std.specs.Prelude.{ℕ, ◌<◌};

    ghost Value = { ℕ };

    ghost view = { λ z. z.number };

    ghost invariant = { λ z. z.number < 8 };

    ghost inverse = { λ number. record { number = number } };
}

impl Reserved {
    /// The bits as every message must have them.
    pub const ZERO: Reserved = Reserved { number: 0 };

    /// The bits of this number, if it has 3 bits.
    pub fn from_number(number: u8) -> Option<Reserved>
        ensures some { IsSome result ↔ (number < 8) }
        ensures value { IfSome result (λ z. z ≡ number) }
    {
        if number >= 8 {
            return None;
        }
        Some(Reserved { number })
    }

    /// The bits in the flags of a header.
    pub(crate) fn in_flags(flags: u16) -> Reserved
        ensures { result ≡ flags / 16 % 8 }
    {
        Reserved {
            number: (flags / 16 % 8) as u8,
        }
    }

    /// The number, below 8.
    pub fn number(self) -> u8
        ensures value { result ≡ self }
        ensures range { self < 8 }
    {
        self.number
    }
}
