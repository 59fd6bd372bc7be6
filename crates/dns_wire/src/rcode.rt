//! The response code.

ghost use Rattle.std.specs.Prelude.{◌≡◌, ◌<◌, ◌/◌, ◌%◌, ◌↔◌, IsSome, IfSome};

use std::marker::Model;

/// The outcome of a query, in 4 bits (RFC 1035, section 4.1.1). Contracts see the number.
#[derive(Clone, Copy, PartialEq, Eq)]
pub struct Rcode {
    number: u8,
}

impl Model for Rcode {
    ghost use Rattle.std.specs.Prelude.{ℕ, ◌<◌};

    ghost Value = { ℕ };

    ghost view = { λ rcode. rcode.number };

    ghost invariant = { λ rcode. rcode.number < 16 };

    ghost inverse = { λ number. record { number = number } };
}

impl Rcode {
    /// No error.
    pub const NO_ERROR: Rcode = Rcode { number: 0 };
    /// The server could not read the query.
    pub const FORMAT_ERROR: Rcode = Rcode { number: 1 };
    /// The server could not answer.
    pub const SERVER_FAILURE: Rcode = Rcode { number: 2 };
    /// The name doesn't exist.
    pub const NAME_ERROR: Rcode = Rcode { number: 3 };
    /// The server does not support this kind of query.
    pub const NOT_IMPLEMENTED: Rcode = Rcode { number: 4 };
    /// The server refuses to answer.
    pub const REFUSED: Rcode = Rcode { number: 5 };

    /// The code with this number, if the number has 4 bits.
    pub fn from_number(number: u8) -> Option<Rcode>
        ensures some { IsSome result ↔ (number < 16) }
        ensures value { IfSome result (λ rcode. rcode ≡ number) }
    {
        if number >= 16 {
            return None;
        }
        Some(Rcode { number })
    }

    /// The code in the flags of a header.
    pub(crate) fn in_flags(flags: u16) -> Rcode
        ensures { result ≡ flags % 16 }
    {
        Rcode {
            number: (flags % 16) as u8,
        }
    }

    /// The number, below 16.
    pub fn number(self) -> u8
        ensures value { result ≡ self }
        ensures range { self < 16 }
    {
        self.number
    }
}
