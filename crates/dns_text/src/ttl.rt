//! The TTL of a record.

ghost use Rattle.std.specs.Prelude.{◌≡◌, ◌<◌, ◌^◌, ◌↔◌, IsSome, IfSome};

use std::marker::Model;

/// The greatest TTL, in seconds (RFC 2181, section 8).
pub const MOST_TTL: u64 = 2147483647;

/// The number of seconds that a record may be cached: below 2^31 (RFC 2181, section 8). Contracts see the number.
#[derive(Clone, Copy, PartialEq, Eq)]
pub struct Ttl {
    seconds: u32,
}

impl Model for Ttl {
    ghost use Rattle.std.specs.Prelude.{ℕ, ◌<◌, ◌^◌};

    ghost Value = { ℕ };

    ghost view = { λ ttl. ttl.seconds };

    ghost invariant = { λ ttl. ttl.seconds < 2 ^ 31 };

    ghost inverse = { λ seconds. record { seconds = seconds } };
}

impl Ttl {
    /// A TTL of 0: the record may be used once and not cached.
    pub const ZERO: Ttl = Ttl { seconds: 0 };

    /// A TTL of this many seconds, which are known to be below 2^31.
    pub(crate) fn new(seconds: u32) -> Ttl
        requires { seconds < 2 ^ 31 }
        ensures { result ≡ seconds }
    {
        Ttl { seconds }
    }

    /// A TTL of this many seconds, if they are below 2^31.
    pub fn from_seconds(seconds: u32) -> Option<Ttl>
        ensures some { IsSome result ↔ (seconds < 2 ^ 31) }
        ensures value { IfSome result (λ ttl. ttl ≡ seconds) }
    {
        if u64::from(seconds) > MOST_TTL {
            return None;
        }
        Some(Ttl { seconds })
    }

    /// The number of seconds.
    pub fn seconds(self) -> u32
        ensures value { result ≡ self }
        ensures range { self < 2 ^ 31 }
    {
        self.seconds
    }
}
