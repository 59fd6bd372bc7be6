//! Faults of a text.

ghost use Rattle.std.specs.Prelude.{◌≡◌};
ghost use Rattle.dns_text.specs.declared.fault.TextFault.TheVariants.{NoMemory};

use std::alloc::{AllocError, AllocFailed};
use thiserror::Error;

/// The first fault of a text, from the left.
#[derive(Clone, Copy, Debug, PartialEq, Eq, Error)]
pub enum TextFault {
    /// The name is missing, or the word is no name.
    #[error("the name is missing or not a name")]
    BadName,
    /// The TTL is above 2147483647 (RFC 2181, section 8).
    #[error("the TTL is above 2147483647")]
    BadTtl,
    /// The type is missing, unknown, or one that records may not have.
    #[error("the type is missing, unknown or not one of a record")]
    BadType,
    /// The data is missing, or it does not have the form of its type.
    #[error("the data is missing or not of its type's form")]
    BadData,
    /// Memory ran out.
    #[error("out of memory")]
    NoMemory,
}

impl From<AllocError> for TextFault {
    ghost from_gives = { λ _ e. e ≡ NoMemory };

    fn from(_e: AllocError) -> TextFault {
        TextFault::NoMemory
    }
}

impl<T: Drop> From<AllocFailed<T>> for TextFault {
    ghost from_gives = { λ _ e. e ≡ NoMemory };

    fn from(_e: AllocFailed<T>) -> TextFault {
        TextFault::NoMemory
    }
}
