//! Faults of a line.

ghost use Rattle.std.specs.Prelude.{◌≡◌};

use std::alloc::{AllocError, AllocFailed};
use thiserror::Error;

/// Why a line is not obeyed: a missing word, or else the first fault of its words from the left.
#[derive(Clone, Copy, Debug, PartialEq, Eq, Error)]
pub enum LineFault {
    /// The first word is no command of the channel, or there is no word.
    #[error("no such command")]
    Unknown,
    /// A word that the command needs is missing.
    #[error("a word is missing")]
    Missing,
    /// A word is no name.
    #[error("not a name")]
    BadName,
    /// A word is no record type, or no type of local zones.
    #[error("not a type")]
    BadType,
    /// A bad moment, rank, TTL or RDATA, or a word too many.
    #[error("bad data, or a word too many")]
    BadData,
    /// A word is no address of a server.
    #[error("not an address")]
    BadAddress,
    /// The line is longer than `streams::LONGEST_LINE`.
    #[error("the line is too long")]
    TooLong,
    /// There was no memory for the line.
    #[error("out of memory")]
    NoMemory,
}

impl From<AllocError> for LineFault {
    ghost use Rattle.command_text.specs.declared.fault.LineFault.TheVariants.{NoMemory};

    ghost from_gives = { λ _ e. e ≡ NoMemory };

    fn from(_e: AllocError) -> LineFault {
        LineFault::NoMemory
    }
}

impl<T: Drop> From<AllocFailed<T>> for LineFault {
    ghost use Rattle.command_text.specs.declared.fault.LineFault.TheVariants.{NoMemory};

    ghost from_gives = { λ _ e. e ≡ NoMemory };

    fn from(_e: AllocFailed<T>) -> LineFault {
        LineFault::NoMemory
    }
}
