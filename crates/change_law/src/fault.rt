//! Refusals of an admission and of a change.

ghost use Rattle.std.specs.Prelude.{◌≡◌};
ghost use Rattle.change_law.specs.declared.fault.WorldFault.TheVariants as world;
ghost use Rattle.change_law.specs.declared.fault.ChangeFault.TheVariants as change;

use std::alloc::{AllocError, AllocFailed};
use thiserror::Error;

/// The reason why a world refuses an admission, which then leaves it as it was.
#[derive(Clone, Copy, Debug, PartialEq, Eq, Error)]
pub enum WorldFault {
    /// The world stores as many cells as its limit allows.
    #[error("{stored} cells are stored")]
    Full { stored: usize },
    /// There was no memory.
    #[error("out of memory")]
    NoMemory,
}

impl From<AllocError> for WorldFault {
    ghost from_gives = { λ _ e. e ≡ world.NoMemory };

    fn from(_e: AllocError) -> WorldFault {
        WorldFault::NoMemory
    }
}

impl<T: Drop> From<AllocFailed<T>> for WorldFault {
    ghost from_gives = { λ _ e. e ≡ world.NoMemory };

    fn from(_e: AllocFailed<T>) -> WorldFault {
        WorldFault::NoMemory
    }
}

/// The reason why a world refuses a change, which then leaves it as it was.
#[derive(Clone, Copy, Debug, PartialEq, Eq, Error)]
pub enum ChangeFault {
    /// The tables do not allow it. The number is the code of the reason, which the change's own crate defines.
    #[error("the change is refused for reason {0}")]
    Refused(u8),
    /// There was no memory.
    #[error("out of memory")]
    NoMemory,
}

impl From<AllocError> for ChangeFault {
    ghost from_gives = { λ _ e. e ≡ change.NoMemory };

    fn from(_e: AllocError) -> ChangeFault {
        ChangeFault::NoMemory
    }
}

impl<T: Drop> From<AllocFailed<T>> for ChangeFault {
    ghost from_gives = { λ _ e. e ≡ change.NoMemory };

    fn from(_e: AllocFailed<T>) -> ChangeFault {
        ChangeFault::NoMemory
    }
}
