//! Faults of an admission.

ghost use Rattle.std.specs.Prelude.{◌≡◌};
ghost use Rattle.shelf.specs.declared.fault.StoreFault.TheVariants.{NoMemory};

use std::alloc::{AllocError, AllocFailed};
use thiserror::Error;

/// The reason why a find is not cached. No cell has changed.
#[derive(Clone, Copy, Debug, PartialEq, Eq, Error)]
pub enum StoreFault {
    /// The find needs a new place, and the counted places are at the limit.
    #[error("{stored} cells are stored")]
    Full { stored: u64 },
    /// There was no memory. It comes only if the place of the find is not counted yet.
    #[error("out of memory")]
    NoMemory,
}

impl From<AllocError> for StoreFault {
    ghost from_gives = { λ _ e. e ≡ NoMemory };

    fn from(_e: AllocError) -> StoreFault {
        StoreFault::NoMemory
    }
}

impl<T: Drop> From<AllocFailed<T>> for StoreFault {
    ghost from_gives = { λ _ e. e ≡ NoMemory };

    fn from(_e: AllocFailed<T>) -> StoreFault {
        StoreFault::NoMemory
    }
}
