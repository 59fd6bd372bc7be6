//! The faults that end a stream.

use std::alloc::{AllocError, AllocFailed};
use streams::{ReadFailed, WriteFailed};
use thiserror::Error;

/// The fault that ended a stream of messages.
#[derive(Clone, Copy, Debug, PartialEq, Eq, Error)]
pub enum StreamFault {
    /// A read failed, or the stream took `MOST_READS` reads.
    #[error("read failed")]
    Read,
    /// A write failed.
    #[error("write failed")]
    Write,
    /// The input ended inside a message.
    #[error("the input ended inside a message")]
    Short,
    /// No memory was left.
    #[error("out of memory")]
    NoMemory,
}

impl From<ReadFailed> for StreamFault {
    ghost use Rattle.std.specs.Prelude.{◌≡◌};
    ghost use Rattle.replies.specs.declared.fault.StreamFault.TheVariants.{Read as ReadFault};

    ghost from_gives = { λ _ e. e ≡ ReadFault };

    fn from(_e: ReadFailed) -> StreamFault {
        StreamFault::Read
    }
}

impl From<WriteFailed> for StreamFault {
    ghost use Rattle.std.specs.Prelude.{◌≡◌};
    ghost use Rattle.replies.specs.declared.fault.StreamFault.TheVariants.{Write as WriteFault};

    ghost from_gives = { λ _ e. e ≡ WriteFault };

    fn from(_e: WriteFailed) -> StreamFault {
        StreamFault::Write
    }
}

impl From<AllocError> for StreamFault {
    ghost use Rattle.std.specs.Prelude.{◌≡◌};
    ghost use Rattle.replies.specs.declared.fault.StreamFault.TheVariants.{NoMemory};

    ghost from_gives = { λ _ e. e ≡ NoMemory };

    fn from(_e: AllocError) -> StreamFault {
        StreamFault::NoMemory
    }
}

impl<T: Drop> From<AllocFailed<T>> for StreamFault {
    ghost use Rattle.std.specs.Prelude.{◌≡◌};
    ghost use Rattle.replies.specs.declared.fault.StreamFault.TheVariants.{NoMemory};

    ghost from_gives = { λ _ e. e ≡ NoMemory };

    fn from(_e: AllocFailed<T>) -> StreamFault {
        StreamFault::NoMemory
    }
}
