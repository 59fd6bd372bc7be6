//! Ends and faults of a run over lines.

use crate::source::ReadFailed;
use thiserror::Error;

/// Why a run ended.
#[derive(Clone, Copy, PartialEq, Eq)]
pub enum Ended {
    /// The input ended, and all its lines were obeyed.
    EndOfInput,
    /// A line asked to stop. What was read after it is lost.
    Stop,
}

/// Whether the run goes on after a line.
#[derive(Clone, Copy, PartialEq, Eq)]
pub enum Flow {
    /// The next line is obeyed.
    On,
    /// The line asked to stop.
    Stopped,
    /// A write of the reply failed.
    Failed,
}

/// Why a run failed before its input ended.
#[derive(Clone, Copy, Debug, PartialEq, Eq, Error)]
pub enum ScriptFault {
    /// A read failed, or the run made as many reads as it may.
    #[error("read failed")]
    Read,
    /// A write failed.
    #[error("write failed")]
    Write,
}

impl From<ReadFailed> for ScriptFault {
    ghost use Rattle.std.specs.Prelude.{◌≡◌};
    ghost use Rattle.streams.specs.declared.fault.ScriptFault.TheVariants.{Read as ReadFault};

    ghost from_gives = { λ _ e. e ≡ ReadFault };

    fn from(_e: ReadFailed) -> ScriptFault {
        ScriptFault::Read
    }
}
