//! The faults of calls, splits and closings. After one, the book, its total and the pass are as they were.

ghost use Rattle.std.specs.Prelude.{◌≡◌, ◌⊎◌, ◌≤◌, ◌^◌};

use crate::kept::Kept;
use crate::ledger::CallLedger;
use crate::pass::Pass;
use history::{Book, StepFault};
use std::marker::Model;
use thiserror::Error;

/// The reason that a call gets no reply.
#[derive(Clone, Copy, Debug, PartialEq, Eq, Error)]
pub enum CallFault {
    /// The pass has seen more than the book's total: it is of another book.
    #[error("the book is behind, at {at}")]
    Behind { at: u64 },
    /// The book does not take the event: this is its fault.
    #[error("{0}")]
    Step(StepFault),
}

/// The reason that a pass is not split.
#[derive(Debug, Drop, Error)]
pub enum SplitFault {
    /// It has one part left, or caller numbers have run out.
    #[error("no more callers are counted")]
    CountEnded(SplitFound),
}

/// What a split found under the lock: the parts of its pass, and how many callers were numbered. Only `SplitFound::of` makes one, and
/// requires that no caller more is counted.
#[derive(Debug, Drop)]
pub struct SplitFound {
    parts: u64,
    callers: u64,
}

impl Model for SplitFound {
    ghost use Rattle.shared_book.specs.Pass.{SplitState};

    ghost Value = { SplitState };

    ghost view = { λ found. record { parts = found.parts; callers = found.callers } };
}

impl SplitFound {
    /// A pass has one part, or as many callers were numbered as there may be.
    pub(crate) fn of<B: Book, L: CallLedger>(kept: &Kept<B, L>, pass: &Pass<L>) -> SplitFound
        requires { (pass.now.parts ≡ 1) ⊎ (2 ^ 62 ≤ kept.now.callers) }
        ensures parts { result.parts ≡ pass.now.parts }
        ensures ended { (result.parts ≡ 1) ⊎ (2 ^ 62 ≤ result.callers) }
    {
        SplitFound {
            parts: pass.parts(),
            callers: kept.callers.count(),
        }
    }
}

/// The reason that a book is not closed.
#[derive(Clone, Copy, Debug, PartialEq, Eq, Error)]
pub enum CloseFault {
    /// So many calls of passes were not handed in, or else so many receipts of the window's calls.
    #[error("{count} calls are missing")]
    Missing { count: u64 },
    /// Of the receipts in order of number, the one at this place is not the call in the window. It is the first such place.
    #[error("receipt {number} is not in the window")]
    Mismatch { number: u64 },
    /// Memory was refused.
    #[error("out of memory")]
    NoMemory,
}
