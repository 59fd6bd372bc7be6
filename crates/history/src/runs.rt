//! Any book, over a list of events.

ghost use Rattle.std.specs.Prelude.{◌≡◌};
ghost use Rattle.history.specs.Runs.{RunsByHistory, StepsByHistory};

use crate::book::{Book, StepFault};
use crate::event::{Event, Reply};
use std::alloc::AllocError;
use thiserror::Error;

/// Why a run stops before an event. Then the events before it are taken, and it is not.
#[derive(Clone, Copy, Debug, PartialEq, Eq, Error)]
pub enum RunFault {
    /// Memory for its reply was refused.
    #[error("out of memory")]
    NoMemory,
    /// The book met it with a fault.
    #[error("{0}")]
    Step(StepFault),
}

impl From<AllocError> for RunFault {
    ghost use Rattle.history.specs.declared.runs.RunFault.TheVariants.{NoMemory};

    ghost from_gives = { λ _ fault. fault ≡ NoMemory };

    fn from(_e: AllocError) -> RunFault {
        RunFault::NoMemory
    }
}

impl From<StepFault> for RunFault {
    ghost use Rattle.history.specs.declared.runs.RunFault.TheVariants.{Step};

    ghost from_gives = { λ told fault. fault ≡ Step told };

    fn from(told: StepFault) -> RunFault {
        RunFault::Step(told)
    }
}

/// Takes events in order, up to the first that meets a fault, and adds the reply to each.
pub fn run<B: Book>(
    book: &mut B,
    events: Vec<Event>,
    replies: &mut Vec<Reply>,
) -> Result<(), RunFault>
    ensures replies { RunsByHistory B.stands_for B.settings book.old events.items replies.old.items replies.new.items result book.new }
    ensures settings { B.settings book.new ≡ B.settings book.old }
{
    for event in events {
        step_one(book, event, replies)?;
    }
    Ok(())
}

/// Takes an event and adds its reply.
fn step_one<B: Book>(book: &mut B, event: Event, replies: &mut Vec<Reply>) -> Result<(), RunFault>
    ensures answered { StepsByHistory B.stands_for B.settings book.old event replies.old.items replies.new.items result book.new }
    ensures settings { B.settings book.new ≡ B.settings book.old }
{
    replies.reserve(1)?;
    let reply = book.step(event)?;
    replies.push_reserved(reply);
    Ok(())
}
