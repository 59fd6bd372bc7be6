//! The reply of a book, without its data.

use history::{Book, Event, Reply, StepFault};

/// The reply to an event that is no lookup, or the fault of its step.
#[derive(Clone, Copy, PartialEq, Eq)]
pub enum Outcome {
    Taken,
    Outranked,
    Done(u64),
    Undone(u64),
    Redone(u64),
    NothingToRedo,
    /// Any other reply.
    Other,
    Fault(StepFault),
}

/// A reply without its data.
pub fn outcome_of(reply: &Reply) -> Outcome {
    match reply {
        Reply::Taken => Outcome::Taken,
        Reply::Outranked => Outcome::Outranked,
        Reply::Done { ticket } => Outcome::Done(*ticket),
        Reply::Undone { ticket } => Outcome::Undone(*ticket),
        Reply::Redone { ticket } => Outcome::Redone(*ticket),
        Reply::NothingToRedo => Outcome::NothingToRedo,
        _ => Outcome::Other,
    }
}

/// Gives a book an event.
pub fn give<B: Book>(book: &mut B, event: Event) -> Outcome {
    match book.step(event) {
        Ok(reply) => {
            let outcome = outcome_of(&reply);
            drop(reply);
            outcome
        }
        Err(fault) => Outcome::Fault(fault),
    }
}
