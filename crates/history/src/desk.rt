//! The desk: whatever a caller can hand an event to, as a book of its own or a seat at a shared one.

ghost use Rattle.std.specs.Prelude.{◌≡◌, Result};
ghost use Rattle.history.specs.declared.event.Event.{Event};
ghost use Rattle.history.specs.declared.event.Reply.{Reply};
ghost use Rattle.history.specs.declared.desk.DeskFault.{DeskFault};
ghost use Rattle.history.specs.Desk.{BookCall};

use crate::book::{Book, StepFault};
use crate::event::{Event, Reply};
use thiserror::Error;

/// The reason that a call gets no reply.
#[derive(Clone, Copy, Debug, PartialEq, Eq, Error)]
pub enum DeskFault {
    /// The book does not take the event: this is its fault.
    #[error("{0}")]
    Step(StepFault),
    /// The caller has seen more calls than were made: it is a caller of another book.
    #[error("the book is behind, at {at}")]
    Behind { at: u64 },
}

/// A book after anything that a caller can hand an event to.
pub trait Desk {
    /// One call: the desk before, the event, the answer, the desk after.
    ghost calls: { Self → Event → Result Reply DeskFault → Self → Type 0 };

    /// Hands an event to the book.
    fn call(&mut self, event: Event) -> Result<Reply, DeskFault>
        ensures { calls self.old event result self.new };
}

/// A book is a desk for its only owner. It is never behind.
impl<B: Book> Desk for B {
    ghost calls = { BookCall B.stands_for B.settings B.stored B.unswept };

    fn call(&mut self, event: Event) -> Result<Reply, DeskFault> {
        match self.step(event) {
            Ok(reply) => Ok(reply),
            Err(fault) => Err(DeskFault::Step(fault)),
        }
    }
}
