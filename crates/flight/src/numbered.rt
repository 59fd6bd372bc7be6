//! A desk that numbers its calls.

ghost use Rattle.std.specs.Prelude.{◌≡◌, ℕ};
ghost use Rattle.history.specs.declared.event.Event.{Event};
ghost use Rattle.shared_book.specs.Calling.{IsPutOff};
ghost use Rattle.flight.specs.Flight.{CallsSoon};

use history::{Book, Desk, Event, Reply};
use iterate::AskFault;
use shared_book::{CallLedger, Seat};
use std::sync::Wait;

/// A desk that numbers its calls, as a seat of a shared book does.
pub trait Numbered: Desk {
    /// The number of the latest call that this desk knows of.
    ghost seen: { Self → ℕ };

    /// The desk may put off this look for the name to forget first.
    ghost puts_off: { Self → Event → Type 0 };

    /// The number of the latest call that this desk knows of.
    fn seen(&self) -> u64
        ensures { result ≡ seen self.now };

    /// Calls the desk. It may put off a look for the name to forget first, if that would keep others waiting.
    fn call_soon(&mut self, event: Event) -> Result<Reply, AskFault>
        ensures { CallsSoon Self.calls puts_off self.old event result self.new }
    {
        match self.call(event) {
            Ok(reply) => Ok(reply),
            Err(fault) => Err(AskFault::Desk(fault)),
        }
    }
}

impl<'a, B: Book, L: CallLedger, R: Wait> Numbered for Seat<'a, B, L, R> {
    ghost seen = { λ seat. seat.pass.seen };

    ghost puts_off = { λ _ event. IsPutOff B.stands_for B.settings B.stored B.unswept L.settings event };

    fn seen(&self) -> u64 {
        Seat::seen(self)
    }

    fn call_soon(&mut self, event: Event) -> Result<Reply, AskFault> {
        match Seat::call_soon(self, event) {
            Some(Ok(reply)) => Ok(reply),
            Some(Err(fault)) => Err(AskFault::Desk(fault)),
            None => Err(AskFault::Unswept),
        }
    }
}
