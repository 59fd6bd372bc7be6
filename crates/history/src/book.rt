//! The promise that every book keeps, however it keeps it.

ghost use Rattle.std.specs.Prelude.{◌≡◌, ◌<◌, ◌≤◌, ℕ, true, false, List, length, count_by, IfOk, OnOk, OnErr, IsErrOf, ◌⊎◌, IfErr};
ghost use Rattle.history.specs.declared.event.Event.{Event};
ghost use Rattle.history.specs.declared.event.Settings.{Settings};
ghost use Rattle.history.specs.Event.{is_admission};
ghost use Rattle.history.specs.History.{past_of, stubs_of, tables_of};
ghost use Rattle.history.specs.Reply.{look_seen, lookup_after, seen_after};
ghost use Rattle.history.specs.Answers.{Answers, Follows, SweepsAll, TellsLimitAt, history_after};
ghost use Rattle.history.specs.Servers.{servers_after};

use crate::event::{Ask, Event, Look, Reply, Seen, Settings};
use crate::hidden::Hidden;
use crate::servers::Servers;
use dns_name::{Name, NoMemory};
use dns_text::Question;
use local_zone::ZoneTable;
use std::alloc::{AllocError, AllocFailed};
use stub_table::StubTable;
use thiserror::Error;

/// The reason that an event is not taken. Then nothing has changed, the greatest moment included.
#[derive(Clone, Copy, Debug, PartialEq, Eq, Error)]
pub enum StepFault {
    /// The moment is `MOMENT_END` or later.
    #[error("the moment is too late")]
    BadMoment,
    /// `MOST_EVENTS` events were taken.
    #[error("no more events are counted")]
    CountEnded,
    /// As many cells are stored as there may be. Only an admission meets this.
    #[error("{stored} cells are stored")]
    Full { stored: usize },
    /// Memory was refused.
    #[error("out of memory")]
    NoMemory,
}

impl From<AllocError> for StepFault {
    ghost use Rattle.history.specs.declared.book.StepFault.TheVariants.{NoMemory};

    ghost from_gives = { λ _ e. e ≡ NoMemory };

    fn from(_e: AllocError) -> StepFault {
        StepFault::NoMemory
    }
}

impl<T: Drop> From<AllocFailed<T>> for StepFault {
    ghost use Rattle.history.specs.declared.book.StepFault.TheVariants.{NoMemory};

    ghost from_gives = { λ _ e. e ≡ NoMemory };

    fn from(_e: AllocFailed<T>) -> StepFault {
        StepFault::NoMemory
    }
}

/// A cache with local zones and stubs. Each reply is the one that a replay of its history from nothing gives, with the undone
/// commands struck out.
pub trait Book: Drop {
    /// The book is in the state that a replay of this history gives.
    ghost stands_for: { Self → List Event → Type 0 };

    /// The settings that the book was made with.
    ghost settings: { Self → Settings };

    /// How many cells are stored.
    ghost stored: { Self → ℕ };

    /// A bound of what is left to free of what no reply can show any more.
    ghost unswept: { Self → ℕ };

    /// The book takes this event without memory. Which events these are, each book says.
    ghost is_free: { Self → Event → Type 0 };

    /// Takes an event.
    fn step(&mut self, event: Event) -> Result<Reply, StepFault>
        // The reply is that of the replay, and each fault has its reason.
        ensures answers { (h : List Event) → stands_for self.old h → Answers (settings self.old) h event result }

        // The book stands for the history with the event, or after a fault for the history as it was.
        ensures stands { (h : List Event) → stands_for self.old h → stands_for self.new (history_after h event result) }

        // It is full only if as many cells are stored as there may be.
        ensures full { (n : ℕ) → IsErrOf result (StepFault.Full n) → stored self.old ≡ n }
        ensures same_store { OnErr result (stored self.new ≡ stored self.old) }
        ensures settings { settings self.new ≡ settings self.old }

        // An event that needs no memory is refused only by the clock and the count of events.
        ensures free { is_free self.old event →
            IfErr result (λ fault. (fault ≡ StepFault.BadMoment) ⊎ (fault ≡ StepFault.CountEnded)) }

        // If it stores as many cells as there may be, it does not refuse an admission for want of memory.
        ensures by_limit { IfErr result (λ fault. TellsLimitAt stands_for settings stored self.old event fault) }

        // A sweep that is taken leaves nothing to sweep.
        ensures swept { OnOk result (SweepsAll event (unswept self.new)) };

    /// Takes an event as `step` does, and returns no reply. A book that follows another one needs none, since the other has replied. So
    /// it may leave out what only replies need, and what has expired until `sweep_some` removes it.
    fn follow(&mut self, event: Event) -> Result<(), StepFault>
        ensures answers { (h : List Event) → stands_for self.old h → Follows (settings self.old) h event result }
        ensures stands { (h : List Event) → stands_for self.old h → stands_for self.new (history_after h event result) }
        ensures full { (n : ℕ) → IsErrOf result (StepFault.Full n) → stored self.old ≡ n }
        ensures same_store { OnErr result (stored self.new ≡ stored self.old) }
        ensures settings { settings self.new ≡ settings self.old }
        ensures free { is_free self.old event →
            IfErr result (λ fault. (fault ≡ StepFault.BadMoment) ⊎ (fault ≡ StepFault.CountEnded)) }
        ensures by_limit { IfErr result (λ fault. TellsLimitAt stands_for settings stored self.old event fault) }
    {
        match self.step(event) {
            Ok(reply) => {
                drop(reply);
                Ok(())
            }
            Err(fault) => Err(fault),
        }
    }

    /// Frees some of the memory of what no reply can show any more, so that no call is long. Returns whether there may be more of it:
    /// if so, less is left than before, and if not, nothing is. It is no event, and takes no memory.
    fn sweep_some(&mut self) -> bool
        ensures stands { (h : List Event) → stands_for self.old h → stands_for self.new h }
        ensures stored { stored self.new ≤ stored self.old }
        ensures settings { settings self.new ≡ settings self.old }
        ensures more { result ≡ true → unswept self.new < unswept self.old }
        ensures none { result ≡ false → unswept self.new ≡ 0 };

    /// The reply that a lookup at this moment would get. It moves no clock, and no moment is too late for it.
    fn seen(&self, ask: &Ask, moment: u64) -> Result<Seen, NoMemory>
        ensures { (h : List Event) → stands_for self.now h → IfOk result (λ s. s ≡ seen_after (settings self.now) h ask.now moment) };

    /// The reply that a lookup of a question would get. It takes no memory.
    fn look<'a>(&'a self, question: &'a Question, moment: u64) -> Look<'a>
        ensures { (h : List Event) → stands_for self.now h → look_seen result ≡ lookup_after (settings self.now) h question.now moment };

    /// The local zones and records.
    fn zones(&self) -> &ZoneTable
        ensures { (h : List Event) → stands_for self.now h → result.now ≡ (tables_of (past_of (settings self.now).journal h)).local };

    /// The stubs.
    fn stubs(&self) -> &StubTable
        ensures { (h : List Event) → stands_for self.now h → result.now ≡ stubs_of (past_of (settings self.now).journal h) };

    /// The servers to ask about a name at a moment.
    fn servers(&self, name: &Name, moment: u64) -> Result<Servers, NoMemory>
        ensures { (h : List Event) → stands_for self.now h → IfOk result (λ s. s ≡ servers_after (settings self.now) h name.now moment) };

    /// Counts of how many cached names with data alive the flush of a ticket hides a cell: of some names from a place on, so that no call
    /// is long. It is for an operator's eyes, and no clause says what is counted.
    fn hidden_some(&self, ticket: u64, from: u64, moment: u64) -> Hidden {
        let _ = (ticket, from, moment);
        Hidden::none()
    }

    /// How many cells are stored.
    fn stored(&self) -> usize
        ensures { result ≡ stored self.now };

    /// How many cells there may be.
    fn limit(&self) -> usize
        ensures { result ≡ (settings self.now).cells };

    /// The journal has room for a command.
    ghost has_journal: { (book : Self) (h : List Event) → stands_for book h → 1 ≤ (settings book).journal };

    /// No more cells are stored than finds were admitted.
    ghost stores_few: { (book : Self) (h : List Event) → stands_for book h → stored book ≤ count_by is_admission h };

    /// All histories that the book stands for have as many events.
    ghost one_count: { (book : Self) (h k : List Event) → stands_for book h → stands_for book k → length h ≡ length k };
}
