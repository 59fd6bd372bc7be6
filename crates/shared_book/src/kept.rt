//! The state under the lock: both books, the window between them, and the total of all calls.

ghost use Rattle.std.specs.Prelude.{◌≡◌, ◌<◌, ◌≤◌, ◌^◌, ◌↔◌, true, false, List, length, IfOk, IfErr, OnOk, OnErr, IsErrOf, ◌⊎◌, IsOk};
ghost use Rattle.history.specs.declared.event.Event.{Event};
ghost use Rattle.history.specs.Answers.{IsTimely};
ghost use Rattle.history.specs.Event.{is_plain, lagging_of};
ghost use Rattle.shared_book.specs.declared.kept.TheConstants.{MOST_RECORDED};
ghost use Rattle.shared_book.specs.Fresh.{CanShare, IsKnownAs};
ghost use Rattle.shared_book.specs.Pass.{first_pass};
ghost use Rattle.shared_book.specs.Kept.{first_kept, IsFreed, IsKept, IsKeptAs, MovesOn, IsTaken, IsTurn, IsTurnFor, IsStep, IsCopiedStep, IsSameRecord};
ghost use Rattle.shared_book.specs.Kept.{HasFreeRoom, IsFreeCall, IsIdleStep, LacksByBook};

use crate::callers::Callers;
use crate::copies::copies;
use crate::ledger::{Blank, CallLedger};
use crate::next_reply::tell;
use crate::opening::{sweep_one, take_in};
use crate::pass::Pass;
use crate::receipt::Receipt;
use crate::told::Told;
use crate::window::Window;
use dns_name::NoMemory;
use dns_text::Shared;
use history::{Book, Event, MOMENT_END, MOST_EVENTS, MakeFault, Reply, StepFault};
use std::alloc::Global;
use std::collections::VecDeque;
use std::marker::Model;
use std::sync::ledger::{Book as Calls, Share};

/// The most calls that a window can have.
pub const MOST_RECORDED: u64 = 1_000_000;

/// A book, a window of the last calls, and an opening book, which is the book as it was before them.
#[derive(Drop)]
pub struct Kept<B: Book, L: CallLedger> {
    pub(crate) alloc: Global,
    pub(crate) book: B,
    pub(crate) opening: B,
    pub(crate) window: Window,
    pub(crate) total: u64,
    pub(crate) callers: Callers,
    pub(crate) calls: Calls<L>,
    pub(crate) none: Share<L>,
}

impl<B: Book, L: CallLedger> Model for Kept<B, L> {
    ghost use Rattle.std.specs.Prelude.{◌≡◌};
    ghost use Rattle.shared_book.specs.Kept.{KeptState, IsKept, kept_code};
    ghost use Rattle.shared_book.specs.contracts.receipt.Receipt as receipt_type;

    ghost Value = { KeptState B };

    ghost coded = { kept_code B.code receipt_type.the_row.coded };

    ghost view = { λ k. record {
      book = k.book;
      opening = k.opening;
      first = k.window.first;
      window = k.window.calls.items;
      limit = k.window.limit;
      total = k.total;
      callers = k.callers;
    } };

    ghost invariant = { λ k. (k.total ≡ k.calls.total) × ((k.window.limit ≡ L.limit) × (B.settings k.book ≡ L.settings))
        × IsKept B.stands_for B.settings
        (record {
          book = k.book;
          opening = k.opening;
          first = k.window.first;
          window = k.window.calls.items;
          limit = k.window.limit;
          total = k.total;
          callers = k.callers;
        }) };
}

impl<B: Book, L: CallLedger> Kept<B, L> {
    /// Two books that have taken no event, of which the opening book lags behind, an empty window for so many calls, and the first
    /// pass.
    pub fn new(
        alloc: Global,
        blank: Blank,
        book: B,
        opening: B,
        limit: u64,
    ) -> Result<(Kept<B, L>, Pass<L>), MakeFault>
        requires known { IsKnownAs L.name L.parts L.limit L.settings blank limit (B.settings book) }
        requires books { CanShare B.stands_for B.settings book opening }
        ensures refused { IsErrOf result MakeFault.BadSettings ↔ ¬ ((1 ≤ blank.parts) × (1 ≤ limit) × (limit ≤ MOST_RECORDED)) }
        ensures first { IfOk result (λ made. (made.0 ≡ first_kept book opening limit) × (made.1 ≡ first_pass blank.parts)) }
    {
        let parts = blank.parts();
        if parts < 1 || limit < 1 || limit > MOST_RECORDED {
            return Err(MakeFault::BadSettings);
        }
        let Ok(window) = Window::new(alloc, limit) else {
            return Err(MakeFault::NoMemory);
        };
        let (calls, mut share) = blank.open::<L>();
        let none = share.empty();
        let kept = Kept {
            alloc,
            book,
            opening,
            window,
            total: 0,
            callers: Callers::one(),
            calls,
            none,
        };
        Ok((kept, Pass::first(share, parts)))
    }

    /// The number of calls that were made.
    pub fn total(&self) -> u64
        ensures total { result ≡ self.now.total }
        ensures few { result < 2 ^ 62 }
    {
        self.total
    }

    /// The number of calls that the window can have.
    pub fn limit(&self) -> u64
        ensures limit { result ≡ self.now.limit }
        ensures same { result ≡ L.limit }
    {
        self.window.limit
    }

    /// The window: the last calls, oldest first.
    pub fn window(&self) -> &VecDeque<Receipt>
        ensures window { result.now.items ≡ self.now.window }
        ensures kept { IsKept B.stands_for B.settings self.now }
    {
        &self.window.calls
    }

    /// The book as it was before the calls of the window.
    pub fn opening(&self) -> &B
        ensures opening { result.now ≡ self.now.opening }
        ensures settings { B.settings result.now ≡ lagging_of L.settings }
        ensures kept { IsKept B.stands_for B.settings self.now }
    {
        &self.opening
    }

    /// The book.
    pub fn book(&self) -> &B
        ensures book { result.now ≡ self.now.book }
        ensures settings { B.settings result.now ≡ L.settings }
    {
        &self.book
    }

    /// Frees some of the memory of what no reply can show any more, of one of the books, and returns whether there may be more of it. It
    /// is no call, so it takes no pass and is not recorded. Before a sweep it is called again and again, so that the sweep has little
    /// left to do.
    pub fn sweep_some(&mut self) -> bool
        ensures there { IsKeptAs B.stands_for B.settings L.settings self.old }
        ensures turn { IsTurn B.stands_for B.settings B.stored B.unswept self.old result self.new }
    {
        sweep_one(&mut self.book, &mut self.opening)
    }

    /// Does so if another turn is wanted: for both books if `whole` is set, else for the book alone until it has room. Returns whether
    /// another one is.
    pub(crate) fn turn(&mut self, whole: bool) -> bool
        ensures there { IsKeptAs B.stands_for B.settings L.settings self.old }
        ensures turn { IsTurnFor B.stands_for B.settings B.stored B.unswept whole self.old result self.new }
    {
        if whole {
            return self.sweep_some();
        }
        if self.has_room() {
            return false;
        }
        self.sweep_book()
    }

    /// Does so for the book alone.
    pub(crate) fn sweep_book(&mut self) -> bool
        ensures there { IsKeptAs B.stands_for B.settings L.settings self.old }
        ensures freed { IsFreed B.stands_for B.settings B.stored self.old self.new }
        ensures opening { self.new.opening ≡ self.old.opening }
        ensures more { result ≡ true → B.unswept self.new.book < B.unswept self.old.book }
        ensures none { result ≡ false → B.unswept self.new.book ≡ 0 }
    {
        self.book.sweep_some()
    }

    /// Whether the book stores fewer cells than it may.
    pub(crate) fn has_room(&self) -> bool
        ensures there { IsKeptAs B.stands_for B.settings L.settings self.now }
        ensures yes { result ≡ true → B.stored self.now.book < (B.settings self.now.book).cells }
        ensures no { result ≡ false → (B.settings self.now.book).cells ≤ B.stored self.now.book }
    {
        self.book.stored() < self.book.limit()
    }

    /// Takes an event, and records the call. First, if the window is full, its oldest call leaves it for the opening book. So a fault
    /// may leave the opening book one call further on.
    pub fn step(&mut self, pass: &mut Pass<L>, event: Shared<Event>) -> Result<Reply, StepFault>
        ensures step { IsCopiedStep B.stands_for B.settings B.stored self.old pass.old event result self.new pass.new }
        ensures free { IsFreeCall B.is_free self.old event → ¬ (IsErrOf result StepFault.NoMemory) }
    {
        match self.timely(event.get()) {
            Ok(()) => {}
            Err(fault) => return Err(fault),
        }
        match copies(event.get()) {
            Ok(copies) => {
                let (event, copy) = copies;
                self.take(pass, event, copy)
            }
            Err(_) => Err(StepFault::NoMemory),
        }
    }

    /// Takes an event by its copy, and records the call.
    pub(crate) fn step_by_copy(
        &mut self,
        pass: &mut Pass<L>,
        event: Event,
        copy: Event,
    ) -> Result<Reply, StepFault>
        requires { copy ≡ event }
        ensures step { IsStep B.stands_for B.settings B.stored self.old pass.old event result self.new pass.new }
        ensures free { IsFreeCall B.is_free self.old event → ¬ (IsErrOf result StepFault.NoMemory) }
        ensures own { LacksByBook B.stands_for B.settings B.stored B.is_free self.old event
            (IsErrOf result StepFault.NoMemory) self.new }
    {
        match self.timely(&event) {
            Ok(()) => self.take(pass, event, copy),
            Err(fault) => {
                drop(event);
                drop(copy);
                Err(fault)
            }
        }
    }

    /// Takes a timely event by its copy, and records the call.
    fn take(&mut self, pass: &mut Pass<L>, event: Event, copy: Event) -> Result<Reply, StepFault>
        requires timely { IsTimely self.old.total event }
        requires same { copy ≡ event }
        ensures step { IsStep B.stands_for B.settings B.stored self.old pass.old event result self.new pass.new }
        ensures free { IsFreeCall B.is_free self.old event → ¬ (IsErrOf result StepFault.NoMemory) }
        ensures own { LacksByBook B.stands_for B.settings B.stored B.is_free self.old event
            (IsErrOf result StepFault.NoMemory) self.new }
    {
        match self.make_room() {
            Ok(()) => self.append(pass, event, copy),
            Err(_) => {
                drop(event);
                drop(copy);
                Err(StepFault::NoMemory)
            }
        }
    }

    /// Makes room in the window: if it is full, its oldest call leaves it for the opening book.
    fn make_room(&mut self) -> Result<(), NoMemory>
        ensures kept { IsKept B.stands_for B.settings self.old }
        ensures moves { MovesOn B.stands_for B.settings self.old self.new }
        ensures room { OnOk result (length self.new.window < self.new.limit) }
        ensures full { OnErr result (self.new.limit ≤ length self.new.window) }
        ensures free { HasFreeRoom B.is_free self.old → IsOk result }
    {
        if !self.window.is_full() {
            return Ok(());
        }
        let event = self.window.oldest_event()?;
        take_in(&mut self.opening, event)?;
        self.window.move_on();
        Ok(())
    }

    /// Takes a timely event by its copy if the window has room, and records the call.
    fn append(&mut self, pass: &mut Pass<L>, event: Event, copy: Event) -> Result<Reply, StepFault>
        requires timely { IsTimely self.old.total event }
        requires same { copy ≡ event }
        requires room { length self.old.window < self.old.limit }
        ensures taken { IsTaken B.stands_for B.settings B.stored self.old pass.old event result self.new pass.new }
        ensures free { is_plain event ≡ true → B.is_free self.old.book event → ¬ (IsErrOf result StepFault.NoMemory) }
    {
        let told = match tell(self.alloc, &mut self.book, copy) {
            Ok(told) => told,
            Err(fault) => {
                drop(event);
                return Err(fault);
            }
        };
        let Told { reply, kept } = told;
        let number = self.total + 1;
        pass.count(&mut self.calls, number);
        self.total = number;
        self.window.push(Receipt {
            number,
            caller: pass.caller(),
            event,
            reply: kept,
        });
        Ok(reply)
    }

    /// Whether an event is timely, or else the fault of its step.
    fn timely(&self, event: &Event) -> Result<(), StepFault>
        ensures ok { OnOk result (IsTimely self.now.total event.now) }
        ensures err { IfErr result (IsIdleStep B.stands_for B.settings B.stored self.now event.now) }
        ensures untimely { IfErr result (λ fault. (fault ≡ StepFault.BadMoment) ⊎ (fault ≡ StepFault.CountEnded)) }
    {
        if event.moment() >= MOMENT_END {
            return Err(StepFault::BadMoment);
        }
        if self.total >= MOST_EVENTS as u64 {
            return Err(StepFault::CountEnded);
        }
        Ok(())
    }
}
