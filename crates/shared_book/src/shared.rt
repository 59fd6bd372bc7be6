//! One lock around a book and the window of its last calls.

ghost use Rattle.std.specs.Prelude.{◌≡◌, ◌≤◌, ◌↔◌, true, false, Some, None, IfOk, IfErr, IfNone, IfSome, OnErr, IsErr, IsErrOf, MatchResult};
ghost use Rattle.shared_book.specs.Fresh.{CanShare, IsKnownAs};
ghost use Rattle.shared_book.specs.declared.kept.TheConstants.{MOST_RECORDED};
ghost use Rattle.shared_book.specs.Pass.{first_pass, IsSplit, IsJoined};
ghost use Rattle.shared_book.specs.Calling.{IsReceiptOf, IsJustified, IsCallReply, IsFaultOf, IsLocked, IsLockedIfSome, IsShared, IsUnsplit, answer_of, asks_oldest, is_oldest};
ghost use Rattle.shared_book.specs.Closing.{IsClosed};
ghost use Rattle.shared_book.specs.Kept.{IsKept, IsTurnThere, IsTurnForThere, IsSweepThere};

use crate::close::NotClosed;
use crate::copies::three_copies;
use crate::fault::{CallFault, SplitFault};
use crate::kept::Kept;
use crate::ledger::{Blank, CallLedger};
use crate::lock::{Lock, LockHold};
use crate::pass::Pass;
use crate::receipt::Receipt;
use dns_text::Shared;
use history::{Ask, Book, Event, Hidden, MakeFault, Reply, StepFault};
use std::alloc::Global;
use std::sync::Wait;
use std::thread::yield_now;

/// The turns that a caller takes at most, each of which visits 256 names at most. So a book of a million names is swept by them, even if
/// each name changes meanwhile.
pub(crate) const MOST_TURNS: u32 = 16_384;

/// How often the processor is yielded between two turns of a whole sweep. Whoever waits for the lock needs some time to wake, and gets it
/// then, since the next turn does not take it at once.
const YIELDS: u32 = 64;

/// Whether it is asked for the name to forget first.
fn is_oldest(ask: &Ask) -> bool
    ensures { result ≡ is_oldest ask.now }
{
    matches!(ask, Ask::Oldest)
}

/// Whether an event asks for the name to forget first.
pub(crate) fn asks_oldest(event: &Event) -> bool
    ensures { result ≡ asks_oldest event.now }
{
    match event {
        Event::Look { ask, .. } => is_oldest(ask),
        _ => false,
    }
}

/// Lets others run, so that whoever was woken has the lock before the next turn.
fn let_others() {
    for _ in 0..YIELDS {
        yield_now();
    }
}

/// A book that many callers share, each with a pass.
#[derive(Drop)]
pub struct SharedBook<B: Book, L: CallLedger> {
    kept: Lock<B, L>,
}

impl<B: Book, L: CallLedger> SharedBook<B, L> {
    /// Two books that have taken no event, of which the opening book lags behind, an empty window for so many calls, and the first
    /// pass.
    pub fn new(
        alloc: Global,
        blank: Blank,
        book: B,
        opening: B,
        limit: u64,
    ) -> Result<(SharedBook<B, L>, Pass<L>), MakeFault>
        requires known { IsKnownAs L.name L.parts L.limit L.settings blank limit (B.settings book) }
        requires books { CanShare B.stands_for B.settings book opening }
        ensures refused { IsErrOf result MakeFault.BadSettings ↔ ¬ ((1 ≤ blank.parts) × (1 ≤ limit) × (limit ≤ MOST_RECORDED)) }
        ensures pass { IfOk result (λ made. made.1 ≡ first_pass blank.parts) }
    {
        match Kept::new(alloc, blank, book, opening, limit) {
            Ok((kept, pass)) => Ok((
                SharedBook {
                    kept: Lock::new(kept),
                },
                pass,
            )),
            Err(fault) => Err(fault),
        }
    }

    /// Half of a pass's parts, in a pass with a caller number of its own, which has seen as much.
    pub fn split<R: Wait>(&self, rt: &R, pass: &mut Pass<L>) -> Result<Pass<L>, SplitFault>
        ensures split { IfOk result (λ new. IsSplit pass.old new pass.new) }
        ensures err { OnErr result (pass.new ≡ pass.old) }
        ensures one_part { pass.old.parts ≡ 1 → IsErr result }
        ensures unsplit { IfErr result (IsUnsplit pass.old) }
    {
        self.kept.hold(rt).split(pass)
    }

    /// Both passes in one, under the number of the first. It has seen what either had.
    pub fn join<R: Wait>(&self, rt: &R, first: Pass<L>, second: Pass<L>) -> Pass<L>
        ensures { IsJoined L.parts first second result }
    {
        self.kept.hold(rt).join(first, second)
    }

    /// Takes an event, and returns a receipt for the call. A sweep frees only some of what it may, so that it holds the lock briefly:
    /// `sweep_some` frees the rest.
    pub fn call<R: Wait>(
        &self,
        rt: &R,
        pass: &mut Pass<L>,
        event: Shared<Event>,
    ) -> Result<Receipt, CallFault>
        ensures receipt { IfOk result (λ r. IsReceiptOf pass.old event r pass.new) }
        ensures justified { IfOk result (λ r. IsJustified L.settings r.number event r.reply) }
        ensures err { IfErr result (λ fault. IsFaultOf L.settings pass.old event fault pass.new) }
        ensures shared { IsShared B.stands_for B.settings B.stored B.is_free L.settings pass.old event (answer_of result) pass.new }
    {
        let (own, kept, copy) = match three_copies(event.get()) {
            Ok(copies) => copies,
            Err(_) => return Err(CallFault::Step(StepFault::NoMemory)),
        };
        match self.step(rt, pass, kept, copy) {
            Ok(reply) => Ok(Receipt {
                number: pass.seen(),
                caller: pass.caller(),
                event: own,
                reply,
            }),
            Err(fault) => {
                drop(own);
                Err(fault)
            }
        }
    }

    /// Frees some of the memory of what no reply can show any more, and returns whether there may be more of it. A service calls it
    /// again and again before a sweep, and each time holds the lock briefly. So no lookup waits long for the lock.
    pub fn sweep_some<R: Wait>(&self, rt: &R) -> bool
        ensures { IsTurnThere B.stands_for B.settings B.stored B.unswept L.settings result }
    {
        self.kept.hold(rt).sweep_some()
    }

    /// Counts of how many cached names the flush of a ticket hides a cell, some names from a place on, and holds the lock briefly. It is no
    /// call, and no clause says what is counted.
    pub fn hidden_some<R: Wait>(&self, rt: &R, ticket: u64, from: u64, moment: u64) -> Hidden {
        self.kept.hold(rt).hidden_some(ticket, from, moment)
    }

    /// Frees what a sweep may, a turn at a time, and others get the lock between two turns. It ends as soon as the book has room, or, if
    /// `whole` is set, when nothing is left in both books. It also ends after `most` turns.
    pub(crate) fn free<R: Wait>(&self, rt: &R, whole: bool, most: u32)
        ensures { IsSweepThere B.stands_for B.settings B.stored B.unswept L.settings whole most }
    {
        for _taken in 0..most {
            if !self.kept.hold(rt).turn(whole) {
                return;
            }
            if whole {
                let_others();
            }
        }
    }

    /// Takes an event by its copy, and gives no receipt. Only this is done under the lock.
    pub(crate) fn step<R: Wait>(
        &self,
        rt: &R,
        pass: &mut Pass<L>,
        event: Event,
        copy: Event,
    ) -> Result<Reply, CallFault>
        requires same { copy ≡ event }
        ensures ok { IfOk result (λ reply. IsCallReply L.settings pass.old event reply pass.new) }
        ensures err { IfErr result (λ fault. IsFaultOf L.settings pass.old event fault pass.new) }
        ensures locked { IsLocked B.stands_for B.settings B.stored B.is_free L.settings pass.old event result pass.new }
    {
        if asks_oldest(&event) {
            return self.hold_swept(rt).call(pass, event, copy);
        }
        self.kept.hold(rt).call(pass, event, copy)
    }

    /// Takes a look for the name to forget first in the same way, but only behind one turn of a sweep. If that left something, it returns
    /// None, and nothing but the turn has happened.
    pub(crate) fn look_soon<R: Wait>(
        &self,
        rt: &R,
        pass: &mut Pass<L>,
        event: Event,
        copy: Event,
    ) -> Option<Result<Reply, CallFault>>
        requires same { copy ≡ event }
        ensures ok { IfSome result (λ answer. IfOk answer (λ reply. IsCallReply L.settings pass.old event reply pass.new)) }
        ensures err { IfSome result (λ answer. IfErr answer (λ fault. IsFaultOf L.settings pass.old event fault pass.new)) }
        ensures locked { IsLockedIfSome B.stands_for B.settings B.stored B.is_free L.settings pass.old event result pass.new }
        ensures turn { IfNone result (IsTurnForThere B.stands_for B.settings B.stored B.unswept L.settings false true) }
        ensures same_pass { IfNone result (pass.new ≡ pass.old) }
    {
        match self.kept.hold(rt).swept() {
            Some(held) => Some(held.call(pass, event, copy)),
            None => {
                drop(event);
                drop(copy);
                None
            }
        }
    }

    /// Holds the lock right after a turn that left nothing of the book to sweep. For the name to forget first is then one path of a tree
    /// away, and before it may be as far as all names. It takes as many turns as that needs: behind 256 permanent flushes a million for a
    /// million names.
    fn hold_swept<R: Wait>(&self, rt: &R) -> LockHold<'_, B, L> {
        for _ in 0..u32::MAX {
            match self.kept.hold(rt).swept() {
                Some(held) => return held,
                None => yield_now(),
            }
        }
        self.kept.hold(rt)
    }

    /// Whether the receipts, in order of number, are those of the window's calls. Receipts of earlier calls are passed over. An earlier
    /// fault of `CloseFault` hides a later one; each hands back what lay under the lock.
    pub fn close(
        self,
        passes: Vec<Pass<L>>,
        receipts: Vec<Receipt>,
    ) -> Result<Kept<B, L>, NotClosed<B, L>>
        ensures ok { IfOk result (λ kept. IsClosed L.parts kept passes.items receipts.items None) }
        ensures err { IfErr result (λ not_closed. IsClosed L.parts not_closed.kept passes.items receipts.items (Some not_closed.fault)) }
        ensures limit { MatchResult result (λ kept. kept.limit ≡ L.limit) (λ not_closed. not_closed.kept.limit ≡ L.limit) }
        ensures kept { IfOk result (λ kept. IsKept B.stands_for B.settings kept) }
    {
        let SharedBook { kept, .. } = self;
        kept.into_kept().close(passes, receipts)
    }
}
