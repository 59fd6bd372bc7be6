//! The lock around a book and the window of its last calls.

ghost use Rattle.std.specs.Prelude.{◌≡◌, ◌⊎◌, true, false, IfOk, IfErr, IfNone, OnErr, IsErr};
ghost use Rattle.shared_book.specs.Pass.{IsSplit, IsJoined};
ghost use Rattle.shared_book.specs.Calling.{IsCallReply, IsFaultOf, IsLocked, IsUnsplit};
ghost use Rattle.shared_book.specs.Kept.{IsTurnForThere, IsTurnThere};

use crate::fault::{CallFault, SplitFault};
use crate::kept::Kept;
use crate::ledger::CallLedger;
use crate::pass::Pass;
use history::{Book, Event, Hidden, Reply};
use std::sync::{Mutex, MutexGuard, Wait};

/// What lies under the lock. Only this module reaches it without a `LockHold`.
#[derive(Drop)]
pub(crate) struct Lock<B: Book, L: CallLedger> {
    kept: Mutex<Kept<B, L>>,
}

impl<B: Book, L: CallLedger> Lock<B, L> {
    pub fn new(kept: Kept<B, L>) -> Lock<B, L> {
        Lock {
            kept: Mutex::new(kept),
        }
    }

    /// Waits for the lock.
    pub fn hold<R: Wait>(&self, rt: &R) -> LockHold<'_, B, L> {
        LockHold {
            kept: self.kept.lock(rt),
        }
    }

    /// What lay under it.
    pub fn into_kept(self) -> Kept<B, L> {
        let Lock { kept, .. } = self;
        kept.into_inner()
    }
}

/// One hold of the lock. Each use of it consumes it, so whoever takes a second turn of a sweep lets others have the lock before.
#[derive(Drop)]
pub(crate) struct LockHold<'a, B: Book, L: CallLedger> {
    kept: MutexGuard<'a, Kept<B, L>>,
}

impl<'a, B: Book, L: CallLedger> LockHold<'a, B, L> {
    /// Half of a pass's parts, in a pass with a caller number of its own, which has seen as much.
    pub fn split(self, pass: &mut Pass<L>) -> Result<Pass<L>, SplitFault>
        ensures split { IfOk result (λ new. IsSplit pass.old new pass.new) }
        ensures err { OnErr result (pass.new ≡ pass.old) }
        ensures one_part { pass.old.parts ≡ 1 → IsErr result }
        ensures unsplit { IfErr result (IsUnsplit pass.old) }
    {
        let LockHold { mut kept } = self;
        kept.split(pass)
    }

    /// Both passes in one.
    pub fn join(self, first: Pass<L>, second: Pass<L>) -> Pass<L>
        ensures { IsJoined L.parts first second result }
    {
        let LockHold { mut kept } = self;
        kept.join(first, second)
    }

    /// Takes an event by its copy.
    pub fn call(self, pass: &mut Pass<L>, event: Event, copy: Event) -> Result<Reply, CallFault>
        requires same { copy ≡ event }
        ensures ok { IfOk result (λ reply. IsCallReply L.settings pass.old event reply pass.new) }
        ensures err { IfErr result (λ fault. IsFaultOf L.settings pass.old event fault pass.new) }
        ensures locked { IsLocked B.stands_for B.settings B.stored B.is_free L.settings pass.old event result pass.new }
    {
        let LockHold { mut kept } = self;
        kept.call(pass, event, copy)
    }

    /// A turn of a sweep of both books. Returns whether there may be more.
    pub fn sweep_some(self) -> bool
        ensures { IsTurnThere B.stands_for B.settings B.stored B.unswept L.settings result }
    {
        let LockHold { mut kept } = self;
        kept.sweep_some()
    }

    /// Counts of how many cached names a flush hides a cell, some names from a place on.
    pub fn hidden_some(self, ticket: u64, from: u64, moment: u64) -> Hidden {
        self.kept.book().hidden_some(ticket, from, moment)
    }

    /// A turn of a sweep if one is wanted: of both books if `whole` is set, else of the book until it has room.
    pub fn turn(self, whole: bool) -> bool
        ensures { IsTurnForThere B.stands_for B.settings B.stored B.unswept L.settings whole result }
    {
        let LockHold { mut kept } = self;
        kept.turn(whole)
    }

    /// A turn of a sweep of the book. If it left nothing, the lock stays held.
    pub fn swept(self) -> Option<LockHold<'a, B, L>>
        ensures { IfNone result (IsTurnForThere B.stands_for B.settings B.stored B.unswept L.settings false true) }
    {
        let LockHold { mut kept } = self;
        if kept.sweep_book() {
            return None;
        }
        Some(LockHold { kept })
    }
}
