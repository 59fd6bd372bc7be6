//! The calls to a book under the lock, by callers with a pass.

ghost use Rattle.std.specs.Prelude.{◌≡◌, ◌+◌, ◌<◌, ◌≤◌, ◌^◌, ◌↔◌, ◌⊎◌, IfOk, IfErr, OnOk, OnErr, IsErr, IsErrOf};
ghost use Rattle.shared_book.specs.Pass.{IsSplit, IsJoined, calls_of, parts_of};
ghost use Rattle.shared_book.specs.Kept.{IsFreeCall, IsKept, IsKeptAs};
ghost use Rattle.shared_book.specs.Calling.{IsCall, IsUnsplit, LacksMemoryByBook};

use crate::fault::{CallFault, SplitFault, SplitFound};
use crate::kept::Kept;
use crate::ledger::CallLedger;
use crate::pass::Pass;
use history::{Book, Event, Reply, StepFault};
use std::sync::ledger::Share;

impl<B: Book, L: CallLedger> Kept<B, L> {
    /// A step for a pass that has seen no more calls than were made.
    pub(crate) fn call(
        &mut self,
        pass: &mut Pass<L>,
        event: Event,
        copy: Event,
    ) -> Result<Reply, CallFault>
        requires same { copy ≡ event }
        ensures there { IsKeptAs B.stands_for B.settings L.settings self.old }
        ensures call { IsCall B.stands_for B.settings B.stored self.old pass.old event result self.new pass.new }
        ensures free { IsFreeCall B.is_free self.old event → ¬ (IsErrOf result (CallFault.Step StepFault.NoMemory)) }
        ensures own { LacksMemoryByBook B.stands_for B.settings B.stored B.is_free self.old event result self.new }
    {
        if self.total < pass.seen() {
            drop(event);
            drop(copy);
            return Err(CallFault::Behind { at: self.total });
        }
        match self.step_by_copy(pass, event, copy) {
            Ok(reply) => Ok(reply),
            Err(fault) => Err(CallFault::Step(fault)),
        }
    }

    /// Half of a pass's parts, in a pass with a caller number of its own.
    pub(crate) fn split(&mut self, pass: &mut Pass<L>) -> Result<Pass<L>, SplitFault>
        ensures kept { IsKept B.stands_for B.settings self.old }
        ensures refused { IsErr result ↔ ((pass.old.parts ≡ 1) ⊎ (2 ^ 62 ≤ self.old.callers)) }
        ensures unsplit { IfErr result (IsUnsplit pass.old) }
        ensures split { IfOk result (λ new. IsSplit pass.old new pass.new) }
        ensures caller { IfOk result (λ new. new.caller ≡ self.old.callers) }
        ensures numbered { OnOk result (self.new ≡ record self.old { callers = self.old.callers + 1 }) }
        ensures err { OnErr result ((self.new ≡ self.old) × (pass.new ≡ pass.old)) }
    {
        if pass.parts() < 2 || self.callers.count() >= 1 << 62 {
            return Err(SplitFault::CountEnded(SplitFound::of(self, pass)));
        }
        Ok(pass.halve(self.callers.next()))
    }

    /// Both passes in one.
    pub(crate) fn join(&mut self, first: Pass<L>, second: Pass<L>) -> Pass<L>
        ensures joined { IsJoined L.parts first second result }
        ensures same { self.new ≡ self.old }
    {
        Pass::joined(first, second, &mut self.calls)
    }

    /// The calls that the passes count.
    pub(crate) fn gather(&mut self, passes: Vec<Pass<L>>) -> u64
        ensures same { self.new ≡ self.old }
        ensures sum { result ≡ calls_of passes.items }
        ensures within { result ≤ self.old.total }
        ensures whole { parts_of passes.items ≡ L.parts → result ≡ self.old.total }
    {
        let mut made = 0u64;
        let mut all = self.nothing();
        for pass in passes {
            let (one, share) = pass.into_share();
            all.merge(share);
            self.audit(&mut all);
            made += one;
        }
        self.audit(&mut all);
        made
    }

    /// A share of no calls.
    fn nothing(&mut self) -> Share<L>
        ensures amount { result.amount ≡ 0 }
        ensures parts { result.parts ≡ 0 }
        ensures same { self.new ≡ self.old }
    {
        self.none.empty()
    }

    /// The law that a share counts no more calls than were made, and with all the parts as many.
    fn audit(&mut self, share: &mut Share<L>)
        ensures within { share.new.amount ≤ self.old.total }
        ensures whole { share.old.parts ≡ L.parts → share.new.amount ≡ self.old.total }
        ensures few { self.old.total < 2 ^ 62 }
        ensures amount { share.new.amount ≡ share.old.amount }
        ensures parts { share.new.parts ≡ share.old.parts }
        ensures same { self.new ≡ self.old }
    {
        self.calls.audit(share);
    }
}
