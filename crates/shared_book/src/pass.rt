//! A caller's right to call.

ghost use Rattle.std.specs.Prelude.{◌≡◌, ◌+◌, ◌<◌, ◌≤◌, ◌^◌};

use std::marker::Model;
use std::sync::ledger::{Book as Calls, Ledger, Share};

/// A caller's right to call: its number, the number of the latest call that it knows of, and its share of the calls.
#[derive(Drop)]
pub struct Pass<L: Ledger> {
    caller: u64,
    seen: u64,
    made: u64,
    parts: u64,
    share: Share<L>,
}

impl<L: Ledger> Model for Pass<L> {
    ghost use Rattle.std.specs.Prelude.{◌≡◌, ◌<◌, ◌≤◌};
    ghost use Rattle.shared_book.specs.Pass.{PassState};

    ghost Value = { PassState };

    ghost view = { λ p. record { caller = p.caller; seen = p.seen; made = p.made; parts = p.parts } };

    ghost invariant = { λ p. (p.made ≡ p.share.amount) × ((p.parts ≤ p.share.parts) × (0 < p.parts)) };
}

impl<L: Ledger> Pass<L> {
    ghost use Rattle.shared_book.specs.Pass.{PassState, first_pass, after_call, IsSplit, IsJoined};

    /// The first pass of a ledger, with all its parts.
    pub(crate) fn first(share: Share<L>, parts: u64) -> Pass<L>
        requires amount { share.amount ≡ 0 }
        requires parts { parts ≡ share.parts }
        requires some { 0 < parts }
        ensures { result ≡ first_pass parts }
    {
        Pass {
            caller: 0,
            seen: 0,
            made: 0,
            parts,
            share,
        }
    }

    /// The caller's number.
    pub fn caller(&self) -> u64
        ensures { result ≡ self.now.caller }
    {
        self.caller
    }

    /// The number of the latest call that it knows of.
    pub fn seen(&self) -> u64
        ensures { result ≡ self.now.seen }
    {
        self.seen
    }

    /// The number of calls that were made with it.
    pub fn made(&self) -> u64
        ensures { result ≡ self.now.made }
    {
        self.made
    }

    /// The number of passes into which it can still be split.
    pub fn parts(&self) -> u64
        ensures parts { result ≡ self.now.parts }
        ensures some { 0 < result }
    {
        self.parts
    }

    /// Counts a call of this number.
    pub(crate) fn count(&mut self, calls: &mut Calls<L>, number: u64)
        requires { calls.old.total < 2 ^ 62 }
        ensures total { calls.new.total ≡ calls.old.total + 1 }
        ensures pass { self.new ≡ after_call self.old number }
    {
        calls.audit(&mut self.share);
        calls.add(&mut self.share, 1);
        self.made += 1;
        self.seen = number;
    }

    /// Half of the parts, with a caller number of its own.
    pub(crate) fn halve(&mut self, caller: u64) -> Pass<L>
        requires { 2 ≤ self.old.parts }
        ensures split { IsSplit self.old result self.new }
        ensures caller { result.caller ≡ caller }
    {
        let half = self.parts / 2;
        let share = self.share.split_off(half, 0);
        self.parts -= half;
        Pass {
            caller,
            seen: self.seen,
            made: 0,
            parts: half,
            share,
        }
    }

    /// Both passes in one, under the number of the first.
    pub(crate) fn joined(first: Pass<L>, second: Pass<L>, calls: &mut Calls<L>) -> Pass<L>
        requires { calls.old.total < 2 ^ 62 }
        ensures joined { IsJoined L.parts first second result }
        ensures same { calls.new.total ≡ calls.old.total }
    {
        let Pass {
            caller,
            seen,
            made,
            parts,
            mut share,
        } = first;
        let Pass {
            caller: _,
            seen: also,
            made: more,
            parts: others,
            share: other,
        } = second;
        share.merge(other);
        calls.audit(&mut share);
        Pass {
            caller,
            seen: seen.max(also),
            made: made + more,
            parts: parts.saturating_add(others),
            share,
        }
    }

    /// The calls that were made with it, and its share of them.
    pub(crate) fn into_share(self) -> (u64, Share<L>)
        ensures made { result.0 ≡ self.made }
        ensures amount { result.1.amount ≡ self.made }
        ensures parts { self.parts ≤ result.1.parts }
    {
        let Pass {
            caller: _,
            seen: _,
            made,
            parts: _,
            share,
        } = self;
        (made, share)
    }
}
