//! The tree of winners: each position has a moment at which it ends, and each node the least of those at or below it.

ghost use Rattle.std.specs.Prelude.{◌≡◌, ◌<◌, ◌≤◌, ℕ, slice_index_or, ◌+◌, ◌-◌, ◌*◌, ◌++◌, ◌∷◌, [], min, length, replicate, take, slice_set, swap_remove};
ghost use Rattle.std.specs.Prelude.{IfSome, IfNone, IsOk, OnOk, OnErr, if◌then◌else◌};
ghost use Rattle.winner_tree.specs.Tree.{moment_at, AreRightBut, IsTree};

use std::alloc::{AllocError, Global};
use std::marker::Model;

// The moment of a position that is not there.
const NEVER: u64 = u64::MAX;

/// The moments, in seconds, at which dense positions end. It finds one that has ended in steps as many as the number of positions has binary digits.
#[derive(Drop)]
pub struct WinnerTree {
    ends: Vec<u64>,
    // The children of position i are 2 i + 1 and 2 i + 2. Each node has the least end at or below it.
    least: Vec<u64>,
}

impl Model for WinnerTree {
    ghost use Rattle.std.specs.Prelude.{List, ℕ};
    ghost use Rattle.winner_tree.specs.Tree.{IsTree};

    ghost Value = { List ℕ };

    ghost view = { λ t. t.ends.items };

    ghost invariant = { λ t. IsTree t.ends.items t.least.items };
}

// The moment at a position, or the latest one if it is not there.
fn moment_at(moments: &[u64], place: usize) -> u64
    ensures { result ≡ moment_at moments.now place }
{
    if place < moments.len() {
        moments[place]
    } else {
        NEVER
    }
}

// The least moment of a node, by its position and its children.
fn least_of(ends: &[u64], least: &[u64], place: usize) -> u64
    requires { place < length ends.now }
    ensures { result ≡ min (moment_at ends.now place)
        (min (moment_at least.now (2 * place + 1)) (moment_at least.now (2 * place + 2))) }
{
    let left = moment_at(least, 2 * place + 1);
    let right = moment_at(least, 2 * place + 2);
    moment_at(ends, place).min(left.min(right))
}

impl WinnerTree {
    ghost use Rattle.winner_tree.specs.Tree.{AreLater, HasEnded, IsBound};

    /// No positions.
    pub fn new(alloc: Global) -> WinnerTree
        ensures { result ≡ [] }
    {
        WinnerTree {
            ends: Vec::new(alloc),
            least: Vec::new(alloc),
        }
    }

    /// The number of positions.
    pub fn len(&self) -> usize
        ensures { result ≡ length self.now }
    {
        self.ends.len()
    }

    /// A position that has ended at a moment, or `None` if every position ends later.
    pub fn first_ended(&self, moment: u64) -> Option<usize>
        ensures some { IfSome result (HasEnded self.now moment) }
        ensures none { IfNone result (AreLater self.now moment) }
    {
        if self.ends.is_empty() {
            return None;
        }
        if moment < self.least[0] {
            return None;
        }
        let mut place = 0;
        while moment < self.ends[place] {
            let left = 2 * place + 1;
            place = if moment_at(&self.least, left) <= moment {
                left
            } else {
                left + 1
            };
        }
        Some(place)
    }

    /// A moment before which no position at or below a node ends: the least of theirs, or the latest moment if there is none.
    /// The nodes are the positions. The children of position i are 2 i + 1 and 2 i + 2.
    pub fn least(&self, node: usize) -> u64
        ensures { IsBound self.now node result }
    {
        moment_at(&self.least, node)
    }

    /// The moment at which a position ends.
    pub fn end(&self, place: usize) -> u64
        requires { place < length self.now }
        ensures { (d : ℕ) → result ≡ slice_index_or self.now place d }
    {
        self.ends[place]
    }

    /// Gives a position another end. It takes no memory.
    pub fn set(&mut self, place: usize, end: u64)
        requires { place < length self.old }
        ensures { self.new ≡ slice_set self.old place end }
    {
        self.ends[place] = end;
        mend(&self.ends, &mut self.least, place);
    }

    /// Adds a position after the others. On an error nothing changes.
    pub fn push(&mut self, end: u64) -> Result<(), AllocError>
        ensures ok { OnOk result (self.new ≡ self.old ++ end ∷ []) }
        ensures err { OnErr result (self.new ≡ self.old) }
    {
        self.ends.reserve(1)?;
        self.least.reserve(1)?;
        self.ends.push_reserved(end);
        self.least.push_reserved(NEVER);
        let place = self.ends.len() - 1;
        mend(&self.ends, &mut self.least, place);
        Ok(())
    }

    /// Removes the last position. It takes no memory.
    pub fn pop(&mut self)
        requires { 0 < length self.old }
        ensures { self.new ≡ take (length self.old - 1) self.old }
    {
        let last = self.ends.len() - 1;
        self.set(last, NEVER);
        self.ends.truncate(last);
        self.least.truncate(last);
    }

    /// Removes a position: the last one moves into the gap. It takes no memory.
    pub fn swap_remove(&mut self, place: usize)
        requires { place < length self.old }
        ensures { self.new ≡ swap_remove self.old place 0 }
    {
        let last = self.ends.len() - 1;
        let end = self.ends[last];
        self.set(place, end);
        self.pop();
    }

    /// Ends every position at moment 0. It takes no memory.
    pub fn end_all(&mut self)
        ensures { self.new ≡ replicate (length self.old) 0 }
    {
        self.ends.fill(0);
        self.least.fill(0);
    }
}

// Mends the nodes from a position up to the root, if each other node is right.
// It stops at a node whose least moment has not changed: then the nodes above are right too.
fn mend(ends: &[u64], least: &mut Vec<u64>, place: usize)
    requires size { length least.old.items ≡ length ends.now }
    requires low { place < length ends.now }
    requires others { AreRightBut place ends.now least.old.items }
    ensures { IsTree ends.now least.new.items }
{
    let mut node = place + 1;
    while node > 0 {
        let end = least_of(ends, least, node - 1);
        if least[node - 1] == end {
            return;
        }
        least[node - 1] = end;
        node /= 2;
    }
}
