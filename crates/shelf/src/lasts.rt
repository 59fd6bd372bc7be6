//! For each name the second in which its last find ended when a sweep last visited it, and the name that comes first by these seconds.

ghost use Rattle.std.specs.Prelude.{◌≡◌, ◌⊎◌, ◌<◌, ◌≤◌, ◌+◌, ◌*◌, [], ℕ, true, false, length, slice_set, swap_remove, IfSome, OnOk};
ghost use Rattle.dns_name.specs.Order.{IsNotAfter};
ghost use Rattle.shelf.specs.First.{name_at};
ghost use Rattle.shelf.specs.Clean.{dropped};
ghost use Rattle.shelf.specs.Lasts.{last_at, winner_at, AreLetGo, AreMendedFrom, AreMendedOnceGone, AreMoved};
ghost use Rattle.shelf.specs.Lasts.{AreSameLasts, AreWinners, AreWithin, FollowGone, FollowNames, FollowRemoved, HaveCome, HaveRoom, IsShaped};
ghost use Rattle.shelf.specs.Lasts.{IsFirstOf, IsNodeOrWinner, IsWinner, IsWinnerAgain, Leads};

use cell_store::Owners;
use dns_name::Name;
use std::alloc::{AllocError, Global};

/// For each place of the index the second in which the last find of its name ended when a sweep last visited it, and the place that comes
/// first by these seconds. A change takes steps as many as the number of places has binary digits.
#[derive(Drop)]
pub struct Lasts {
    pub ends: Vec<u64>,
    /// The children of place i are 2 i + 1 and 2 i + 2. For each place, the first of the places at or below it. Of places that end in the
    /// same second the first is that whose name comes first.
    pub winners: Vec<usize>,
}

// The second of a place, or 0 if it is not there.
pub(crate) fn last_at(lasts: &[u64], place: usize) -> u64
    ensures { result ≡ last_at lasts.now place }
{
    if place < lasts.len() { lasts[place] } else { 0 }
}

// Whether a name does not come after another.
pub(crate) fn is_not_after(name: &Name, other: &Name) -> bool
    ensures yes { result ≡ true → IsNotAfter name.now other.now }
    ensures no { result ≡ false → IsNotAfter other.now name.now }
{
    name.cmp(other).is_le()
}

// Whether the name at a place does not come after that at another.
fn is_named_first(owners: &Owners, a: usize, b: usize) -> bool
    ensures yes { result ≡ true → IsNotAfter (name_at owners.now.entries a) (name_at owners.now.entries b) }
    ensures no { result ≡ false → IsNotAfter (name_at owners.now.entries b) (name_at owners.now.entries a) }
{
    let name = match owners.get_index(a) {
        Some((name, _)) => name,
        None => return true,
    };
    match owners.get_index(b) {
        Some((other, _)) => is_not_after(name, other),
        None => false,
    }
}

// Whether a place does not come after another.
fn leads(owners: &Owners, lasts: &[u64], a: usize, b: usize) -> bool
    ensures yes { result ≡ true → Leads owners.now.entries lasts.now a b }
    ensures no { result ≡ false → Leads owners.now.entries lasts.now b a }
{
    let end = last_at(lasts, a);
    let other = last_at(lasts, b);
    if end == other {
        is_named_first(owners, a, b)
    } else {
        end < other
    }
}

// One of a place and the first at or below a child, which does not come after the other.
fn first_of(owners: &Owners, lasts: &[u64], winners: &[usize], place: usize, child: usize) -> usize
    ensures { IsFirstOf owners.now.entries lasts.now winners.now place child result }
{
    if child >= winners.len() {
        return place;
    }
    let winner = winners[child];
    if leads(owners, lasts, winner, place) {
        winner
    } else {
        place
    }
}

// The first of the places at or below a node, by those of its children.
fn winner(owners: &Owners, lasts: &[u64], winners: &[usize], node: usize) -> usize
    requires { node < length winners.now }
    ensures right { IsWinner owners.now.entries lasts.now winners.now node result }
    ensures one { IsNodeOrWinner winners.now node result }
{
    let first = first_of(owners, lasts, winners, node, 2 * node + 1);
    first_of(owners, lasts, winners, first, 2 * node + 2)
}

// The first of the places at or below a node, once one of them has changed: the one before, unless that has changed or comes after it.
// `first` is the first at or below the child on the way to the changed place, or that place itself at its own node. If it is another one,
// the changed place does not come first here either, and no names are compared.
fn winner_again(
    owners: &Owners,
    lasts: &[u64],
    winners: &[usize],
    node: usize,
    changed: usize,
    first: usize,
) -> usize
    requires low { node < length winners.now }
    ensures one { IsNodeOrWinner winners.now node result ⊎ ((result ≡ changed) ⊎ (result ≡ winner_at winners.now node)) }
    ensures right { IsWinnerAgain owners.now.entries lasts.now winners.now node changed first result }
{
    let was = winners[node];
    if was == changed {
        winner(owners, lasts, winners, node)
    } else if first != changed || leads(owners, lasts, was, changed) {
        was
    } else {
        changed
    }
}

// Mends the nodes from a changed place up to the root. It compares the names of two places at a node, and no more once another place comes
// before the changed one, except at nodes whose winner the changed place was.
fn mend(owners: &Owners, lasts: &[u64], winners: &mut Vec<usize>, place: usize)
    requires low { place < length winners.old.items }
    requires within { AreWithin winners.old.items }
    ensures size { length winners.new.items ≡ length winners.old.items }
    ensures within { AreWithin winners.new.items }
    ensures right { AreMendedFrom place owners.now.entries lasts.now winners.old.items winners.new.items }
{
    let mut first = place;
    let mut node = place + 1;
    while node > 0 {
        first = winner_again(owners, lasts, winners, node - 1, place, first);
        winners[node - 1] = first;
        node /= 2;
    }
}

// Makes a place the winner of each node at or above it whose winner was the last place, which has gone: its name and second are at the
// place now, so that this needs no comparison.
fn move_into(winners: &mut Vec<usize>, place: usize)
    requires low { place < length winners.old.items }
    requires within { AreWithin winners.old.items }
    ensures size { length winners.new.items ≡ length winners.old.items }
    ensures within { AreWithin winners.new.items }
    ensures moved { AreMoved place winners.old.items winners.new.items }
{
    let last = winners.len();
    let mut node = place + 1;
    while node > 0 {
        if winners[node - 1] == last {
            winners[node - 1] = place;
        }
        node /= 2;
    }
}

// Gives another winner to each node whose winner was the last place, which has gone.
fn let_go(owners: &Owners, lasts: &[u64], winners: &mut Vec<usize>)
    requires within { AreWithin winners.old.items }
    ensures size { length winners.new.items ≡ length winners.old.items }
    ensures within { AreWithin winners.new.items }
    ensures come { HaveCome winners.old.items winners.new.items }
    ensures right { AreLetGo owners.now.entries lasts.now winners.old.items winners.new.items }
{
    let last = winners.len();
    let mut node = (last + 1) / 2;
    while node > 0 {
        if winners[node - 1] == last {
            winners[node - 1] = winner(owners, lasts, winners, node - 1);
        }
        node /= 2;
    }
}

impl Lasts {
    // No places.
    pub(crate) fn new(alloc: Global) -> Lasts
        ensures { AreWinners [] result }
    {
        Lasts {
            ends: Vec::new(alloc),
            winners: Vec::new(alloc),
        }
    }

    // Makes room for a place.
    pub(crate) fn reserve(&mut self) -> Result<(), AllocError>
        ensures same { AreSameLasts self.old self.new }
        ensures room { OnOk result (HaveRoom self.new) }
    {
        self.ends.reserve(1)?;
        self.winners.reserve(1)
    }

    // Adds the last name of the index, if it is new. It takes no memory.
    pub(crate) fn follow(&mut self, owners: &Owners)
        requires shape { IsShaped self.old }
        requires room { length self.old.ends.items < length owners.now.entries → HaveRoom self.old }
        ensures ends { (i : ℕ) → last_at self.new.ends.items i ≡ last_at self.old.ends.items i }
        ensures winners { FollowNames owners.now.entries self.old self.new }
    {
        let place = self.ends.len();
        if place < owners.len() {
            self.ends.push_reserved(0);
            self.winners.push_reserved(place);
            mend(owners, &self.ends, &mut self.winners, place);
        }
    }

    // Gives a place another second. It takes no memory.
    pub(crate) fn set(&mut self, owners: &Owners, place: usize, end: u64)
        requires shape { IsShaped self.old }
        requires low { place < length self.old.ends.items }
        ensures ends { self.new.ends.items ≡ slice_set self.old.ends.items place end }
        ensures winners { AreWinners owners.now.entries self.old → AreWinners owners.now.entries self.new }
    {
        self.ends[place] = end;
        mend(owners, &self.ends, &mut self.winners, place);
    }

    // Removes a place, as the index has done: the last one moves into the gap. It takes no memory.
    pub(crate) fn swap_remove(&mut self, owners: &Owners, place: usize)
        requires shape { IsShaped self.old }
        requires low { place < length self.old.ends.items }
        ensures ends { self.new.ends.items ≡ swap_remove self.old.ends.items place 0 }
        ensures winners { FollowRemoved place owners.now.entries self.old self.new }
        ensures shape { IsShaped self.new }
    {
        let last = self.ends.len() - 1;
        self.ends[place] = self.ends[last];
        self.ends.truncate(last);
        self.winners.truncate(last);
        mend_gap(owners, &self.ends, &mut self.winners, place);
    }

    // Removes the place of a name that has gone from the index, if it was there. It takes no memory.
    pub(crate) fn remove(&mut self, owners: &Owners, place: Option<usize>)
        requires shape { IsShaped self.old }
        requires low { IfSome place (λ p. p < length self.old.ends.items) }
        ensures ends { self.new.ends.items ≡ dropped place self.old.ends.items }
        ensures winners { FollowGone place owners.now.entries self.old self.new }
    {
        if let Some(place) = place {
            self.swap_remove(owners, place);
        }
    }

    // The first place.
    pub(crate) fn first(&self) -> Option<usize>
        ensures { IfSome result (λ place. (0 < length self.now.winners.items) × (place ≡ winner_at self.now.winners.items 0)) }
    {
        if self.winners.is_empty() {
            None
        } else {
            Some(self.winners[0])
        }
    }
}

// Mends the nodes above the last place, which has gone, and above the place that it has moved into.
fn mend_gap(owners: &Owners, lasts: &[u64], winners: &mut Vec<usize>, place: usize)
    requires low { place ≤ length winners.old.items }
    requires within { AreWithin winners.old.items }
    ensures size { length winners.new.items ≡ length winners.old.items }
    ensures within { AreWithin winners.new.items }
    ensures right { AreMendedOnceGone place owners.now.entries lasts.now winners.old.items winners.new.items }
{
    if place == winners.len() {
        let_go(owners, lasts, winners);
        return;
    }
    move_into(winners, place);
    let_go(owners, lasts, winners);
    mend(owners, lasts, winners, place);
}
