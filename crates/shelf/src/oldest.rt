//! The name to forget first when the cache is full.

ghost use Rattle.std.specs.Prelude.{◌≡◌, ◌⊎◌, ◌<◌, ◌≤◌, ◌+◌, ◌-◌, ◌*◌, ◌^◌, [], Some, None, true, false, min, IfSome, IfNone};
ghost use Rattle.cell_store.specs.Ends.{latest};
ghost use Rattle.cell_store.specs.Life.{life_end};
ghost use Rattle.cell_store.specs.Owner.{whole_held};
ghost use Rattle.winner_tree.specs.Tree.{IsBelow};
ghost use Rattle.ranked.specs.Oldest.{IsSooner};
ghost use Rattle.shelf.specs.First.{cell_at_name, kind_life, life_at, name_life, AreBounds, IsAhead, IsCandidate, IsEnough, IsFirst, IsSoonerOf};
ghost use Rattle.shelf.specs.Lasts.{AreVisited, IsNoted};
ghost use Rattle.shelf.specs.Clean.{AreEnds};
ghost use Rattle.shelf.specs.Told.{IsShelf};

use crate::ends::Ends;
use crate::lasts::{Lasts, is_not_after, last_at};
use crate::settling::{Settling, none_left, settled_version};
use crate::shelf::{KeptFlush, Shelf};
use cell_store::{OwnerCells, Owners};
use dns_name::Name;
use winner_tree::WinnerTree;

/// A name that has a find alive at a moment.
#[derive(Clone, Copy)]
pub(crate) struct Candidate<'a> {
    /// Its place in the index.
    pub place: usize,
    /// The second in which its last find ends.
    pub end: u128,
    pub name: &'a Name,
}

// The second in which the last find of a type ends, over its versions: version 0, and those of the kept flushes that cover it.
fn kind_life(
    name: &Name,
    cells: &OwnerCells,
    kind: u16,
    settlings: &[Settling],
    kept: &[KeptFlush],
) -> u128
    ensures { result ≡
        kind_life kept.now (cell_at_name settlings.now name.now cells.now kind) (record { owner = name.now; kind = kind }) }
{
    let mut end = cells.life_end(kind, settled_version(settlings, name, 0));
    for own in kept {
        if own.flush.covers(name, kind) {
            let version = settled_version(settlings, name, own.number);
            end = end.max(cells.life_end(kind, version));
        }
    }
    end
}

// The second in which the find of the whole name ends, if a version has it.
fn whole_life(cells: &OwnerCells, version: u64) -> u128
    ensures { result ≡ life_end (whole_held cells.now.whole version) }
{
    match &cells.whole {
        Some(whole) => {
            if whole.upto < version {
                0
            } else {
                cells.whole_life_end()
            }
        }
        None => 0,
    }
}

// The second in which the last find of a name ends.
fn name_life(name: &Name, cells: &OwnerCells, settlings: &[Settling], kept: &[KeptFlush]) -> u128
    ensures { result ≡ name_life settlings.now kept.now name.now cells.now }
{
    let mut end = whole_life(cells, settled_version(settlings, name, 0));
    for own in &cells.kinds {
        end = end.max(kind_life(name, cells, own.kind, settlings, kept));
    }
    end
}

// The same while no permanent flush reaches names. If the versions of the name are alike, it does not matter which flushes cover it.
fn last_life(name: &Name, cells: &OwnerCells, kept: &[KeptFlush]) -> u128
    ensures { result ≡ name_life [] kept.now name.now cells.now }
{
    if cells.is_mixed() {
        return name_life(name, cells, &[], kept);
    }
    name_life(name, cells, &[], &[])
}

// The second in which the last find of the name at a place ends, or the latest one that a sweep can note. It is 0 if there is no name.
pub(crate) fn last_end(owners: &Owners, kept: &[KeptFlush], place: usize) -> u64
    ensures { result ≡ min (life_at [] kept.now owners.now.entries place) latest }
{
    match owners.get_index(place) {
        Some((name, cells)) => noted(last_life(name, cells, kept)),
        None => 0,
    }
}

// A second, or the latest one that a sweep can note.
fn noted(end: u128) -> u64
    ensures { result ≡ min end latest }
{
    end.min(u128::from(u64::MAX)) as u64
}

// The name at a place, if a find of it is alive at a moment.
fn name_if_alive<'a>(
    owners: &'a Owners,
    settlings: &[Settling],
    kept: &[KeptFlush],
    moment: u64,
    place: usize,
) -> Option<Candidate<'a>>
    ensures some { IfSome result (λ own. (own.place ≡ place) × IsCandidate settlings.now kept.now owners.now.entries moment own) }
    ensures none { IfNone result (life_at settlings.now kept.now owners.now.entries place ≤ moment) }
{
    let (name, cells) = match owners.get_index(place) {
        Some(entry) => entry,
        None => return None,
    };
    let end = name_life(name, cells, settlings, kept);
    if end > u128::from(moment) {
        Some(Candidate { place, end, name })
    } else {
        None
    }
}

impl Candidate<'_> {
    // Whether it is not after another.
    fn is_sooner(&self, other: &Candidate<'_>) -> bool
        ensures yes { result ≡ true → IsSooner self.now.end self.now.name.now other.now.end other.now.name.now }
        ensures no { result ≡ false → IsSooner other.now.end other.now.name.now self.now.end self.now.name.now }
    {
        if self.end == other.end {
            is_not_after(self.name, other.name)
        } else {
            self.end < other.end
        }
    }
}

// One of two candidates, which is not after the other.
fn sooner<'a>(a: Option<Candidate<'a>>, b: Option<Candidate<'a>>) -> Option<Candidate<'a>>
    ensures { IsSoonerOf a.entry b.entry result }
{
    match a {
        None => b,
        Some(x) => match b {
            None => a,
            Some(y) => { if x.is_sooner(&y) { a } else { b } }
        },
    }
}

// Whether each name at or below a node ends later than a candidate, by the moments before which a sweep finds nothing to remove.
// While a permanent flush has names to reach, these moments say nothing.
fn is_ahead(
    settlings: &[Settling],
    ends: &WinnerTree,
    node: usize,
    best: &Option<Candidate<'_>>,
) -> bool
    ensures { result ≡ true → IsAhead settlings.now ends.now node best.now }
{
    match best {
        Some(own) => none_left(settlings) && own.end < u128::from(ends.least(node)),
        None => false,
    }
}

// The children of a node, first the one that ends first.
fn children(ends: &WinnerTree, node: usize) -> (usize, usize)
    requires { node < 2 ^ 63 - 1 }
    ensures { ((result.0 ≡ 2 * node + 1) × (result.1 ≡ 2 * node + 2)) ⊎ ((result.0 ≡ 2 * node + 2) × (result.1 ≡ 2 * node + 1)) }
{
    let left = 2 * node + 1;
    let right = 2 * node + 2;
    if ends.least(left) <= ends.least(right) {
        (left, right)
    } else {
        (right, left)
    }
}

// Whether a candidate is not after the name at a place, by the moment before which a sweep finds nothing to remove of that name.
fn is_enough(
    owners: &Owners,
    settlings: &[Settling],
    ends: &WinnerTree,
    place: usize,
    best: &Option<Candidate<'_>>,
) -> bool
    ensures { result ≡ true → IsEnough settlings.now owners.now.entries ends.now place best.now }
{
    let own = match best {
        Some(own) => own,
        None => return false,
    };
    if !none_left(settlings) {
        return false;
    }
    if place >= ends.len() {
        return false;
    }
    let end = u128::from(ends.end(place));
    if own.end != end {
        return own.end < end;
    }
    match owners.get_index(place) {
        Some((name, _)) => is_not_after(own.name, name),
        None => false,
    }
}

// The first of a candidate and the name at a place, if that has a find alive at a moment. It reads the cells only if the name may be
// the first.
#[tactic(auto, using(crate::proofs::FirstLaws::enough))]
fn first_at<'a>(
    owners: &'a Owners,
    settlings: &[Settling],
    kept: &[KeptFlush],
    ends: &WinnerTree,
    moment: u64,
    place: usize,
    best: Option<Candidate<'a>>,
) -> Option<Candidate<'a>>
    requires bounds { AreBounds settlings.now kept.now owners.now.entries ends.now }
    requires best { IfSome best (IsCandidate settlings.now kept.now owners.now.entries moment) }
    ensures { IsFirst settlings.now kept.now owners.now.entries moment (λ i. i ≡ place) best.entry result }
{
    if is_enough(owners, settlings, ends, place, &best) {
        return best;
    }
    let own = name_if_alive(owners, settlings, kept, moment, place);
    sooner(best, own)
}

// The same, if no name below the place as a node ends before it. Else the candidate.
#[tactic(auto, using(crate::proofs::FirstLaws::nothing, crate::proofs::FirstLaws::fewer))]
fn first_of_least<'a>(
    owners: &'a Owners,
    settlings: &[Settling],
    kept: &[KeptFlush],
    ends: &WinnerTree,
    moment: u64,
    place: usize,
    best: Option<Candidate<'a>>,
) -> Option<Candidate<'a>>
    requires bounds { AreBounds settlings.now kept.now owners.now.entries ends.now }
    requires best { IfSome best (IsCandidate settlings.now kept.now owners.now.entries moment) }
    ensures { IsFirst settlings.now kept.now owners.now.entries moment (λ _. ⊥) best.entry result }
{
    if place < ends.len() && ends.end(place) == ends.least(place) {
        return first_at(owners, settlings, kept, ends, moment, place, best);
    }
    best
}

// The first of a candidate and the names at or below a node that have a find alive at a moment.
fn first_below<'a>(
    owners: &'a Owners,
    settlings: &[Settling],
    kept: &[KeptFlush],
    ends: &WinnerTree,
    moment: u64,
    node: usize,
    best: Option<Candidate<'a>>,
) -> Option<Candidate<'a>>
    requires bounds { AreBounds settlings.now kept.now owners.now.entries ends.now }
    requires best { IfSome best (IsCandidate settlings.now kept.now owners.now.entries moment) }
    ensures { IsFirst settlings.now kept.now owners.now.entries moment (IsBelow node) best.entry result }
{
    if node >= owners.len() || is_ahead(settlings, ends, node, &best) {
        return best;
    }
    let first = first_of_least(owners, settlings, kept, ends, moment, node, best);
    let (near, far) = children(ends, node);
    let second = first_below(owners, settlings, kept, ends, moment, near, first);
    let third = first_below(owners, settlings, kept, ends, moment, far, second);
    first_at(owners, settlings, kept, ends, moment, node, third)
}

// Whether a sweep has visited each name since it changed, and no permanent flush is left to reach names.
fn is_visited(settlings: &[Settling], ends: &WinnerTree) -> bool
    ensures { result ≡ true → AreVisited settlings.now ends.now }
{
    none_left(settlings) && 0 < ends.least(0)
}

// The name at a place, if it ends in the second that its last visit noted, and a find of it is alive at a moment.
fn name_if_noted<'a>(
    owners: &'a Owners,
    settlings: &[Settling],
    kept: &[KeptFlush],
    lasts: &Lasts,
    moment: u64,
    place: usize,
) -> Option<Candidate<'a>>
    ensures { IfSome result (IsNoted settlings.now kept.now owners.now.entries lasts.now.ends.items moment place) }
{
    let own = match name_if_alive(owners, settlings, kept, moment, place) {
        Some(own) => own,
        None => return None,
    };
    if own.end == u128::from(last_at(&lasts.ends, place)) {
        Some(own)
    } else {
        None
    }
}

// The name that ends first by the seconds that the last visits noted, if a sweep has visited each name since it changed, and that name
// ends then.
fn first_noted<'a>(
    owners: &'a Owners,
    settlings: &[Settling],
    kept: &[KeptFlush],
    ends: &Ends,
    moment: u64,
) -> Option<Candidate<'a>>
    requires { AreEnds kept.now owners.now.entries ends.now × (settlings.now ≡ [] → ends.now.left ≡ 0) }
    ensures { IfSome result (λ own. IsFirst settlings.now kept.now owners.now.entries moment (IsBelow 0) None (Some own)) }
{
    if is_visited(settlings, &ends.moments) {
        if let Some(place) = ends.lasts.first() {
            return name_if_noted(owners, settlings, kept, &ends.lasts, moment, place);
        }
    }
    None
}

// The name that ends first, of those that have a find alive at a moment.
fn first_of_all<'a>(
    owners: &'a Owners,
    settlings: &[Settling],
    kept: &[KeptFlush],
    ends: &Ends,
    moment: u64,
) -> Option<Candidate<'a>>
    requires ends { AreEnds kept.now owners.now.entries ends.now × (settlings.now ≡ [] → ends.now.left ≡ 0) }
    requires bounds { AreBounds settlings.now kept.now owners.now.entries ends.now.moments }
    ensures { IsFirst settlings.now kept.now owners.now.entries moment (IsBelow 0) None result }
{
    match first_noted(owners, settlings, kept, ends, moment) {
        Some(own) => Some(own),
        None => first_below(owners, settlings, kept, &ends.moments, moment, 0, None),
    }
}

impl Shelf {
    ghost use Rattle.shelf.specs.Oldest.{IsNoneAlive, IsOldest};

    /// The name to forget first when the cache is full: the one whose last find ends first, of the names that have a find alive at the
    /// moment, whatever choice of the kept flushes is in force. Of names whose last finds end in the same second it is the first in the
    /// order of names. It takes no memory. After a sweep it reads the cells of one name; before it, it may read those of many.
    pub fn oldest(&self, moment: u64) -> Option<&Name>
        requires whole { IsShelf self.now }
        ensures some { IfSome result (λ name. IsOldest self.now moment name.now) }
        ensures none { IfNone result (IsNoneAlive self.now moment) }
    {
        // `len` is called for its clause that the names differ, which the proof cites.
        let _ = self.owners.len();
        let first = first_of_all(
            &self.owners,
            &self.settlings,
            &self.kept,
            &self.ends,
            moment,
        );
        match first {
            Some(own) => Some(own.name),
            None => None,
        }
    }
}
