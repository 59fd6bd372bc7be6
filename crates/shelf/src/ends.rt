//! The moments before which names need no sweep, when names come and go.

ghost use Rattle.std.specs.Prelude.{◌≡◌, ◌<◌, ◌≤◌, ◌+◌, [], List, None, true, length, replicate, slice_set, swap_remove, is_some, IfSome, IsOk, OnOk, OnErr, if◌then◌else◌};
ghost use Rattle.cell_store.specs.Store.{name_place};
ghost use Rattle.shelf.specs.Clean.{dropped, evens, fitted, sure, touched_at, AreBy, AreEnds, AreEvened, EndsMixedAt, HasLowered, HasSettled, HaveEnds, IsLower, KeepsEnds};
ghost use Rattle.shelf.specs.Sweep.{EndNear};
ghost use Rattle.dns_name.specs.Labels.{Labels};
ghost use Rattle.cell_store.specs.declared.owner.OwnerCells.{OwnerCells};
ghost use Rattle.shelf.specs.Lasts.{HaveRoom};
ghost use Rattle.shelf.specs.declared.shelf.KeptFlush.{KeptFlush};

use crate::lasts::Lasts;
use cell_store::Owners;
use dns_name::Name;
use std::alloc::{AllocError, Global};
use winner_tree::WinnerTree;

/// For each name, a moment before which a sweep finds nothing to remove there.
#[derive(Drop)]
pub struct Ends {
    pub moments: WinnerTree,
    /// Whether the moment is right only as long as no kept flush goes.
    pub mixed: Vec<bool>,
    /// A flush has gone, and the moments of the names before this place may be wrong, if they are right only as long as none goes.
    pub left: usize,
    pub lasts: Lasts,
}

// No names.
pub(crate) fn no_ends(alloc: Global) -> Ends
    ensures ends { (kept : List KeptFlush) → AreEnds kept [] result }
    ensures left { result.left ≡ 0 }
{
    Ends {
        moments: WinnerTree::new(alloc),
        mixed: Vec::new(alloc),
        left: 0,
        lasts: Lasts::new(alloc),
    }
}

// Lets the next sweep visit the name at a place, or makes room for a new name, and lets the next sweep visit that.
pub(crate) fn touch(ends: &mut Ends, place: Option<usize>) -> Result<(), AllocError>
    requires low { IfSome place (λ p. p < length ends.old.moments) }
    requires flags { length ends.old.mixed.items ≡ length ends.old.moments }
    ensures ok { OnOk result (AreBy (touched_at place) ends.old ends.new) }
    ensures err { OnErr result (AreBy (λ l. l) ends.old ends.new) }
    ensures room { OnOk result (place ≡ None → HaveRoom ends.new.lasts) }
    ensures free { is_some place ≡ true → IsOk result }
{
    match place {
        Some(place) => {
            ends.moments.set(place, 0);
            Ok(())
        }
        None => {
            ends.mixed.reserve(1)?;
            ends.lasts.reserve()?;
            ends.moments.push(0)?;
            ends.mixed.push_reserved(false);
            Ok(())
        }
    }
}

// Lets the next sweep visit a name, if it is there. It takes no memory.
pub(crate) fn reset(owners: &Owners, ends: &mut Ends, owner: &Name)
    requires size { length ends.old.moments ≡ length owners.now.entries }
    requires flags { length ends.old.mixed.items ≡ length ends.old.moments }
    ensures { AreBy (λ l. slice_set l (name_place owner.now owners.now.entries) 0) ends.old ends.new }
{
    if let Some(place) = owners.get_index_of(owner) {
        ends.moments.set(place, 0);
    }
}

// Removes the last moment, if there are more than names.
pub(crate) fn fit(owners: &Owners, ends: &mut Ends)
    requires flags { length ends.old.mixed.items ≡ length ends.old.moments }
    ensures ends { AreBy (fitted (length owners.now.entries)) ends.old ends.new }
    ensures lasts { ends.new.lasts ≡ ends.old.lasts }
{
    if owners.len() < ends.moments.len() {
        ends.moments.pop();
        ends.mixed.pop();
    }
}

// The name at a place is in doubt no more, if it was the last.
fn clear_doubt(ends: &mut Ends, place: usize)
    ensures same { (ends.new.moments ≡ ends.old.moments) × (ends.new.mixed ≡ ends.old.mixed) × (ends.new.lasts ≡ ends.old.lasts) }
    ensures left { HasLowered place ends.old.left ends.new.left × HasSettled (place + 1) place ends.old ends.new }
{
    if ends.left > place && ends.left - place == 1 {
        ends.left = place;
    }
}

// Removes the moment at a place. The last one moves into the gap.
pub(crate) fn drop_at(ends: &mut Ends, place: usize)
    requires low { place < length ends.old.moments }
    requires flags { length ends.old.mixed.items ≡ length ends.old.moments }
    ensures by { AreBy (λ l. swap_remove l place 0) ends.old ends.new }
    ensures left { HasSettled (place + 1) place ends.old ends.new }
{
    ends.moments.swap_remove(place);
    ends.mixed.swap_remove(place);
    clear_doubt(ends, place);
}

// Removes the moment at a place, if there is one. The last one moves into the gap.
pub(crate) fn drop_end(ends: &mut Ends, place: Option<usize>)
    requires low { IfSome place (λ p. p < length ends.old.moments) }
    requires flags { length ends.old.mixed.items ≡ length ends.old.moments }
    ensures { AreBy (dropped place) ends.old ends.new }
{
    if let Some(place) = place {
        drop_at(ends, place);
    }
}

// Gives the name at a place another moment.
pub(crate) fn put(ends: &mut Ends, place: usize, end: u64, mixed: bool)
    requires low { place < length ends.old.moments }
    requires flags { length ends.old.mixed.items ≡ length ends.old.moments }
    ensures moments { ends.new.moments ≡ slice_set ends.old.moments place end }
    ensures unmixed { evens ends.new ≡ slice_set (evens ends.old) place (if mixed then 0 else end) }
    ensures sure { IsLower (slice_set (sure ends.old) place end) (sure ends.new) }
    ensures left { HasSettled (place + 1) place ends.old ends.new }
    ensures flags { length ends.new.mixed.items ≡ length ends.new.moments }
    ensures lasts { ends.new.lasts ≡ ends.old.lasts }
{
    ends.moments.set(place, end);
    ends.mixed[place] = mixed;
    clear_doubt(ends, place);
}

// Lets the next sweep visit each name. It takes no memory.
pub(crate) fn end_all(ends: &mut Ends)
    requires flags { length ends.old.mixed.items ≡ length ends.old.moments }
    ensures { AreBy (λ l. replicate (length l) 0) ends.old ends.new }
{
    ends.moments.end_all();
}

// A kept flush has gone: the moments that are right only as long as none goes are in doubt. It visits no name.
pub(crate) fn doubt_all(owners: &Owners, ends: &mut Ends)
    ensures ends { (kept more : List KeptFlush) → AreEnds kept owners.now.entries ends.old → AreEnds more owners.now.entries ends.new }
    ensures left { ends.new.left ≡ length owners.now.entries }
    ensures size { HaveEnds owners.now.entries ends.old → HaveEnds owners.now.entries ends.new }
{
    ends.left = owners.len();
}

// Makes the moment of each name that is mixed 0.
fn end_each(ends: &mut Ends)
    ensures moments { length ends.old.mixed.items ≡ length ends.old.moments → ends.new.moments ≡ evens ends.old }
    ensures same { (ends.new.mixed ≡ ends.old.mixed) × (ends.new.lasts ≡ ends.old.lasts) }
{
    let mut place = 0;
    while place < ends.mixed.len() && place < ends.moments.len() {
        if ends.mixed[place] {
            ends.moments.set(place, 0);
        }
        place += 1;
    }
}

// Lets the next sweep visit each name whose moment may be wrong once a kept flush has gone. It takes no memory.
pub(crate) fn end_mixed(ends: &mut Ends)
    ensures evened { length ends.old.mixed.items ≡ length ends.old.moments → AreEvened ends.old ends.new }
    ensures left { ends.new.left ≡ 0 }
{
    end_each(ends);
    ends.left = 0;
}

// Lets the next sweep visit the name at a place, if its moment may be wrong once a kept flush has gone.
fn end_if_mixed(ends: &mut Ends, place: usize)
    ensures moments { EndsMixedAt place ends.old ends.new }
    ensures same { (ends.new.mixed ≡ ends.old.mixed) × (ends.new.left ≡ ends.old.left) × (ends.new.lasts ≡ ends.old.lasts) }
    ensures near { EndNear ends.old.moments ends.new.moments (place + 1) place }
{
    if place >= ends.moments.len() || place >= ends.mixed.len() {
        return;
    }
    if ends.mixed[place] {
        ends.moments.set(place, 0);
    }
}

// If the name at a place is the last that is in doubt, lets the next sweep visit it, if its moment may be wrong. It takes no memory.
pub(crate) fn settle_doubt(ends: &mut Ends, place: usize)
    ensures ends { KeepsEnds ends.old ends.new }
    ensures size { (entries : List (Labels × OwnerCells)) → HaveEnds entries ends.old → HaveEnds entries ends.new }
    ensures ended { EndNear ends.old.moments ends.new.moments (place + 1) place }
    ensures left { HasSettled (place + 1) place ends.old ends.new }
{
    if ends.left <= place || ends.left - place != 1 {
        return;
    }
    end_if_mixed(ends, place);
    ends.left = place;
}
