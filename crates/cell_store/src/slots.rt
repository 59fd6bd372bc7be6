//! The finds of a column, each in one slot. The cells of all versions refer to a find by its slot.

ghost use Rattle.std.specs.Prelude.{◌≡◌, ◌==◌, ◌≤◌, ℕ, map, length};
ghost use Rattle.std.specs.List.{AllByRecursion, list_any};
ghost use Rattle.cell_store.specs.Same.{cell_now};
ghost use Rattle.cell_store.specs.Slots.{held_of, names, renamed, version_of, IsHeldWithin, IsWithin, AreNamed};
ghost use Rattle.cell_store.specs.Count.{has_find};
ghost use Rattle.cell_store.specs.Few.{contents, AreRanked, DoDiffer};

use crate::entry::{ColumnEntry, Entries};
use crate::finds::Finds;
use crate::version::Slot;
use ranked::{Admitted, SharedFind};

impl ColumnEntry {
    // Whether it has a find.
    fn has_find(&self) -> bool
        ensures { result ≡ has_find self.now }
    {
        self.slot().is_some()
    }

    // Whether its cell refers to a slot.
    fn names(&self, slot: usize) -> bool
        ensures { result ≡ names slot self.now }
    {
        match self.slot() {
            Some(own) => usize::from(own) == slot,
            None => false,
        }
    }

    // Refers to another slot, if it referred to the old one.
    fn rename(&mut self, old: usize, new: Slot)
        ensures { self.new ≡ renamed old new self.old }
    {
        let mut place = self.place();
        if let Some(mut held) = place.cell.held {
            if usize::from(held.body) == old {
                held.body = new;
                place.cell.held = Some(held);
                self.set_place(place);
            }
        }
    }
}

// Whether some version has a find.
pub(crate) fn has_find(versions: &[ColumnEntry]) -> bool
    ensures { result ≡ list_any has_find versions.now }
{
    versions.iter().any(|entry| entry.has_find())
}

// Whether some cell refers to a slot.
fn is_named(versions: &[ColumnEntry], slot: usize) -> bool
    ensures { result ≡ list_any (names slot) versions.now }
{
    versions.iter().any(|entry| entry.names(slot))
}

// Replaces the old slot by the new one in each cell that refers to it.
fn rename(versions: &mut Entries, old: usize, new: Slot)
    ensures { versions.new.items ≡ map (renamed old new) versions.old.items }
{
    for entry in versions.iter_mut() {
        entry.rename(old, new);
    }
}

// The content of a cell, with the find in place of its slot.
pub(crate) fn lend(finds: &Finds, held: Option<Admitted<Slot>>) -> Option<Admitted<&SharedFind>>
    requires { IsHeldWithin (length finds.now) held }
    ensures { cell_now result ≡ held_of finds.now held }
{
    match held {
        Some(held) => Some(Admitted {
            rank: held.rank,
            ttl: held.ttl,
            since: held.since,
            body: finds.get(usize::from(held.body)),
        }),
        None => None,
    }
}

// Drops the finds to which no cell refers. The last find moves into the gap.
pub(crate) fn release(versions: &mut Entries, finds: &mut Finds)
    requires few { length finds.old ≤ 256 }
    requires within { AllByRecursion (IsWithin (length finds.old)) versions.old.items }
    ensures same { map (version_of finds.new) versions.new.items ≡ map (version_of finds.old) versions.old.items }
    ensures within { AllByRecursion (IsWithin (length finds.new)) versions.new.items }
    ensures ranked { AreRanked versions.old.items → AreRanked versions.new.items }
    ensures differ { DoDiffer (contents versions.old.items) → DoDiffer (contents versions.new.items) }
    ensures named { AreNamed versions.new.items (length finds.new) }
{
    let mut slot = 0;
    while slot < finds.len() {
        if is_named(versions, slot) {
            slot += 1;
        } else {
            finds.swap_remove(slot);
            rename(versions, finds.len(), slot as Slot);
        }
    }
}
