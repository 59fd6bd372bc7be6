//! The content of a cell in a version, whether it is alive or not.

ghost use Rattle.std.specs.Prelude.{◌≡◌};
ghost use Rattle.cell_store.specs.Life.{life_end};
ghost use Rattle.cell_store.specs.Owner.{cell_in, whole_cell, whole_held};
ghost use Rattle.cell_store.specs.Same.{cell_now, same_cell};

use crate::owner::{OwnerCells, WholeFind, place_of};
use ranked::{Admitted, SharedFind};

// The find of the whole name, as a cell.
fn whole_cell(whole: &Option<WholeFind>) -> Option<Admitted<&SharedFind>>
    ensures { cell_now result ≡ whole_cell whole.now }
{
    match whole {
        Some(whole) => {
            let found = whole.find.find();
            Some(Admitted {
                rank: found.rank,
                ttl: found.ttl,
                since: whole.since,
                body: &whole.find,
            })
        }
        None => None,
    }
}

// The same in a version. Versions opened after its admission do not have it.
fn whole_held(whole: &Option<WholeFind>, version: u64) -> Option<Admitted<&SharedFind>>
    ensures { cell_now result ≡ whole_held whole.now version }
{
    match whole {
        Some(own) => {
            if own.upto < version {
                None
            } else {
                whole_cell(whole)
            }
        }
        None => None,
    }
}

fn same_cell(cell: &Option<Admitted<&SharedFind>>, other: &Option<Admitted<&SharedFind>>) -> bool
    ensures { result ≡ same_cell (cell_now cell.now) (cell_now other.now) }
{
    match cell {
        None => other.is_none(),
        Some(a) => match other {
            None => false,
            Some(b) => a.since == b.since && *a.body == *b.body,
        },
    }
}

// The second in which the life of a cell's find ends. It is 0 if there is none, or if it is never alive.
fn life_end(cell: &Option<Admitted<&SharedFind>>) -> u128
    ensures { result ≡ life_end (cell_now cell.now) }
{
    match cell {
        Some(held) if held.ttl > 0 => u128::from(held.since) + u128::from(held.ttl),
        _ => 0,
    }
}

impl OwnerCells {
    // The find of a type in a version, with the moment of its admission.
    fn cell(&self, kind: u16, version: u64) -> Option<Admitted<&SharedFind>>
        ensures { cell_now result ≡ cell_in self.now kind version }
    {
        match place_of(&self.kinds, kind) {
            Some(place) => {
                let content = self.kinds[place].column.place(version);
                if content.left {
                    whole_cell(&self.whole)
                } else {
                    content.cell.held
                }
            }
            None => whole_held(&self.whole, version),
        }
    }

    /// Whether two versions of a type have the same find from the same moment, or both have none.
    pub fn is_same(&self, kind: u16, version: u64, other: u64) -> bool
        ensures { result ≡ same_cell (cell_in self.now kind version) (cell_in self.now kind other) }
    {
        same_cell(&self.cell(kind, version), &self.cell(kind, other))
    }

    /// The second in which the life of the find of a type in a version ends. It is 0 if there is none, or if it is never alive.
    pub fn life_end(&self, kind: u16, version: u64) -> u128
        ensures { result ≡ life_end (cell_in self.now kind version) }
    {
        life_end(&self.cell(kind, version))
    }

    /// The same of the find of the whole name.
    pub fn whole_life_end(&self) -> u128
        ensures { result ≡ life_end (whole_cell self.now.whole) }
    {
        life_end(&whole_cell(&self.whole))
    }
}
