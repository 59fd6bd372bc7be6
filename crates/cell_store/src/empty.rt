//! Columns without a find. Each leaves its name, unless it may hide the find of the whole name.

ghost use Rattle.std.specs.Prelude.{◌≡◌, ◌<◌, length};
ghost use Rattle.cell_store.specs.Count.{counted_kinds, stored_in};
ghost use Rattle.cell_store.specs.Store.{AreSameCells, GainNothing, HaveTop, IsCountedAt, IsInUseAt, StayButAt};

use crate::owner::{KindColumn, OwnerCells};
use crate::store::Owners;

// Keeps the columns that count. The memory of the others is freed, if there is memory for the smaller block that the rest moves to.
fn keep_counted(kinds: &mut Vec<KindColumn>)
    ensures { kinds.new.items ≡ counted_kinds kinds.old.items }
{
    let before = kinds.len();
    kinds.retain(|own| own.column.is_counted());
    if kinds.len() == before {
        return;
    }
    kinds.shrink_to_fit();
}

impl OwnerCells {
    ghost use Rattle.cell_store.specs.Owner.{HasTop, KeepsUpTo};
    ghost use Rattle.cell_store.specs.Count.{HasSameContent, IsTidy};

    /// Removes the columns that have no find in any version, with their memory. While a find of the whole name is cached they stay: some
    /// versions may not have it. It takes no memory that it has to get.
    pub fn drop_empty(&mut self)
        requires top { HasTop self.old }
        ensures same { HasSameContent self.old self.new }
        ensures upto { KeepsUpTo self.old self.new }
        ensures whole { self.new.whole ≡ self.old.whole }
        ensures tidy { IsTidy self.new }
    {
        if self.whole.is_some() {
            return;
        }
        keep_counted(&mut self.kinds);
    }
}

/// Does the same in the cells of the name at a place.
pub fn drop_empty_at(owners: &mut Owners, place: usize)
    requires low { place < length owners.old.entries }
    requires top { HaveTop owners.old }
    ensures cells { AreSameCells owners.old owners.new }
    ensures gains { GainNothing owners.old owners.new }
    ensures counted { stored_in owners.new ≡ stored_in owners.old }
    ensures entries { StayButAt place owners.old.entries owners.new.entries }
    ensures used { IsCountedAt place owners.old.entries → IsInUseAt place owners.new.entries }
{
    let (_, cells) = owners.pair_mut(place);
    cells.drop_empty();
}
