//! The cells that the shelf would show, if one flush were undone or redone.

ghost use Rattle.std.specs.Prelude.{◌≡◌, ◌&&◌, map};
ghost use Rattle.ranked.specs.Cell.{shown_at};
ghost use Rattle.ranked.specs.Flush.{covers};
ghost use Rattle.cell_store.specs.Owner.{held_now};
ghost use Rattle.shelf.specs.Kept.{turned_over};
ghost use Rattle.shelf.specs.Told.{cell_over, shown_version};

use crate::shelf::{KeptFlush, Shelf};
use cell_store::at;
use dns_name::Name;
use ranked::Held;

impl KeptFlush {
    // Whether it would be in force, if the flush of this number were turned over.
    fn is_shown_over(&self, number: u64) -> bool
        ensures { result ≡ (turned_over number self.now).shown }
    {
        if self.number == number {
            !self.shown
        } else {
            self.shown
        }
    }
}

impl Shelf {
    // The version of a question, if the flush of this number were turned over.
    pub(crate) fn version_over(&self, number: u64, owner: &Name, kind: u16) -> u64
        ensures { result ≡
            shown_version (map (turned_over number) self.now.kept.items) (record { owner = owner.now; kind = kind }) }
    {
        let mut place = self.kept.len();
        while place > 0 {
            place -= 1;
            let own = &self.kept[place];
            if own.is_shown_over(number) && own.flush.covers(owner, kind) {
                return own.number;
            }
        }
        0
    }

    /// The find of a question as `show` would give it, if the flush of this number were undone, or redone if it is undone. Nothing changes,
    /// and it takes no memory.
    pub fn show_over(&self, number: u64, owner: &Name, kind: u16, moment: u64) -> Option<Held<'_>>
        ensures { held_now result ≡ shown_at (cell_over number self.now (record { owner = owner.now; kind = kind })) moment }
    {
        let version = self.settled(owner, self.version_over(number, owner, kind));
        at(&self.owners, owner, kind, version, moment)
    }
}
