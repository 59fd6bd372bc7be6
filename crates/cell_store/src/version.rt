//! The content of a cell, from one version on.

ghost use Rattle.std.specs.Prelude.{◌≡◌, ◌↔◌, true};
ghost use Rattle.ranked.specs.Find.{admission_of};
ghost use Rattle.cell_store.specs.Version.{after_find};

use ranked::{Cell, Find, Held};

/// The place of a find among those of its column. A column has at most six, so one octet is enough.
pub(crate) type Slot = u8;

/// The content of a cell in one version.
#[derive(Clone, Copy, PartialEq, Eq)]
pub struct Place<B> {
    /// Whether it refers to the find of the whole name. Then the cell is empty.
    pub left: bool,
    pub cell: Cell<B>,
}

/// The content from one version on, up to the next entry of the column.
#[derive(Clone, Copy, PartialEq, Eq)]
pub struct Version<B> {
    /// The first version that has this content.
    pub from: u64,
    pub place: Place<B>,
}

/// The answer of a column to a lookup.
#[derive(Clone, Copy)]
pub enum Sight<'a> {
    /// The answer is that of the find of the whole name.
    Left,
    /// The answer is the type's own, if it has one.
    Own(Option<Held<'a>>),
}

impl<B: Copy> Place<B> {
    // Caches a find, unless the content here is alive at the moment and of higher rank.
    // `outranked` says whether the find of the whole name is.
    pub(crate) fn admit(&mut self, find: &Find, body: B, moment: u64, outranked: bool)
        ensures { self.new ≡ after_find (admission_of find.now body moment) outranked self.old }
    {
        if self.left {
            if outranked {
                return;
            }
            self.left = false;
            self.cell = Cell::empty();
        }
        let _ = self.cell.admit(find, body, moment);
    }
}
