//! An entry of a column, as memory has it.

ghost use Rattle.std.specs.Prelude.{◌≡◌, ℕ};
ghost use Rattle.std.specs.Option.{option_map};
ghost use Rattle.cell_store.specs.Prune.{is_from};
ghost use Rattle.cell_store.specs.Version.{nothing};

use crate::version::{Place, Slot, Version};
use arrayvec::ArrayVec;
use ranked::{Admitted, Cell, Rank};
use std::default::Default;
use std::marker::Model;
use std::mem::size_of;

/// The room of a column: five entries, and one more during an admission. Two finds of one column have different ranks,
/// since the newer one left only finds that outrank it. So no admission takes more room, however many flushes can be undone.
pub(crate) const ENTRIES: usize = 6;

/// The entries of a column. They lie in the column itself, so that it needs no memory of its own for them.
pub(crate) type Entries = ArrayVec<ColumnEntry, ENTRIES>;

/// The content of an entry: the fields of `Place` and `Admitted`, in an order that leaves no gaps.
#[derive(Clone, Copy)]
enum Content {
    Empty {
        left: bool,
    },
    Own {
        left: bool,
        rank: Rank,
        slot: Slot,
        ttl: u32,
        since: u64,
    },
}

/// An entry of a column, in half the memory that `Version` takes. Contracts see it as that version.
#[derive(Drop)]
pub(crate) struct ColumnEntry {
    from: u64,
    content: Content,
}

const _: () = prove!(size_of::<ColumnEntry>() == 24);

impl Model for ColumnEntry {
    ghost use Rattle.std.specs.Prelude.{ℕ};
    ghost use Rattle.cell_store.specs.declared.version.Version.{Version};

    ghost Value = { Version ℕ };

    ghost use Rattle.cell_store.specs.Entry.{content_place};

    ghost view = { λ e. record { from = e.from; place = content_place e.content } };
}

impl Default for ColumnEntry {
    ghost is_default = { λ e. e ≡ record { from = 0; place = nothing } };

    // The empty entry from version 0.
    fn default() -> ColumnEntry {
        ColumnEntry {
            from: 0,
            content: Content::Empty { left: false },
        }
    }
}

impl Content {
    ghost use Rattle.cell_store.specs.Entry.{content_place};

    fn new(place: Place<Slot>) -> Content
        ensures { content_place result ≡ place }
    {
        match place.cell.held {
            Some(held) => Content::Own {
                left: place.left,
                rank: held.rank,
                slot: held.body,
                ttl: held.ttl,
                since: held.since,
            },
            None => Content::Empty { left: place.left },
        }
    }

    fn place(self) -> Place<Slot>
        ensures { result ≡ content_place self }
    {
        match self {
            Content::Empty { left } => Place {
                left,
                cell: Cell::empty(),
            },
            Content::Own {
                left,
                rank,
                slot,
                ttl,
                since,
            } => Place {
                left,
                cell: Cell {
                    held: Some(Admitted {
                        rank,
                        ttl,
                        since,
                        body: slot,
                    }),
                },
            },
        }
    }
}

impl ColumnEntry {
    /// Packs a version.
    pub(crate) fn new(version: Version<Slot>) -> ColumnEntry
        ensures { result ≡ version }
    {
        ColumnEntry {
            from: version.from,
            content: Content::new(version.place),
        }
    }

    /// The version that it packs.
    pub(crate) fn version(&self) -> Version<Slot>
        ensures { result ≡ self.now }
    {
        Version {
            from: self.from,
            place: self.content.place(),
        }
    }

    /// Whether it starts at a version or before.
    pub(crate) fn is_from(&self, number: u64) -> bool
        ensures { result ≡ is_from number self.now }
    {
        self.from <= number
    }

    /// The first version that has its content.
    pub(crate) fn start(&self) -> u64
        ensures { result ≡ self.now.from }
    {
        self.from
    }

    /// Moves the start to a version.
    pub(crate) fn start_at(&mut self, number: u64)
        ensures { self.new ≡ record { from = number; place = self.old.place } }
    {
        self.from = number;
    }

    /// Its content.
    pub(crate) fn place(&self) -> Place<Slot>
        ensures { result ≡ self.now.place }
    {
        self.content.place()
    }

    /// Replaces its content.
    pub(crate) fn set_place(&mut self, place: Place<Slot>)
        ensures { self.new ≡ record { from = self.old.from; place = place } }
    {
        self.content = Content::new(place);
    }

    /// The slot of its find, if it has one.
    pub(crate) fn slot(&self) -> Option<Slot>
        ensures { result ≡ option_map (λ held. held.body) self.now.place.cell.held }
    {
        match self.content {
            Content::Own { slot, .. } => Some(slot),
            Content::Empty { .. } => None,
        }
    }
}
