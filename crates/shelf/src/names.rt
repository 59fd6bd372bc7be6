//! The names of the index.

ghost use Rattle.std.specs.Prelude.{◌≡◌, ◌≤◌, [], length};
ghost use Rattle.indexmap.specs.IndexMap.{hasher_of};

use crate::shelf::Shelf;
use cell_store::{NameSeed, Owners};
use indexmap::IndexMap;
use std::alloc::Global;

// An index of no names. If there is memory, it has room for twice so many from the start. Else it grows as names come, and a call in which
// it does enters the hashes of all of them anew. Twice, since a name that goes does not always leave its room to another: once enough names
// were replaced, the index of a full cache would still grow.
pub(crate) fn no_names(alloc: Global, room: usize, seed: NameSeed) -> Owners
    ensures empty { result.entries ≡ [] }
    ensures seed { hasher_of result ≡ seed }
{
    let mut owners: Owners = IndexMap::with_hasher(alloc, seed);
    let _ = owners.reserve(room.saturating_mul(2));
    owners
}

impl Shelf {
    ghost use Rattle.shelf.specs.Stored.{columns_in};
    ghost use Rattle.shelf.specs.Told.{IsShelf};

    /// The number of names in the index. It is at most the number of counted places: a name of which no place counts is not there, whatever
    /// emptied it. A column without a find is not there either, unless a find of the whole name is cached, which it may hide.
    pub fn names(&self) -> usize
        ensures value { result ≡ length self.now.owners.entries }
        ensures few { IsShelf self.now → result ≤ self.now.stored }
        ensures columns { IsShelf self.now → columns_in self.now.owners.entries ≤ self.now.stored }
    {
        self.owners.len()
    }

    /// How many entries the list of permanent flushes has: the flushes of zones that have names left to reach, and at most one of number 0.
    /// After a flush has gone, that one ends the names whose moments are in doubt, a few at a time. Each lookup reads the list. Each call
    /// of `settle` may add one, so whoever makes many flushes permanent takes turns of a sweep between them.
    pub fn reaching(&self) -> usize
        ensures { result ≡ length self.now.settlings.items }
    {
        self.settlings.len()
    }
}
