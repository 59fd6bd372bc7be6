//! The cells of the cache, by version. With versions, a flush can be undone and redone without a history.
//!
//! Each flush that can still be undone has a number. Version 0 of a cell is its content if none of these flushes is in force.
//! Version `n` is its content if the flush of number `n` is the last in force that covers it.
//! A column has the versions of one name and type. It has no entry for the versions after its last admission: those are empty.
//! So a flush needs to visit no column.
#![tactic(auto)]

// The content of a cell, from one version on.
mod version;
// An entry of a column, in memory.
mod entry;
// The finds of a column, in the column itself.
mod finds;
// The finds of a column, each kept once.
mod slots;
// Equal neighbours, kept once.
mod merge;
// Versions that no flush needs any more.
mod prune;
// One change made in each version of a column.
mod versions;
// The cells of one name and type.
mod column;
// The cells of one name.
mod owner;
// Columns without a find.
mod empty;
// The content of a cell in a version.
mod content;
// Names whose versions may have different content.
mod mixed;
// The hasher of the index.
mod seed;
// The cells of all names.
mod store;

pub use column::Column;
pub use empty::drop_empty_at;
pub use owner::{KindColumn, OwnerCells, WholeFind};
pub use seed::NameSeed;
pub use store::{
    Owners, admit_at, at, cells_at, drop_if_uncounted, forget_place, has_pair, has_place_in,
    held_in, is_same, open_kinds, settle_at, settle_kinds,
};
pub use version::{Place, Sight, Version};
