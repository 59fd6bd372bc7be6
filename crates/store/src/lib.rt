//! The operator's tables and the cache, as one world in which every command can be undone, and the book of that world.
#![tactic(auto)]

// The cache as a world, and flushes as its changes.
mod world;
// The tables and the cache as one world.
mod store;
// What a book asks of them.
mod book;
// The book of them, which keeps no history.
mod shelf_book;

pub use shelf_book::ShelfBook;
pub use store::{Made, SavedChange, Store, StoreChange, WayBack};
pub use world::{FlushChange, SavedFlush, ShelfWorld};
