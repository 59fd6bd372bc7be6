//! Shared books: two callers in threads of their own, and what closing says of the receipts that are handed in.

pub mod callers; // two callers of one book, and their receipts
pub mod closing; // whole, and with something wrong
pub mod limits; // what a book is made with
pub mod moving; // a window that moves on
pub mod sweeping; // sweeps in turns
pub mod passes; // a pass whose call the book refuses, and two passes in one
