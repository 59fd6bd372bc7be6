//! Drawn calls of books: of one book by many callers, of two books alike, and without memory.

pub mod draws; // events by chance
pub mod callers; // eight callers of one book
pub mod replayed; // the calls of all receipts, given to a fresh book, and the closing
pub mod both; // drawn events, given to both books
pub mod texts; // events and replies as text
pub mod steps; // one caller, and calls that find no memory
pub mod in_threads; // two callers in threads of their own, and calls that find no memory
