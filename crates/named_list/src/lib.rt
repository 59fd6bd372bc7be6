//! A list of named things in the order of their arrival, with an index by name.
#![tactic(auto)]

// In the order in which to read them.

// A thing that has a name.
mod named;
// The list, its questions and its changes.
mod list;
// The way back that a change leaves.
mod turn;
// A thing with its key in the index.
mod keyed;
// A name that is sought by its octets.
mod spelled;
// The thing that is closest to a name.
mod closest;
// Lookups and changes of one thing in the index.
mod entry;
// The step of a list to the other side of a change.
mod turning;

pub use list::NamedList;
pub use named::Named;
pub use turn::Turn;
