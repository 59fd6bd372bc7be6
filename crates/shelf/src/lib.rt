//! The cache without a history: cells by version, and the flushes that can be undone or redone.
//!
//! To undo a flush is to clear a flag: each cell keeps its content with the flush and without it, until the flush leaves the list.
#![tactic(auto)]

// Faults of an admission.
mod fault;
// Room for a find.
mod room;
// The moments before which names need no sweep.
mod ends;
// The seconds in which the last finds of names end.
mod lasts;
// A permanent flush of a zone, while it reaches the names.
mod settling;
// Flushes that are made, and made permanent.
mod flushing;
// The shelf: cells and flushes.
mod shelf;
// The names of the index.
mod names;
// What the counted places are.
mod laws;
// The sweep of dead finds and unused versions.
mod sweep;
// The name to forget first.
mod oldest;
// The cells that would be shown, if one flush were undone or redone.
mod preview;
// The names that a flush hides, for an operator's eyes.
mod hidden;
// The cells that are kept for a question.
mod kept;

pub use ends::Ends;
pub use fault::StoreFault;
pub use lasts::Lasts;
pub use laws::admitted_law;
pub use room::Room;
pub use settling::Settling;
pub use shelf::{KeptFlush, Shelf};
