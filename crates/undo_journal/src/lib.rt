//! The journal: the changes of a world that can be undone and redone, whatever they change.
#![tactic(auto)]

// What an undo or a redo of a ticket did.
mod outcome;
// The changes in the way of an undo or a redo of a ticket.
mod reach;
// The turn of a change: its undo or its redo.
mod turning;
// The undone changes leave the ring.
mod settling;
// The journal, a bounded ring of changes.
mod journal;

pub use journal::Journal;
pub use outcome::{Outcome, TicketReach};
