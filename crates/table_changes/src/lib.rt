//! Local zones and stubs as one world, whose changes can be undone and redone.
#![tactic(auto)]

// The changes of stubs, and the numbers of the reasons to refuse one.
mod stubs;
// The changes of local zones and records, and the numbers of the reasons to refuse one.
mod zones;
// Both tables as one world.
mod tables;

pub use stubs::StubChange;
pub use tables::{SavedTable, TableChange, TableWorld};
pub use zones::ZoneChange;
