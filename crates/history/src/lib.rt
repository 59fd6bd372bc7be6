//! The promise of a book: a cache, local zones and stubs in which every command can be undone.
#![tactic(auto)]

// The servers to ask about a name.
mod servers;
// How many names a flush hides.
mod hidden;
// Events, lookups and replies.
mod event;
// Copies of events and replies.
mod copies;
// Limits of moments, counts and settings.
mod limits;
// The tables that the operator's commands make: local zones, records and stubs.
mod tables;
// The commands in the way of an undo or a redo of a ticket.
mod reach;
// The promise that every book keeps.
mod book;
// The desk: whatever a caller can hand an event to.
mod desk;
// A run of any book over a list of events.
mod runs;
// Laws of undoing and refusing, by the definitions alone.
mod laws;
// The trait of a cache that shows cells.
mod source;
// The servers of a zone, by the cells shown.
mod delegation;
// The servers that are closest to a name.
mod closest;
// The reply to a lookup, with a share of the data.
mod lookup;

pub use book::{Book, StepFault};
pub use closest::closest_servers;
pub use desk::{Desk, DeskFault};
pub use event::{
    Ask, BuriedCommand, Command, Entry, Event, Journalled, Look, Move, Reason, Refusal, Reply,
    Seen, Settings, share_answer,
};
pub use hidden::Hidden;
pub use laws::{
    clock_is_greatest, done_is_in_order, equality_law, flush_forgets, journal_law, oldest_law,
    preview_law, redo_puts_back, refusal_changes_only_the_clock, servers_law,
    sweep_changes_only_the_clock, undo_takes_back,
};
pub use limits::{
    LAGGING_CELLS, MOMENT_END, MOST_CELLS, MOST_COMMANDS, MOST_EVENTS, MOST_HINTS, MakeFault,
    are_settings, limits_law,
};
pub use lookup::{question_sight, share_records, share_stubs, share_zones, sight_beside};
pub use reach::{buried, over, under};
pub use runs::{RunFault, run};
pub use servers::{Origin, Servers};
pub use source::CellSource;
pub use tables::Tables;
