//! The book that keeps its history and answers by a replay, for tests and readers. The program's book, which keeps none, is in `store`.
#![tactic(auto)]

// The commands that can be undone and redone.
mod marks;
// The log: each event, and whether its command is struck.
mod log;
// A cell, by a replay of a log.
mod replay;
// The index of the entries that can change a cell.
mod index;
// How many cells a plain book stores.
mod stored;
// The history of a plain book: its log and its marks.
mod plain_history;
// The change that a command makes of local zones, records and stubs.
mod changes;
// Local zones, records and stubs, by a replay of a log.
mod tables;
// The list of commands that can be undone or redone.
mod listing;
// The cell of a name for finds of one scope, by a replay of a log.
mod scope_replay;
// The name to forget first.
mod oldest;
// What a lookup would see right after an undo or a redo.
mod preview;
// What a lookup sees.
mod lookup_result;
// The reply to an event, and the tables after it.
mod replies;
// The book that keeps its history and replays it.
mod plain;

pub use history::{
    Ask, Book, BuriedCommand, CellSource, Command, Desk, DeskFault, Entry, Event, Hidden,
    Journalled, LAGGING_CELLS, Look, MOMENT_END, MOST_CELLS, MOST_COMMANDS, MOST_EVENTS,
    MOST_HINTS, MakeFault, Move, Origin, Reason, Refusal, Reply, RunFault, Seen, Servers, Settings,
    StepFault, Tables, are_settings, buried, clock_is_greatest, closest_servers, done_is_in_order,
    equality_law, flush_forgets, journal_law, limits_law, oldest_law, over, preview_law,
    question_sight, redo_puts_back, refusal_changes_only_the_clock, run, servers_law, share_answer,
    share_records, share_stubs, share_zones, sight_beside, sweep_changes_only_the_clock, under,
    undo_takes_back,
};
pub use plain::PlainBook;
pub use store::ShelfBook;
