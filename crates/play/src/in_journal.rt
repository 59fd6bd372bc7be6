//! Changes of local zones and stubs that can be undone and redone: what becomes of each line of a script that speaks of them.
//!
//! | Line | What it does |
//! |---|---|
//! | `local_zone`, `local_data`, `stub_add` .. | makes a change, which takes the next ticket |
//! | `undo`, `redo` | undoes the newest change, or redoes the one that was undone last |
//! | `list_local_zones`, `list_local_data`, `list_stubs` | lists them |
//! | `look NAME TYPE` | the local answer to a question, or `unknown` |
//!
//! `play journal N` keeps N changes. Replies are those of `resolver script`, but nothing of a book is there: the calls are those
//! of a journal over the two tables. Any other line is malformed.

ghost use Rattle.std.specs.Prelude.{◌≤◌, IfOk};

pub mod undoable; // a world whose changes can be undone
pub mod obeying; // a line is obeyed

use crate::in_journal::obeying::obey_journal;
use crate::in_journal::undoable::Undoable;
use crate::lines::{Obeys, obey_input};
use crate::stop::Stop;
use crate::words::number_in;
use history::MOST_COMMANDS;
use std::io::{BufRead, Write};
use table_changes::{TableChange, TableWorld};

/// How many changes the words say that the journal keeps.
fn limit_in(words: &[String]) -> Result<usize, Stop>
    ensures { IfOk result (λ limit. 1 ≤ limit) }
{
    let [word] = words else {
        return Err(Stop::Device);
    };
    let limit = number_in(word.as_bytes())?;
    if limit == 0 || limit > MOST_COMMANDS as u64 {
        return Err(Stop::Device);
    }
    Ok(limit as usize)
}

impl Obeys for Undoable<TableChange> {
    fn obey<I: BufRead>(&mut self, rt: &HostRuntime, _: &mut I, line: &[u8]) -> Result<(), Stop> {
        let text = obey_journal(rt.alloc(), self, line)?;
        Ok(rt.stdout().write_all(text.as_slice())?)
    }
}

/// Obeys lines over empty tables and an empty journal.
pub fn play_journal(rt: &HostRuntime, words: &[String]) -> Result<(), Stop> {
    let limit = limit_in(words)?;
    let world = TableWorld::new(rt.alloc());
    let mut tables: Undoable<TableChange> = Undoable::new(rt.alloc(), world, limit)?;
    obey_input(rt, &mut tables)
}
