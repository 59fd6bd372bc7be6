//! Makes a call many times, so that its time and its memory can be measured: `measure WORD CALL COUNT` makes one call so many
//! times, and prints a number that depends on each, so that no compiler leaves one out. `measure WORD` makes each call of that
//! word, and `measure` alone those of all words.
//!
//! | Word | Call | What it does |
//! |---|---|---|
//! | `front` | `question` | reads the question of a query, and nothing more |
//! | | `held`, `local`, `refused` | serves a query from octets to octets: a cached set, local data, RCODE 5 |
//! | `tasks` | `held`, `local`, `refused` | runs a task from its beginning to its answer |
//! | | `held_look`, `local_look`, `refused_look` | the look of such a task alone |
//! | `messages` | `decode_query`, .. | reads or writes a message or a name; bench/README.md has them all |
//! | `book` | `alone`, `shared`, `recorded` | looks at a book of one caller, through the lock of a shared one, and with each look recorded |
//! | `cells` | a number of names | looks names up in a cache of so many, each with one address |
//! | | `undo-N`; `oldest-N`, `middle-N`, `newest-N` | undoes and redoes one of 256 flushes of so many names; by its ticket |
//! | `room` | a number of names | gives new names to a full cache with room for so many |
//! | | `clock-N`, `end-N` | fills a shared cache with N names, and asks for the name to forget first once half of them have ended unswept |
//! | | `beside-N` | makes room in a shared cache of N names while another caller comes between each two calls, and prints the times too |
//! | `tables` | a number of records | asks for names of so many local records, in a sixteenth as many zones |
//! | | `KIND-undo-N`; `KIND-last-N`, `KIND-first-N` | undoes and redoes the last command; by its ticket, before 255 others too |
//! | `fill` | a number of records | makes a table of so many local records, by a call for each zone and each record |
#![tactic(auto)]

mod calls; // calls by their names
mod books; // a book that has something of each kind
mod messages; // calls on names and messages
mod book; // looks at a book
mod tasks; // tasks and looks
mod front; // queries from octets to octets
mod lookups; // lookups of many names
mod moves; // undos and redos of one command
mod cells; // lookups in a cache of many names, undos of flushes
mod room; // new names for a full cache
mod between; // a clock that moves between a sweep and the look for the name to forget first
mod beside; // new names for a full cache while another caller comes between
mod stopwatch; // the times of calls
mod tables; // answers from many local records, undos of commands about them
mod fill; // tables filled by their own calls

use anyhow::anyhow;
use book::measure_book;
use cells::measure_cells;
use fill::measure_fill;
use front::measure_front;
use messages::measure_messages;
use room::measure_room;
use std::alloc::Global;
use std::env;
use std::sync::Wait;
use std::time::CpuClock;
use tables::measure_tables;
use tasks::measure_tasks;

/// Every word, in the order in which it is shown.
const WORDS: [&str; 8] = [
    "front", "tasks", "messages", "book", "cells", "room", "tables", "fill",
];

/// Makes the calls of a word: the one that the next words name, or each.
fn measure<R: Print + Wait + CpuClock>(
    rt: &R,
    alloc: Global,
    word: &str,
    words: &[String],
) -> anyhow::Result<()> {
    match word {
        "front" => measure_front(rt, alloc, words),
        "tasks" => measure_tasks(rt, alloc, words),
        "messages" => measure_messages(rt, alloc, words),
        "book" => measure_book(rt, alloc, words),
        "cells" => measure_cells(rt, alloc, words),
        "room" => measure_room(rt, alloc, words),
        "tables" => measure_tables(rt, alloc, words),
        "fill" => measure_fill(rt, alloc, words),
        _ => Err(anyhow!("there is no such word")),
    }
}

fn measure_all<R: Print + Wait + CpuClock>(rt: &R, alloc: Global) -> anyhow::Result<()> {
    for word in WORDS {
        measure(rt, alloc, word, &[])?;
    }
    Ok(())
}

fn main(rt: HostRuntime) -> anyhow::Result<()> {
    let words: Vec<String> = env::args(&rt)?.collect(rt.alloc())?;
    match words.as_slice() {
        [_, word, words @ ..] => measure(&rt, rt.alloc(), word.as_str(), words),
        _ => measure_all(&rt, rt.alloc()),
    }
}
