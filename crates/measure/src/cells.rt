//! Lookups in a cache of many names, each with one address, and undos and redos of flushes of them all.

use crate::books::{empty_shelf, find_in, give, shelf_with_journal};
use crate::calls::run_calls;
use crate::lookups::{look_many, questions};
use crate::moves::{Moved, move_many, obey};
use anyhow::anyhow;
use history::{Book, Event, MOST_COMMANDS};
use ranked::SharedFind;
use std::alloc::Global;

/// The text of a name.
fn owner(alloc: Global, place: u32) -> anyhow::Result<String> {
    Ok(format!(in alloc; "n{place}.test")?)
}

/// The address of a name.
fn address(alloc: Global, place: u32) -> anyhow::Result<SharedFind> {
    let [_, high, middle, low] = place.to_be_bytes();
    let text = format!(in alloc; "n{place}.test 3600 A 192.{high}.{middle}.{low}")?;
    find_in(alloc, text.as_str().as_bytes())
}

/// Caches the address of each name.
fn fill<B: Book>(alloc: Global, book: &mut B, names: u32) -> anyhow::Result<()> {
    for place in 0..names {
        let find = address(alloc, place)?;
        give(book, Event::Admit { moment: 0, find })?;
    }
    Ok(())
}

/// So many lookups in a book that caches so many names, and a sum over what they show. It is any book, since the prover follows the
/// drop of a certain one field by field.
fn look_with<B: Book>(alloc: Global, mut book: B, names: u32, count: u32) -> anyhow::Result<u32> {
    fill(alloc, &mut book, names)?;
    let questions = questions(alloc, names, |place| owner(alloc, place))?;
    Ok(look_many(&book, questions.as_slice(), count))
}

fn look(alloc: Global, names: &str, count: u32) -> anyhow::Result<u32> {
    let names = names.parse()?;
    look_with(alloc, empty_shelf(alloc)?, names, count)
}

/// So many undos, each with its redo, of one of as many flushes as the journal keeps.
fn move_with<B: Book>(
    alloc: Global,
    mut book: B,
    names: u32,
    moved: Moved,
    count: u32,
) -> anyhow::Result<u32> {
    fill(alloc, &mut book, names)?;
    for _ in 0..MOST_COMMANDS {
        obey(alloc, &mut book, "flush_zone test.")?;
    }
    move_many(&mut book, moved, count)
}

/// The flush that a word means: the last one, or that of a ticket.
fn flush_of(word: &str) -> anyhow::Result<Moved> {
    match word {
        "undo" => Ok(Moved::Last),
        "oldest" => Ok(Moved::Of(1)),
        "middle" => Ok(Moved::Of(128)),
        "newest" => Ok(Moved::Of(256)),
        _ => Err(anyhow!("there is no such call")),
    }
}

/// Makes a call: a number of names, alone or behind the word for a flush.
fn run(alloc: Global, call: &str, count: u32) -> anyhow::Result<u32> {
    match call.split_once("-") {
        Some((word, names)) => {
            let names = names.parse()?;
            let moved = flush_of(word)?;
            move_with(alloc, shelf_with_journal(alloc)?, names, moved, count)
        }
        None => look(alloc, call, count),
    }
}

/// Every call that is shown.
const CALLS: [&str; 5] = [
    "1000",
    "undo-1000",
    "oldest-1000",
    "middle-1000",
    "newest-1000",
];

/// Makes lookups in a cache of so many names as the first word says, and prints a sum over what they show. With the word for a flush before
/// the number, undoes and redoes that flush, and prints a sum over the tickets.
pub fn measure_cells<R: Print>(rt: &R, alloc: Global, words: &[String]) -> anyhow::Result<()> {
    run_calls(rt, words, &CALLS, 64, |call, count| run(alloc, call, count))
}
