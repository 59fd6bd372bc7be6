//! Answers from many local records in many zones, and undos and redos of one command about them or about stubs.

ghost use Rattle.std.specs.Prelude.{◌≤◌};

use crate::books::{command, empty_shelf, local_data, local_zone, shelf_with_journal};
use crate::calls::run_calls;
use crate::lookups::{look_many, questions};
use crate::moves::{Moved, move_many, obey};
use anyhow::anyhow;
use history::Book;
use local_zone::ZoneType;
use std::alloc::Global;

/// The number of the last zone, for so many records: there are 16 to a zone, and two zones at least.
pub fn last_zone(records: u32) -> u32
    ensures { 1 ≤ result }
{
    (records / 16).max(2) - 1
}

/// The text of a record's owner. The first zone has a hundredth of all records, and the others share the rest.
pub fn owner(alloc: Global, place: u32, records: u32) -> anyhow::Result<String> {
    let zone = if place < records / 100 {
        0
    } else {
        1 + place % last_zone(records)
    };
    Ok(format!(in alloc; "n{place}.z{zone}.test")?)
}

fn add_zone<B: Book>(alloc: Global, book: &mut B, zone: u32) -> anyhow::Result<()> {
    let name = format!(in alloc; "z{zone}.test")?;
    let zone = local_zone(alloc, name.as_str().as_bytes(), ZoneType::Static)?;
    command(book, zone)
}

fn add_record<B: Book>(
    alloc: Global,
    book: &mut B,
    place: u32,
    owner: &String,
) -> anyhow::Result<()> {
    let [_, _, middle, low] = place.to_be_bytes();
    let text = format!(in alloc; "{owner} 60 A 192.0.{middle}.{low}")?;
    command(book, local_data(alloc, text.as_str().as_bytes())?)
}

/// Adds the zones and the records.
fn fill<B: Book>(alloc: Global, book: &mut B, records: u32) -> anyhow::Result<()> {
    for zone in 0..=last_zone(records) {
        add_zone(alloc, book, zone)?;
    }
    for place in 0..records {
        let owner = owner(alloc, place, records)?;
        add_record(alloc, book, place, &owner)?;
    }
    Ok(())
}

/// So many answers of a book that has so many local records, and a sum over them. It is any book, since the prover follows the drop
/// of a certain one field by field.
fn answer_with<B: Book>(
    alloc: Global,
    mut book: B,
    records: u32,
    count: u32,
) -> anyhow::Result<u32> {
    fill(alloc, &mut book, records)?;
    let questions = questions(alloc, records, |place| owner(alloc, place, records))?;
    Ok(look_many(&book, questions.as_slice(), count))
}

fn answer(alloc: Global, records: &str, count: u32) -> anyhow::Result<u32> {
    let records = records.parse()?;
    answer_with(alloc, empty_shelf(alloc)?, records, count)
}

/// The line that changes one record, zone or stub, and removes one owner.
fn line(alloc: Global, kind: &str, records: u32) -> anyhow::Result<String> {
    let owner = owner(alloc, records / 2, records)?;
    match kind {
        "record" => Ok(format!(in alloc; "local_data {owner} 90 A 192.0.2.1")?),
        "owner" => Ok(format!(in alloc; "local_data_remove {owner}")?),
        "zone" => Ok(format!(in alloc; "local_zone z1.test refuse")?),
        "stub" => Ok(format!(in alloc; "stub_add new.test 192.0.2.1")?),
        _ => Err(anyhow!("there is no such call")),
    }
}

/// The line that changes one entry of the table that a kind of line does not change.
fn other_line(alloc: Global, kind: &str, place: u32) -> anyhow::Result<String> {
    if kind == "stub" {
        Ok(format!(in alloc; "local_zone z{place}.test deny")?)
    } else {
        Ok(format!(in alloc; "stub_add s{place}.test 192.0.2.1")?)
    }
}

/// So many undos, each with its redo, of a command of a kind. It is the last, or 255 commands of the other table came after it.
fn move_with<B: Book>(
    alloc: Global,
    mut book: B,
    kind: &str,
    place: &str,
    records: u32,
    count: u32,
) -> anyhow::Result<u32> {
    fill(alloc, &mut book, records)?;
    let line = line(alloc, kind, records)?;
    let ticket = obey(alloc, &mut book, line.as_str())?;
    match place {
        "undo" => move_many(&mut book, Moved::Last, count),
        "last" => move_many(&mut book, Moved::Of(ticket), count),
        _ => {
            for place in 0..255 {
                let line = other_line(alloc, kind, place)?;
                obey(alloc, &mut book, line.as_str())?;
            }
            move_many(&mut book, Moved::Of(ticket), count)
        }
    }
}

/// The moves that words mean: a kind of command, its place among all, and a number of records.
fn moves(alloc: Global, kind: &str, words: &str, count: u32) -> anyhow::Result<u32> {
    match words.split_once("-") {
        Some((place, records)) => {
            let records = records.parse()?;
            let book = shelf_with_journal(alloc)?;
            move_with(alloc, book, kind, place, records, count)
        }
        None => Err(anyhow!("there is no such call")),
    }
}

/// Makes a call: a number of records, alone or behind a kind of command and its place.
fn run(alloc: Global, call: &str, count: u32) -> anyhow::Result<u32> {
    match call.split_once("-") {
        Some((kind, words)) => moves(alloc, kind, words, count),
        None => answer(alloc, call, count),
    }
}

/// Every call that is shown.
const CALLS: [&str; 13] = [
    "1000",
    "record-undo-1000",
    "record-last-1000",
    "record-first-1000",
    "owner-undo-1000",
    "owner-last-1000",
    "owner-first-1000",
    "zone-undo-1000",
    "zone-last-1000",
    "zone-first-1000",
    "stub-undo-1000",
    "stub-last-1000",
    "stub-first-1000",
];

/// Asks for names of so many local records as the first word says, and prints a sum over the answers. With a kind of command and its place
/// before the number, undoes and redoes that command, and prints a sum over the tickets.
pub fn measure_tables<R: Print>(rt: &R, alloc: Global, words: &[String]) -> anyhow::Result<()> {
    run_calls(rt, words, &CALLS, 64, |call, count| run(alloc, call, count))
}
