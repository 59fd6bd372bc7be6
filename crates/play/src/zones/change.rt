//! The change that a line asks for, and making it.

ghost use Rattle.std.specs.Prelude.{IfOk};
ghost use Rattle.local_zone.specs.Saved.{TakesBack};

use crate::questions::name_in;
use dns_name::Name;
use dns_text::{Record, Shared, next_word, read_record};
use local_zone::{SavedTables, TableFault, ZoneTable, ZoneType, read_zone_type};
use std::alloc::Global;

#[derive(Drop)]
pub enum Change {
    Set(Name, ZoneType),
    Drop(Name),
    Add(Shared<Record>),
    Forget(Name),
}

fn zone_in(alloc: Global, text: &[u8]) -> Option<Change> {
    let name = name_in(alloc, text)?;
    let (_, rest) = next_word(text)?;
    let (word, _) = next_word(rest)?;
    let kind = read_zone_type(word)?;
    Some(Change::Set(name, kind))
}

/// The change that a text asks for.
pub fn change_in(alloc: Global, text: &[u8]) -> Option<Change> {
    let (word, rest) = next_word(text)?;
    if word == b"set".as_slice() {
        return zone_in(alloc, rest);
    }
    if word == b"drop".as_slice() {
        return Some(Change::Drop(name_in(alloc, rest)?));
    }
    if word == b"forget".as_slice() {
        return Some(Change::Forget(name_in(alloc, rest)?));
    }
    let record = read_record(alloc, rest).ok()?;
    Some(Change::Add(Shared::new(alloc, record).ok()?))
}

pub fn made(table: &mut ZoneTable, change: Change) -> Result<SavedTables, TableFault>
    ensures saved { IfOk result (λ saved. TakesBack saved table.new table.old) }
{
    match change {
        Change::Set(name, kind) => table.set(name, kind),
        Change::Drop(name) => table.drop_zone(&name),
        Change::Add(new) => table.add_record(new),
        Change::Forget(name) => table.drop_name(&name),
    }
}
