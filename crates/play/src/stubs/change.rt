//! The change that a line asks for, and making it.

ghost use Rattle.std.specs.Prelude.{IfOk};
ghost use Rattle.stub_table.specs.Saved.{TakesBack};

use crate::questions::name_in;
use crate::words::addrs_in;
use dns_name::{Name, NoMemory};
use dns_text::{Items, Shared, next_word};
use std::alloc::Global;
use stub_table::{MOST_STUBS, SavedStubs, Stub, StubFault, StubTable};

#[derive(Drop)]
pub enum Change {
    Set(Shared<Stub>),
    Remove(Name),
}

fn stub_in(alloc: Global, text: &[u8]) -> Option<Shared<Stub>> {
    let name = name_in(alloc, text)?;
    let (_, rest) = next_word(text)?;
    let addrs = Items::new(addrs_in(alloc, rest).ok()?);
    Shared::new(alloc, Stub { name, addrs }).ok()
}

/// The change that a text asks for.
pub fn change_in(alloc: Global, text: &[u8]) -> Option<Change> {
    let (word, rest) = next_word(text)?;
    if word == b"set".as_slice() {
        return Some(Change::Set(stub_in(alloc, rest)?));
    }
    Some(Change::Remove(name_in(alloc, rest)?))
}

pub fn made(table: &mut StubTable, change: Change) -> Result<SavedStubs, StubFault>
    ensures saved { IfOk result (λ saved. TakesBack saved table.new table.old) }
{
    match change {
        Change::Set(stub) => table.set(stub),
        Change::Remove(name) => Ok(table.remove(&name)?),
    }
}

fn is_made(table: &mut StubTable, change: Change) -> bool {
    match made(table, change) {
        Ok(saved) => {
            drop(saved);
            true
        }
        Err(_) => false,
    }
}

/// Sets one stub more than there may be, each of a label that no other has; gives how many were refused.
pub fn fill(alloc: Global, table: &mut StubTable) -> Result<u32, NoMemory> {
    let mut refused: u32 = 0;
    for n in 0..MOST_STUBS as u32 + 1 {
        let text = format!(in alloc; "set {n}. 192.0.2.1")?;
        let Some(new) = change_in(alloc, text.as_str().as_bytes()) else {
            break;
        };
        if !is_made(table, new) {
            refused = refused.saturating_add(1);
        }
    }
    Ok(refused)
}
