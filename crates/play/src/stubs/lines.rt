//! Stubs, as a table that lines change.

use crate::changes::Changing;
use crate::questions::name_in;
use crate::stubs::change::{Change, change_in, fill, made};
use crate::stubs::shown::{push_list, push_stub};
use dns_name::{Name, NoMemory};
use dns_text::next_word;
use std::alloc::Global;
use std::mem;
use stub_table::{SavedStubs, StubFault, StubTable};

fn push_closest(table: &StubTable, name: &Name, out: &mut Vec<u8>) -> Result<(), NoMemory> {
    match table.closest(name) {
        Some(stub) => push_stub(stub.get(), out),
        None => out.extend_from_slice(b"none\n"),
    }
}

fn push_full(alloc: Global, table: &mut StubTable, out: &mut Vec<u8>) -> Result<(), NoMemory> {
    let refused = fill(alloc, table)?;
    let text = format!(in alloc; "{} stubs, refused {refused}\n", table.stubs().len())?;
    out.extend_from_slice(text.as_str().as_bytes())
}

impl Changing for StubTable {
    ghost use Rattle.stub_table.specs.Saved.{TakesBack};
    ghost use Rattle.stub_table.specs.Stubs.{Stubs};

    type Change = Change;

    type Saved = SavedStubs;

    type Fault = StubFault;

    ghost takes_back = { λ saved table. (before : Stubs) × TakesBack saved table before };

    fn change_in(alloc: Global, text: &[u8]) -> Option<Change> {
        change_in(alloc, text)
    }

    fn make(&mut self, new: Change) -> Result<SavedStubs, StubFault> {
        // An arm each, so that the prover sees what the saved value takes back.
        match made(self, new) {
            Ok(saved) => Ok(saved),
            Err(fault) => Err(fault),
        }
    }

    fn take_back(&mut self, saved: &mut SavedStubs) -> Result<(), NoMemory> {
        self.back(saved)
    }

    fn push_rows(&self, _: Global, out: &mut Vec<u8>) -> Result<(), NoMemory> {
        push_list(self, out)
    }

    fn obey_own(&mut self, alloc: Global, line: &[u8], out: &mut Vec<u8>) -> Result<(), NoMemory> {
        let Some((word, rest)) = next_word(line) else {
            return Ok(());
        };
        match word {
            b"new" => {
                drop(mem::replace(self, StubTable::new(alloc)));
                Ok(())
            }
            b"fill" => push_full(alloc, self, out),
            b"closest" => match name_in(alloc, rest) {
                Some(name) => push_closest(self, &name, out),
                None => out.extend_from_slice(b"what?\n"),
            },
            _ => out.extend_from_slice(b"what?\n"),
        }
    }
}
