//! Local zones and local data, as a table that lines change.

use crate::changes::Changing;
use crate::questions::question_in;
use crate::zones::change::{Change, change_in, made};
use crate::zones::full::fill_zones;
use crate::zones::shown::{push_answer, push_lists};
use dns_name::NoMemory;
use dns_text::next_word;
use local_zone::{SavedTables, TableFault, ZoneTable};
use std::alloc::Global;
use std::mem;

fn push_count(
    alloc: Global,
    table: &ZoneTable,
    refused: u32,
    out: &mut Vec<u8>,
) -> Result<(), NoMemory> {
    let text = format!(in alloc;
        "{} zones, {} records, refused {refused}\n",
        table.zones().len(),
        table.records().len()
    )?;
    out.extend_from_slice(text.as_str().as_bytes())
}

impl Changing for ZoneTable {
    ghost use Rattle.local_zone.specs.Saved.{TakesBack};
    ghost use Rattle.local_zone.specs.Tables.{Tables};

    type Change = Change;

    type Saved = SavedTables;

    type Fault = TableFault;

    ghost takes_back = { λ saved table. (before : Tables) × TakesBack saved table before };

    fn change_in(alloc: Global, text: &[u8]) -> Option<Change> {
        change_in(alloc, text)
    }

    fn make(&mut self, new: Change) -> Result<SavedTables, TableFault> {
        // An arm each, so that the prover sees what the saved value takes back.
        match made(self, new) {
            Ok(saved) => Ok(saved),
            Err(fault) => Err(fault),
        }
    }

    fn take_back(&mut self, saved: &mut SavedTables) -> Result<(), NoMemory> {
        self.back(saved)
    }

    fn push_rows(&self, alloc: Global, out: &mut Vec<u8>) -> Result<(), NoMemory> {
        push_lists(alloc, self, out)
    }

    fn obey_own(&mut self, alloc: Global, line: &[u8], out: &mut Vec<u8>) -> Result<(), NoMemory> {
        let Some((word, rest)) = next_word(line) else {
            return Ok(());
        };
        match word {
            b"new" => {
                drop(mem::replace(self, ZoneTable::new(alloc)));
                Ok(())
            }
            b"count" => push_count(alloc, self, 0, out),
            b"fill_zones" => {
                let refused = fill_zones(alloc, self);
                push_count(alloc, self, refused, out)
            }
            b"ask" => match question_in(alloc, rest) {
                Some(question) => push_answer(self, &question, out),
                None => out.extend_from_slice(b"what?\n"),
            },
            _ => out.extend_from_slice(b"what?\n"),
        }
    }
}
