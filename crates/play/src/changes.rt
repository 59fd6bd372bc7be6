//! Changes of a table that a line keeps, or takes back.

ghost use Rattle.std.specs.Prelude.{IfOk};

use crate::lines::{Obeys, obey_input};
use crate::stop::Stop;
use dns_name::NoMemory;
use dns_text::next_word;
use std::alloc::Global;
use std::fmt::Display;
use std::io::{BufRead, Write};

/// A table that lines change.
pub trait Changing: Drop {
    /// The change that a line asks for.
    type Change: Drop;

    /// What takes a change back.
    type Saved: Drop;

    /// Why the table does not allow a change.
    type Fault: Display + Drop;

    /// The saved value takes back the last change of this table.
    ghost takes_back: { Self.Saved → Self → Type 0 };

    /// The change that a text asks for.
    fn change_in(alloc: Global, text: &[u8]) -> Option<Self::Change>;

    /// Makes a change.
    fn make(&mut self, new: Self::Change) -> Result<Self::Saved, Self::Fault>
        ensures { IfOk result (λ saved. takes_back saved self.new) };

    /// Takes the last change back.
    fn take_back(&mut self, saved: &mut Self::Saved) -> Result<(), NoMemory>
        requires { takes_back saved.old self.old };

    /// Writes what the table has.
    fn push_rows(&self, alloc: Global, out: &mut Vec<u8>) -> Result<(), NoMemory>;

    /// Obeys a line that only this table knows.
    fn obey_own(&mut self, alloc: Global, line: &[u8], out: &mut Vec<u8>) -> Result<(), NoMemory>;
}

/// Writes why a change is not made.
fn push_fault<F: Display + Drop>(
    alloc: Global,
    fault: F,
    out: &mut Vec<u8>,
) -> Result<(), NoMemory> {
    let text = format!(in alloc; "{fault}\n")?;
    out.extend_from_slice(text.as_str().as_bytes())
}

/// Writes what the table has, and takes the last change back.
fn show_and_take_back<T: Changing>(
    alloc: Global,
    table: &mut T,
    saved: &mut T::Saved,
    out: &mut Vec<u8>,
) -> Result<(), NoMemory>
    requires { T.takes_back saved.old table.old }
{
    table.push_rows(alloc, out)?;
    table.take_back(saved)
}

/// Makes the change that a text asks for. It is taken back at once unless it is `kept`.
fn obey_change<T: Changing>(
    alloc: Global,
    table: &mut T,
    kept: bool,
    text: &[u8],
    out: &mut Vec<u8>,
) -> Result<(), NoMemory> {
    let Some(new) = T::change_in(alloc, text) else {
        return out.extend_from_slice(b"what?\n");
    };
    match table.make(new) {
        Ok(mut saved) => {
            let done = if kept {
                Ok(())
            } else {
                show_and_take_back(alloc, table, &mut saved, out)
            };
            // A call drops it: the prover follows any other drop variant by variant.
            drop(saved);
            done
        }
        Err(fault) => push_fault(alloc, fault, out),
    }
}

/// Does what a line says, and writes what became of it.
fn obey_line<T: Changing>(
    alloc: Global,
    table: &mut T,
    line: &[u8],
    out: &mut Vec<u8>,
) -> Result<(), NoMemory> {
    let Some((word, rest)) = next_word(line) else {
        return Ok(());
    };
    match word {
        b"#" => Ok(()),
        b"do" => obey_change(alloc, table, true, rest, out),
        b"undo" => obey_change(alloc, table, false, rest, out),
        b"list" => table.push_rows(alloc, out),
        _ => table.obey_own(alloc, line, out),
    }
}

/// A table whose lines come from standard input.
#[derive(Drop)]
struct Played<T> {
    table: T,
}

impl<T: Changing> Obeys for Played<T> {
    fn obey<I: BufRead>(&mut self, rt: &HostRuntime, _: &mut I, line: &[u8]) -> Result<(), Stop> {
        let mut out = Vec::new(rt.alloc());
        obey_line(rt.alloc(), &mut self.table, line, &mut out)?;
        Ok(rt.stdout().write_all(out.as_slice())?)
    }
}

/// Obeys lines over a table.
pub fn play_changes<T: Changing>(rt: &HostRuntime, table: T) -> Result<(), Stop> {
    let mut played = Played { table };
    let done = obey_input(rt, &mut played);
    drop(played);
    done
}
