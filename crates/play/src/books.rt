//! A book, and lines of a script for it.

use crate::stop::Stop;
use command_text::run_script;
use dns_text::{Addr, Items};
use history::Settings;
use std::alloc::Global;
use std::mem;
use streams::{CountedReader, CountedWriter};
use undo_book::PlainBook;

/// Where servers listen whose addresses come from records (RFC 1035, section 4.2), unless a line says otherwise.
pub const DNS_PORT: u16 = 53;

/// The most sets and negative answers that the cache holds, unless a line says otherwise.
pub const CELLS: usize = 100_000;

/// An empty book whose root has these servers, the port of servers whose addresses come from records, and the limit of cells.
pub fn book_with(
    alloc: Global,
    hints: Vec<Addr>,
    port: u16,
    cells: usize,
) -> Result<PlainBook, Stop> {
    let settings = Settings {
        journal: 64,
        cells,
        hints: Items::new(hints),
        server_port: port,
    };
    match PlainBook::new(alloc, settings) {
        Ok(book) => Ok(book),
        Err(_) => Err(Stop::NoMemory),
    }
}

/// Begins anew with an empty book. The old one is dropped by a call, since the prover follows any other drop field by field.
pub fn begin_book(
    alloc: Global,
    book: &mut PlainBook,
    hints: Vec<Addr>,
    port: u16,
    cells: usize,
) -> Result<(), Stop> {
    let new = book_with(alloc, hints, port, cells)?;
    drop(mem::replace(book, new));
    Ok(())
}

/// Hands a line of a script to a book after a line with the moment, and writes the replies to both.
pub fn obey_line(
    rt: &HostRuntime,
    book: &mut PlainBook,
    moment: u64,
    line: &[u8],
) -> Result<(), Stop> {
    let mut script = format!(in rt.alloc(); "at {moment}\n")?.into_bytes();
    script.extend_from_slice(line)?;
    let mut reader = CountedReader::new(script.as_slice());
    let mut writer = CountedWriter::new(rt.stdout());
    match run_script(rt.alloc(), book, &mut reader, &mut writer) {
        Ok(()) => Ok(()),
        Err(_) => Err(Stop::Device),
    }
}
