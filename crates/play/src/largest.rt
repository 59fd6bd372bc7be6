//! The largest sizes: lines over the book that keeps no history, made with the largest settings. `play largest ADDR..` says the
//! servers of its root.
//!
//! | Line | What it does |
//! |---|---|
//! | `script` | the book obeys the lines that follow as one script, up to a line `.` |
//! | `at N` | the moment of the queries that follow |
//! | `came OCTETS`, `asked OCTETS`, `failed`, `no_memory` | what comes of the next query to a name server, behind those that earlier lines said (`said.rt`) |
//! | `udp OCTETS` | serves a query |
//! | `stream PIECE..` | serves a stream, of which each read gives a piece at most |
//! | `message OCTETS` | reads a message, and writes it again |
//! | `workers TEXT.. TEXT` | at the end of the input, workers share another such book. Each obeys a text of control lines in a thread of its own; the last text follows once all have ended |
//!
//! A script writes its replies, a query and a stream what `play serve` writes, and a message `octets OCTETS`. `workers` writes
//! `wrote OCTETS` for each text. Octets are hexadecimal digits, and so are the texts.

ghost use Rattle.std.specs.Prelude.{[], IfOk};
ghost use Rattle.shared_book.specs.Fresh.{CanShare};

pub mod messages; // a message is read and written again
pub mod sharing; // a book that workers share
pub mod workers; // workers in threads
pub mod obeying; // a line is obeyed

use crate::books::DNS_PORT;
use crate::largest::obeying::obey_largest;
use crate::largest::sharing::work_in_threads;
use crate::lines::{Obeys, obey_input};
use crate::serve::world::{LineTools, new_tools};
use crate::stop::Stop;
use crate::words::addr_in;
use dns_text::{Addr, Items};
use history::{Book, MOST_CELLS, MOST_COMMANDS, MakeFault, Settings};
use std::alloc::Global;
use std::io::BufRead;
use std::sync::Wait;
use std::thread::Threads;
use undo_book::ShelfBook;

/// A book, what is lent with it, and the texts of the workers once a line has said them.
#[derive(Drop)]
struct LentBook<'a, B: Book> {
    book: &'a mut B,
    tools: &'a mut LineTools,
    texts: &'a mut Vec<u8>,
}

impl<'a, B: Book> Obeys for LentBook<'a, B> {
    fn obey<I: BufRead>(
        &mut self,
        rt: &HostRuntime,
        input: &mut I,
        line: &[u8],
    ) -> Result<(), Stop> {
        obey_largest(rt, self.book, self.tools, self.texts, input, line)
    }
}

/// An empty book with the largest settings, whose root has these servers.
pub fn largest_book(alloc: Global, hints: Vec<Addr>) -> Result<ShelfBook, Stop>
    ensures { IfOk result (λ book. ⟦<ShelfBook as Book>⟧.stands_for book []) }
{
    match ShelfBook::new(alloc, largest_settings(hints)) {
        Ok(book) => Ok(book),
        Err(fault) => Err(stop_of(fault)),
    }
}

/// The same without hints, and an opening book to it.
pub fn largest_books(alloc: Global) -> Result<(ShelfBook, ShelfBook), Stop>
    ensures { IfOk result (λ b. CanShare ⟦<ShelfBook as Book>⟧.stands_for ⟦<ShelfBook as Book>⟧.settings b.0 b.1) }
{
    let settings = largest_settings(Vec::new(alloc));
    let opening = match ShelfBook::lagging(alloc, &settings) {
        Ok(opening) => opening,
        Err(fault) => return Err(stop_of(fault)),
    };
    match ShelfBook::new(alloc, settings) {
        Ok(book) => Ok((book, opening)),
        Err(fault) => {
            drop(opening);
            Err(stop_of(fault))
        }
    }
}

fn largest_settings(hints: Vec<Addr>) -> Settings {
    Settings {
        journal: MOST_COMMANDS,
        cells: MOST_CELLS,
        hints: Items::new(hints),
        server_port: DNS_PORT,
    }
}

fn stop_of(fault: MakeFault) -> Stop {
    match fault {
        MakeFault::BadSettings => Stop::Device,
        MakeFault::NoMemory => Stop::NoMemory,
    }
}

/// The servers that the words say.
fn servers_in(alloc: Global, words: &[String]) -> Result<Vec<Addr>, Stop> {
    let mut servers = Vec::new(alloc);
    for word in words {
        servers.push(addr_in(word.as_bytes())?)?;
    }
    Ok(servers)
}

/// Obeys lines at a book of the largest settings, whose root has the servers that the words say.
pub fn play_largest<W: Threads + Wait + Sync>(
    rt: &HostRuntime,
    waiting: &W,
    words: &[String],
) -> Result<(), Stop> {
    let servers = servers_in(rt.alloc(), words)?;
    let mut book = largest_book(rt.alloc(), servers)?;
    let mut tools = new_tools(rt.alloc());
    let mut texts = Vec::new(rt.alloc());
    let done = obey_input(
        rt,
        &mut LentBook {
            book: &mut book,
            tools: &mut tools,
            texts: &mut texts,
        },
    );
    drop(book);
    drop(tools);
    done?;
    if texts.is_empty() {
        return Ok(());
    }
    work_in_threads(rt, waiting, texts.as_slice())
}
