//! A book that numbers its calls.

use crate::books::{CELLS, DNS_PORT, begin_book, book_with, obey_line};
use crate::stop::Stop;
use dns_text::Addr;
use flight::Numbered;
use history::{Desk, DeskFault, Event, Reply};
use std::alloc::Global;
use undo_book::PlainBook;

/// A desk that obeys lines.
pub trait LineDesk: Numbered + Drop {
    /// Begins anew with an empty book whose root has these servers.
    fn begin(&mut self, alloc: Global, hints: Vec<Addr>) -> Result<(), Stop>;

    /// Hands a line of a script to the book after a line with the moment, and writes the replies to both.
    fn obey(&mut self, rt: &HostRuntime, moment: u64, line: &[u8]) -> Result<(), Stop>;
}

/// A book, and how many calls of it were made.
#[derive(Drop)]
pub struct NumberedBook {
    book: PlainBook,
    calls: u64,
}

impl NumberedBook {
    /// An empty book whose root has no servers.
    pub fn new(alloc: Global) -> Result<NumberedBook, Stop> {
        Ok(NumberedBook {
            book: book_with(alloc, Vec::new(alloc), DNS_PORT, CELLS)?,
            calls: 0,
        })
    }
}

impl Desk for NumberedBook {
    ghost calls = { λ _ _ _ _. Unit {0} };

    fn call(&mut self, event: Event) -> Result<Reply, DeskFault> {
        self.calls = self.calls.wrapping_add(1);
        self.book.call(event)
    }
}

impl Numbered for NumberedBook {
    ghost seen = { λ desk. desk.calls };

    ghost puts_off = { λ _ _. ⊥ };

    fn seen(&self) -> u64 {
        self.calls
    }
}

impl LineDesk for NumberedBook {
    fn begin(&mut self, alloc: Global, hints: Vec<Addr>) -> Result<(), Stop> {
        begin_book(alloc, &mut self.book, hints, DNS_PORT, CELLS)
    }

    fn obey(&mut self, rt: &HostRuntime, moment: u64, line: &[u8]) -> Result<(), Stop> {
        obey_line(rt, &mut self.book, moment, line)
    }
}
