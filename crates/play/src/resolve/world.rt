//! The book, and how it is asked.

ghost use Rattle.iterate.specs.Phase.{Suits};
ghost use Rattle.iterate.specs.declared.want.Want.TheVariants.{Book as BookWant};

use crate::books::{CELLS, DNS_PORT, book_with};
use crate::stop::Stop;
use history::{Desk, DeskFault, Event, Reply, StepFault};
use iterate::{AskFault, Input};
use rand_pcg::Pcg32;
use std::alloc::Global;
use std::mem;
use undo_book::PlainBook;

/// A book, and how the next task is answered.
#[derive(Drop)]
pub struct World {
    pub book: PlainBook,
    /// Where servers listen whose addresses come from records.
    pub port: u16,
    /// The most sets and negative answers that the cache holds.
    pub cells: usize,
    /// In seconds.
    pub moment: u64,
    pub ids: Pcg32,
    /// How many events the task gave so far.
    pub calls: u64,
    /// Which of them is not taken; 0 for none.
    pub refused: u64,
    /// Which of them gets a reply of another kind; 0 for none.
    pub confused: u64,
    /// Which of them gets the reply in `lie`; 0 for none.
    pub lied: u64,
    pub lie: Reply,
}

impl World {
    pub fn new(alloc: Global) -> Result<World, Stop> {
        Ok(World {
            book: book_with(alloc, Vec::new(alloc), DNS_PORT, CELLS)?,
            port: DNS_PORT,
            cells: CELLS,
            moment: 0,
            ids: Pcg32::new(1, 1),
            calls: 0,
            refused: 0,
            confused: 0,
            lied: 0,
            lie: Reply::Swept,
        })
    }

    /// What comes of an event.
    pub fn call(&mut self, event: Event) -> Input
        ensures { Suits (BookWant event) result }
    {
        self.calls = self.calls.wrapping_add(1);
        // Calls drop the event: the prover follows any other drop variant by variant.
        if self.calls == self.refused {
            drop(event);
            return Input::Refused(AskFault::Desk(DeskFault::Step(StepFault::NoMemory)));
        }
        if self.calls == self.confused {
            drop(event);
            return Input::Reply(Reply::Swept);
        }
        if self.calls == self.lied {
            drop(event);
            return Input::Reply(mem::replace(&mut self.lie, Reply::Swept));
        }
        match self.book.call(event) {
            Ok(reply) => Input::Reply(reply),
            Err(fault) => Input::Refused(AskFault::Desk(fault)),
        }
    }

    /// The next task is answered by the book alone.
    pub fn forget(&mut self) {
        self.calls = 0;
        self.refused = 0;
        self.confused = 0;
        self.lied = 0;
    }
}
