//! The book, and what is lent with it.

ghost use Rattle.std.specs.Prelude.{◌≡◌};

use crate::books::{CELLS, DNS_PORT, book_with};
use crate::serve::exchange::Servers;
use crate::stop::Stop;
use clock::Clock;
use plain_workers::Tools;
use rand_pcg::Pcg32;
use std::alloc::Global;
use undo_book::PlainBook;

/// A clock that tells what a line said.
#[derive(Drop)]
pub struct LineClock {
    /// In seconds.
    pub moment: u64,
}

impl Clock for LineClock {
    ghost ticks = { λ old moment new. (moment ≡ old.moment) × (new ≡ old) };

    fn now(&mut self) -> u64 {
        self.moment
    }
}

/// What is lent with a book.
pub type LineTools = Tools<Servers, LineClock, Pcg32>;

/// Name servers that have nothing to say, and a clock at 0.
pub fn new_tools(alloc: Global) -> LineTools {
    Tools {
        exchange: Servers::new(alloc),
        clock: LineClock { moment: 0 },
        ids: Pcg32::new(1, 1),
        server_port: DNS_PORT,
    }
}

/// A book, what is lent with it, and which calls for the next query or stream fail.
#[derive(Drop)]
pub struct World {
    pub book: PlainBook,
    pub tools: LineTools,
    /// Which read and which write fails; 0 for none.
    pub read: u64,
    pub write: u64,
    /// How many octets a write takes at most.
    pub most: usize,
}

impl World {
    pub fn new(alloc: Global) -> Result<World, Stop> {
        Ok(World {
            book: book_with(alloc, Vec::new(alloc), DNS_PORT, CELLS)?,
            tools: new_tools(alloc),
            read: 0,
            write: 0,
            most: usize::MAX,
        })
    }

    /// Nothing fails that a line doesn't say anew, and nothing is said by servers.
    pub fn forget(&mut self) {
        self.tools.exchange.forget();
        self.read = 0;
        self.write = 0;
        self.most = usize::MAX;
    }
}
