//! The questions in flight, and what they are lent.

use crate::books::DNS_PORT;
use crate::in_flight::desk::LineDesk;
use crate::in_flight::sockets::{Peer, PlayedSockets, Wire};
use crate::stop::Stop;
use clock::Clock;
use dns_text::Addr;
use flight::Flight;
use rand_pcg::Pcg32;
use std::alloc::Global;
use std::cell::Cell;
use std::sync::Arc;

/// A clock that tells what a line said last.
#[derive(Drop)]
pub struct LineClock {
    /// In seconds.
    moment: Arc<Cell<u64>>,
}

impl Clock for LineClock {
    ghost ticks = { λ _ _ _. Unit {0} };

    fn now(&mut self) -> u64 {
        self.moment.get()
    }
}

/// The questions of a desk that are in flight.
pub type LineFlight<D> = Flight<D, Wire, LineClock, Pcg32, Peer>;

/// A worker without sockets.
#[derive(Drop)]
pub struct Worker<D: LineDesk> {
    pub desk: D,
    pub flight: LineFlight<D>,
    pub sockets: PlayedSockets,
    /// How many exchanges may be under way.
    pub limit: usize,
    /// In milliseconds.
    pub now: u64,
    /// The network of the clients that come.
    pub network: u64,
    /// What the clock tells, in seconds.
    pub moment: Arc<Cell<u64>>,
}

/// None in flight, and at most so many exchanges.
fn new_flight<D: LineDesk>(
    alloc: Global,
    moment: &Arc<Cell<u64>>,
    limit: usize,
) -> Result<LineFlight<D>, Stop> {
    let clock = LineClock {
        moment: Arc::try_clone(moment)?,
    };
    Ok(Flight::new(alloc, clock, Pcg32::new(1, 1), limit))
}

impl<D: LineDesk> Worker<D> {
    /// A worker with nothing in flight, and at most so many exchanges.
    pub fn new(alloc: Global, desk: D, limit: usize) -> Result<Worker<D>, Stop> {
        let moment = Arc::new(alloc, Cell::new(0u64))?;
        let flight = new_flight(alloc, &moment, limit)?;
        Ok(Worker {
            desk,
            flight,
            sockets: PlayedSockets::new(alloc, DNS_PORT)?,
            limit,
            now: 0,
            network: 0,
            moment,
        })
    }

    /// Begins anew, with at most so many exchanges, and an empty book whose root has these servers.
    pub fn begin(&mut self, alloc: Global, limit: usize, hints: Vec<Addr>) -> Result<(), Stop> {
        self.desk.begin(alloc, hints)?;
        self.flight = new_flight(alloc, &self.moment, limit)?;
        self.limit = limit;
        self.now = 0;
        self.network = 0;
        self.moment.set(0);
        self.sockets.begin();
        Ok(())
    }
}
