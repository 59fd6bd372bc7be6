//! A worker without sockets: a desk, the questions in flight, and what they are lent.

use crate::internet::Internet;
use crate::outside::{Asker, Network, SetClock, Wire};
use crate::queries::write_query;
use flight::{Flight, Numbered};
use history::{Command, Event};
use rand_pcg::Pcg32;
use ranked::SharedFind;
use std::alloc::Global;
use std::cell::Cell;
use std::sync::Arc;

/// How many exchanges may be under way.
const MOST_EXCHANGES: usize = 512;

/// A desk, and the questions of its clients.
#[derive(Drop)]
pub struct Worker<D: Numbered + Drop> {
    alloc: Global,
    pub desk: D,
    flight: Flight<D, Wire, SetClock, Pcg32, Asker>,
    pub network: Network,
    /// In seconds.
    moment: Arc<Cell<u64>>,
    clients: u64,
    query: Vec<u8>,
}

impl<D: Numbered + Drop> Worker<D> {
    /// A worker to which no question came.
    pub fn new(
        alloc: Global,
        desk: D,
        seed: u32,
        internet: Option<Internet>,
    ) -> anyhow::Result<Worker<D>> {
        let moment = Arc::new(alloc, Cell::new(0u64))?;
        let clock = SetClock {
            moment: Arc::try_clone(&moment)?,
        };
        let ids = Pcg32::new(u64::from(seed), 5);
        Ok(Worker {
            alloc,
            desk,
            flight: Flight::new(alloc, clock, ids, MOST_EXCHANGES),
            network: Network::new(alloc, internet),
            moment,
            clients: 0,
            query: Vec::new(alloc),
        })
    }

    /// Sets the clock.
    pub fn set_moment(&mut self, moment: u64) {
        self.moment.set(moment);
    }

    /// What the clock says, in seconds.
    pub fn moment(&self) -> u64 {
        self.moment.get()
    }

    /// The number of exchanges under way.
    pub fn outstanding(&self) -> usize {
        self.flight.outstanding()
    }

    /// A client asks for a name and type.
    pub fn ask(&mut self, rng: &mut Pcg32, spelled: &[u8], kind: u16) -> anyhow::Result<()> {
        self.clients = self.clients.wrapping_add(1);
        write_query(&mut self.query, rng, spelled, kind)?;
        self.flight.begin(
            &mut self.desk,
            &mut self.network,
            self.moment.get().wrapping_mul(1_000),
            Asker {
                number: self.clients,
            },
            self.query.as_slice(),
        );
        Ok(())
    }

    /// Listens to the exchange that began first of those that were not listened to yet. False if there is none.
    pub fn listen(&mut self) -> bool {
        let Some(key) = self.network.keys.pop_front() else {
            return false;
        };
        let now = self.moment.get().wrapping_mul(1_000);
        self.flight
            .look(&mut self.desk, &mut self.network, now, key);
        true
    }

    /// Caches a find.
    pub fn admit(&mut self, find: SharedFind) -> anyhow::Result<()> {
        let moment = self.moment.get();
        self.call(Event::Admit { moment, find })
    }

    /// Gives a command.
    pub fn command(&mut self, command: Command) -> anyhow::Result<()> {
        let moment = self.moment.get();
        self.call(Event::Do { moment, command })
    }

    /// Hands an event to the desk. Its reply is dropped by a call, since the prover follows any other drop variant by variant.
    pub fn call(&mut self, event: Event) -> anyhow::Result<()> {
        let reply = self.desk.call(event)?;
        let noted = self.network.digest.reply(self.alloc, &reply);
        drop(reply);
        Ok(noted?)
    }
}
