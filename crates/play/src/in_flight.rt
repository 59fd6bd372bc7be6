//! Questions in flight over a book of its own: what each line comes to, and then a line `.`.
//!
//! | Line | What it does |
//! |---|---|
//! | `limit N` | begins with an empty book, no servers, and at most N exchanges under way |
//! | `hints ADDR..` | the same with these servers of the root, and as many exchanges as before |
//! | `at N`, `now N` | the moment that the clock gives from here on, in seconds; and that of the worker, in milliseconds |
//! | `fails open N` | the Nth exchange from here on does not begin |
//! | `client N OCTETS` | these octets come from client N |
//! | `look KEY SAID` | an event on a key, and what listening there gives (`said.rt`) |
//! | `expire` | ends the exchanges whose time is up |
//! | `count` | writes `waits N settled N next N`: clients, and milliseconds or `none` |
//! | a line of a script | the book obeys it |
//!
//! It writes `open KEY ADDR udp|tcp OCTETS` for an exchange that begins, and for a client `reply N OCTETS`, `none N`, or
//! `failed N` and why. Octets are hexadecimal digits.

pub mod desk; // a book that numbers its calls
pub mod sockets; // clients and lines, in words
pub mod worker; // the questions in flight, and what they are lent
pub mod obeying; // a line is obeyed

use crate::in_flight::desk::{LineDesk, NumberedBook};
use crate::in_flight::obeying::obey_flight;
use crate::in_flight::worker::Worker;
use crate::lines::{Obeys, obey_input};
use crate::stop::Stop;
use std::io::{BufRead, Write};

/// How many exchanges may be under way before a line says it.
const MOST_EXCHANGES: usize = 512;

impl<D: LineDesk> Obeys for Worker<D> {
    fn obey<I: BufRead>(&mut self, rt: &HostRuntime, _: &mut I, line: &[u8]) -> Result<(), Stop> {
        obey_flight(rt, self, line)?;
        rt.stdout().write_all(self.sockets.told())?;
        self.sockets.forget();
        Ok(rt.stdout().write_all(b".\n")?)
    }
}

fn obey_all<D: LineDesk>(rt: &HostRuntime, desk: D) -> Result<(), Stop> {
    let mut worker = Worker::new(rt.alloc(), desk, MOST_EXCHANGES)?;
    obey_input(rt, &mut worker)
}

/// Obeys lines to questions in flight.
pub fn play_flight(rt: &HostRuntime) -> Result<(), Stop> {
    let desk = NumberedBook::new(rt.alloc())?;
    obey_all(rt, desk)
}
