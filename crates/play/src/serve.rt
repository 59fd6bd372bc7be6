//! Queries, streams and workers, served over a book of its own: what each line comes to.
//!
//! | Line | What it does |
//! |---|---|
//! | `hints ADDR..` | begins with an empty book, whose root has these servers |
//! | `at N` | the moment that the clock gives from here on |
//! | `came OCTETS`, `asked OCTETS`, `failed`, `no_memory` | what comes of the next query to a name server, behind those that earlier lines said (`said.rt`) |
//! | `fails ask N`, `fails read N`, `fails write N` | the Nth of these calls for the next query or stream fails |
//! | `most N` | a write for the next stream takes so many octets at most |
//! | `udp OCTETS`, `tcp OCTETS` | serves a query |
//! | `work_udp WORD..` | a worker serves what comes: octets of a datagram each, `failed` or `no_memory` |
//! | `work_tcp WORD..` | the same, of connections: the octets are all that is read of one |
//! | `stream PIECE..` | serves a stream, of which each read gives a piece at most; `-` is a piece of no octets |
//! | a line of a script | the book obeys it |
//!
//! For a query it writes `send ADDR udp|tcp OCTETS` for each query to a name server, and then `reply OCTETS`, `none`, or
//! `no_memory`; for a stream the same queries, `wrote OCTETS`, and how it ended. A worker's replies are `gave OCTETS` or
//! `wrote OCTETS`, and after the queries comes `ended` or `failing`, with the number of words that were left. Octets are
//! hexadecimal digits.

pub mod exchange; // name servers that say what lines said
pub mod world; // the book, and what is lent with it
pub mod pieces; // a stream in pieces
pub mod coming; // what comes to a worker
pub mod serving; // queries and streams are served
pub mod obeying; // a line is obeyed

use crate::lines::{Obeys, obey_input};
use crate::serve::obeying::obey_serve;
use crate::serve::world::World;
use crate::stop::Stop;
use log::Log;
use std::io::BufRead;
use std::sync::Wait;

/// The book and what is lent with it, and what a worker waits by.
#[derive(Drop)]
struct Waiting<'a, W> {
    world: &'a mut World,
    waiting: &'a W,
}

impl<'a, W: Wait + Log> Obeys for Waiting<'a, W> {
    fn obey<I: BufRead>(&mut self, rt: &HostRuntime, _: &mut I, line: &[u8]) -> Result<(), Stop> {
        obey_serve(rt, self.waiting, self.world, line)
    }
}

/// Obeys lines, and serves the queries and streams among them.
pub fn play_serve<W: Wait + Log>(rt: &HostRuntime, waiting: &W) -> Result<(), Stop> {
    let mut world = World::new(rt.alloc())?;
    let done = obey_input(
        rt,
        &mut Waiting {
            world: &mut world,
            waiting,
        },
    );
    drop(world);
    done
}
