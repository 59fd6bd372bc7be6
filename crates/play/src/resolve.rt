//! Questions, resolved one at a time over a book of its own: what each line comes to.
//!
//! | Line | What it does |
//! |---|---|
//! | `port N` | where servers listen whose addresses come from records, from the next `hints` on; else 53 |
//! | `cells N` | the most sets and negative answers that the cache holds, from the next `hints` on; else 100,000 |
//! | `hints ADDR..` | begins with an empty book, whose root has these servers |
//! | `at N` | the moment from here on, in seconds |
//! | `refuse N` | the Nth event that the next task gives the book is refused, as without memory |
//! | `confuse N` | the Nth event that the next task gives the book gets a reply of another kind |
//! | `lie N LINE` | the Nth event gets the reply that what `LINE` admits is cached, or what the book replies now if `LINE` looks |
//! | `ask NAME TYPE` | resolves a question, at the moment of the last `at` |
//! | a line of a script | the book obeys it |
//!
//! A task writes a line for each step that it wants. After `send ADDR udp|tcp OCTETS` it reads a line that says what comes of the
//! query (`said.rt`); one of another kind says that nothing does.

pub mod world; // the book, and how it is asked
pub mod listing; // records in words
pub mod telling; // what a task wants, in words
pub mod asking; // a question is resolved
pub mod lying; // replies that are not true
pub mod obeying; // a line is obeyed

use crate::lines::{Obeys, obey_input};
use crate::resolve::obeying::obey_resolve;
use crate::resolve::world::World;
use crate::stop::Stop;
use std::io::BufRead;

impl Obeys for World {
    fn obey<I: BufRead>(
        &mut self,
        rt: &HostRuntime,
        input: &mut I,
        line: &[u8],
    ) -> Result<(), Stop> {
        obey_resolve(rt, input, self, line)
    }
}

/// Obeys lines, and resolves the questions among them.
pub fn play_resolve(rt: &HostRuntime) -> Result<(), Stop> {
    let mut world = World::new(rt.alloc())?;
    let done = obey_input(rt, &mut world);
    drop(world);
    done
}
