//! Replies to events that are not true.

use crate::resolve::world::World;
use crate::stop::Stop;
use command_text::{Channel, Line, LineFault, Request, read_line};
use history::{Ask, Desk, Event, Reply, Seen};
use ranked::{Find, SharedFind, Shown};
use std::alloc::Global;

/// That a find is held.
fn held(alloc: Global, find: Find) -> Result<Reply, Stop> {
    let rank = find.rank;
    let left = find.ttl;
    let body = SharedFind::new(alloc, find)?;
    Ok(Reply::Seen(Seen::Held(Shown { rank, left, body })))
}

/// What the book says now.
fn seen_now(world: &mut World, ask: Ask) -> Result<Reply, Stop> {
    let moment = world.moment;
    match world.book.call(Event::Look { moment, ask }) {
        Ok(reply) => Ok(reply),
        Err(_) => Err(Stop::NoMemory),
    }
}

fn lie_of(alloc: Global, world: &mut World, line: Line) -> Result<Reply, Stop> {
    match line {
        Line::Admit(admission) => held(alloc, admission.into_find()),
        Line::Deny(denial) => held(alloc, denial.into_find()),
        Line::Request(Request::Look(ask)) => seen_now(world, ask),
        other => {
            drop(other);
            Err(Stop::Device)
        }
    }
}

/// The reply of a line: that what it admits is held, or what the book says now where it looks.
pub fn lie_in(alloc: Global, world: &mut World, line: &[u8]) -> Result<Reply, Stop> {
    match read_line(alloc, Channel::Script, line) {
        Ok(line) => lie_of(alloc, world, line),
        Err(LineFault::NoMemory) => Err(Stop::NoMemory),
        Err(_) => Err(Stop::Device),
    }
}
