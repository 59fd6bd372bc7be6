//! A line is obeyed.

use crate::books::{begin_book, obey_line};
use crate::questions::question_in;
use crate::resolve::asking::ask;
use crate::resolve::lying::lie_in;
use crate::resolve::world::World;
use crate::said::said_in;
use crate::stop::Stop;
use crate::words::{addrs_in, number_and_rest, number_in};
use std::io::BufRead;
use std::mem;

/// A port.
fn port_in(text: &[u8]) -> Result<u16, Stop> {
    match u16::try_from(number_in(text)?) {
        Ok(port) => Ok(port),
        Err(_) => Err(Stop::Device),
    }
}

/// A limit of cells. No cache has room for none.
fn cells_in(text: &[u8]) -> Result<usize, Stop> {
    match usize::try_from(number_in(text)?) {
        Ok(cells) if cells > 0 => Ok(cells),
        _ => Err(Stop::Device),
    }
}

/// Which event is lied to, and what it is told.
fn obey_lie(rt: &HostRuntime, world: &mut World, text: &[u8]) -> Result<(), Stop> {
    let (nth, line) = number_and_rest(text)?;
    let lie = lie_in(rt.alloc(), world, line)?;
    drop(mem::replace(&mut world.lie, lie));
    world.lied = nth;
    Ok(())
}

/// Begins with an empty book.
fn begin(rt: &HostRuntime, world: &mut World, text: &[u8]) -> Result<(), Stop> {
    let hints = addrs_in(rt.alloc(), text)?;
    begin_book(rt.alloc(), &mut world.book, hints, world.port, world.cells)?;
    world.moment = 0;
    Ok(())
}

/// Obeys a line that says how the next task is answered. False where it is none.
fn is_set(rt: &HostRuntime, world: &mut World, line: &[u8]) -> Result<bool, Stop> {
    if let Some(rest) = line.strip_prefix(b"hints") {
        begin(rt, world, rest)?;
    } else if let Some(rest) = line.strip_prefix(b"port ") {
        world.port = port_in(rest)?;
    } else if let Some(rest) = line.strip_prefix(b"cells ") {
        world.cells = cells_in(rest)?;
    } else if let Some(rest) = line.strip_prefix(b"at ") {
        world.moment = number_in(rest)?;
    } else if let Some(rest) = line.strip_prefix(b"refuse ") {
        world.refused = number_in(rest)?;
    } else if let Some(rest) = line.strip_prefix(b"confuse ") {
        world.confused = number_in(rest)?;
    } else if let Some(rest) = line.strip_prefix(b"lie ") {
        obey_lie(rt, world, rest)?;
    } else {
        return Ok(false);
    }
    Ok(true)
}

/// Obeys a line.
pub fn obey_resolve<I: BufRead>(
    rt: &HostRuntime,
    input: &mut I,
    world: &mut World,
    line: &[u8],
) -> Result<(), Stop> {
    // What comes of a query that no task sent is passed over.
    if said_in(rt.alloc(), line)?.is_some() || is_set(rt, world, line)? {
        return Ok(());
    }
    if let Some(rest) = line.strip_prefix(b"ask ") {
        let question = question_in(rt.alloc(), rest).ok_or(Stop::Device)?;
        ask(rt, input, world, question)?;
        world.forget();
        return Ok(());
    }
    obey_line(rt, &mut world.book, world.moment, line)
}
