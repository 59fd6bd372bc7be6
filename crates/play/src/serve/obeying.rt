//! A line is obeyed.

use crate::books::{CELLS, DNS_PORT, begin_book, obey_line};
use crate::said::said_in;
use crate::serve::serving::{serve, serve_pieces, work};
use crate::serve::world::World;
use crate::stop::Stop;
use crate::words::{addrs_in, number_in};
use dns_query::Over;
use log::Log;
use std::alloc::Global;
use std::sync::Wait;

/// Begins with an empty book.
fn begin(alloc: Global, world: &mut World, text: &[u8]) -> Result<(), Stop> {
    let hints = addrs_in(alloc, text)?;
    begin_book(alloc, &mut world.book, hints, DNS_PORT, CELLS)?;
    world.tools.clock.moment = 0;
    world.forget();
    Ok(())
}

/// Obeys a line that says what comes of the next query or stream. False where it is none.
fn is_set(alloc: Global, world: &mut World, line: &[u8]) -> Result<bool, Stop> {
    if let Some(rest) = line.strip_prefix(b"hints") {
        begin(alloc, world, rest)?;
    } else if let Some(rest) = line.strip_prefix(b"at ") {
        world.tools.clock.moment = number_in(rest)?;
    } else if let Some(rest) = line.strip_prefix(b"fails ask ") {
        world.tools.exchange.fail(number_in(rest)?);
    } else if let Some(rest) = line.strip_prefix(b"fails read ") {
        world.read = number_in(rest)?;
    } else if let Some(rest) = line.strip_prefix(b"fails write ") {
        world.write = number_in(rest)?;
    } else if let Some(rest) = line.strip_prefix(b"most ") {
        world.most = number_in(rest)? as usize;
    } else if let Some(said) = said_in(alloc, line)? {
        world.tools.exchange.say(said)?;
    } else {
        return Ok(false);
    }
    Ok(true)
}

/// Obeys a line.
pub fn obey_serve<W: Wait + Log>(
    rt: &HostRuntime,
    waiting: &W,
    world: &mut World,
    line: &[u8],
) -> Result<(), Stop> {
    if is_set(rt.alloc(), world, line)? {
        return Ok(());
    }
    if let Some(digits) = line.strip_prefix(b"udp ") {
        return serve(rt, world, Over::Udp, digits);
    }
    if let Some(digits) = line.strip_prefix(b"tcp ") {
        return serve(rt, world, Over::Tcp, digits);
    }
    if let Some(words) = line.strip_prefix(b"work_udp") {
        return work(rt, waiting, world, Over::Udp, words);
    }
    if let Some(words) = line.strip_prefix(b"work_tcp") {
        return work(rt, waiting, world, Over::Tcp, words);
    }
    if let Some(pieces) = line.strip_prefix(b"stream") {
        return serve_pieces(rt, world, pieces);
    }
    obey_line(rt, &mut world.book, world.tools.clock.moment, line)
}
