//! A line is obeyed.

use crate::in_flight::desk::LineDesk;
use crate::in_flight::sockets::Peer;
use crate::in_flight::worker::Worker;
use crate::said::said_in;
use crate::stop::Stop;
use crate::words::{addrs_in, number_and_rest, number_in, octets_in};
use std::alloc::Global;
use std::io::Write;

/// Begins anew with at most so many exchanges.
fn begin<D: LineDesk>(
    alloc: Global,
    worker: &mut Worker<D>,
    limit: u64,
    hints: &[u8],
) -> Result<(), Stop> {
    let Ok(limit) = usize::try_from(limit) else {
        return Err(Stop::Device);
    };
    worker.begin(alloc, limit, addrs_in(alloc, hints)?)
}

/// Obeys a line that says how it goes on from here. False where it is none.
fn is_set<D: LineDesk>(alloc: Global, worker: &mut Worker<D>, line: &[u8]) -> Result<bool, Stop> {
    if let Some(rest) = line.strip_prefix(b"hints") {
        let limit = worker.limit as u64;
        begin(alloc, worker, limit, rest)?;
    } else if let Some(rest) = line.strip_prefix(b"limit ") {
        begin(alloc, worker, number_in(rest)?, b"")?;
    } else if let Some(rest) = line.strip_prefix(b"at ") {
        worker.moment.set(number_in(rest)?);
    } else if let Some(rest) = line.strip_prefix(b"now ") {
        worker.now = number_in(rest)?;
    } else if let Some(rest) = line.strip_prefix(b"network ") {
        worker.network = number_in(rest)?;
    } else if let Some(rest) = line.strip_prefix(b"fails open ") {
        worker.sockets.fail(number_in(rest)?);
    } else {
        return Ok(false);
    }
    Ok(true)
}

/// Octets come from a client.
fn begin_client<D: LineDesk>(
    alloc: Global,
    worker: &mut Worker<D>,
    text: &[u8],
) -> Result<(), Stop> {
    let (number, digits) = number_and_rest(text)?;
    let octets = octets_in(alloc, digits)?;
    worker.flight.begin(
        &mut worker.desk,
        &mut worker.sockets,
        worker.now,
        Peer {
            number,
            network: worker.network,
        },
        octets.as_slice(),
    );
    Ok(())
}

/// An event comes on a key.
fn look<D: LineDesk>(alloc: Global, worker: &mut Worker<D>, text: &[u8]) -> Result<(), Stop> {
    let (key, rest) = number_and_rest(text)?;
    let Ok(key) = usize::try_from(key) else {
        return Err(Stop::Device);
    };
    worker.sockets.said = said_in(alloc, rest)?.ok_or(Stop::Device)?;
    worker
        .flight
        .look(&mut worker.desk, &mut worker.sockets, worker.now, key);
    Ok(())
}

/// Obeys a line to the questions in flight. False where it is none.
fn is_flown<D: LineDesk>(alloc: Global, worker: &mut Worker<D>, line: &[u8]) -> Result<bool, Stop> {
    if let Some(rest) = line.strip_prefix(b"client ") {
        begin_client(alloc, worker, rest)?;
    } else if let Some(rest) = line.strip_prefix(b"look ") {
        look(alloc, worker, rest)?;
    } else if line == b"expire".as_slice() {
        worker
            .flight
            .expire(&mut worker.desk, &mut worker.sockets, worker.now);
    } else if line == b"relieve".as_slice() {
        worker.flight.relieve(&mut worker.sockets);
    } else {
        return Ok(false);
    }
    Ok(true)
}

/// Writes how many clients wait and were settled, and when the next exchange's time is up.
fn tell_count<D: LineDesk>(rt: &HostRuntime, worker: &Worker<D>) -> Result<(), Stop> {
    let waits = worker.flight.outstanding();
    let settled = worker.sockets.counts.settled;
    let line = match worker.flight.next_expiry(worker.now) {
        Some(next) => { format!(in rt.alloc(); "waits {waits} settled {settled} next {next}\n")? }
        None => format!(in rt.alloc(); "waits {waits} settled {settled} next none\n")?,
    };
    Ok(rt.stdout().write_all(line.as_bytes())?)
}

/// Writes how many octets the questions that wait keep.
fn tell_kept<D: LineDesk>(rt: &HostRuntime, worker: &Worker<D>) -> Result<(), Stop> {
    let kept = worker.flight.kept();
    let line = format!(in rt.alloc(); "kept {kept}\n")?;
    Ok(rt.stdout().write_all(line.as_bytes())?)
}

/// Obeys a line.
pub fn obey_flight<D: LineDesk>(
    rt: &HostRuntime,
    worker: &mut Worker<D>,
    line: &[u8],
) -> Result<(), Stop> {
    if is_set(rt.alloc(), worker, line)? || is_flown(rt.alloc(), worker, line)? {
        return Ok(());
    }
    if line == b"count".as_slice() {
        return tell_count(rt, worker);
    }
    if line == b"kept".as_slice() {
        return tell_kept(rt, worker);
    }
    let moment = worker.moment.get();
    worker.desk.obey(rt, moment, line)
}
