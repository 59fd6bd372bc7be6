//! Queries and streams are served.

use crate::queries::push_digits;
use crate::serve::coming::Arrivals;
use crate::serve::pieces::{PieceReader, PieceWriter};
use crate::serve::world::{LineTools, World};
use crate::stop::Stop;
use crate::words::{octets_in, pieces_in};
use dns_query::Over;
use history::Desk;
use log::Log;
use plain_workers::{WorkEnd, serve_query, serve_stream, work_tcp, work_udp};
use replies::StreamFault;
use std::alloc::Global;
use std::io::Write;
use std::sync::Wait;
use streams::{CountedReader, CountedWriter};

/// Writes a word and octets.
pub fn tell_octets(rt: &HostRuntime, word: &[u8], octets: &[u8]) -> Result<(), Stop> {
    let mut line = Vec::from_slice(rt.alloc(), word)?;
    line.push(b' ')?;
    push_digits(octets, &mut line)?;
    line.push(b'\n')?;
    Ok(rt.stdout().write_all(line.as_slice())?)
}

/// Writes the queries to name servers, which then begin anew.
fn tell_asked(rt: &HostRuntime, tools: &mut LineTools) -> Result<(), Stop> {
    rt.stdout().write_all(tools.exchange.asked())?;
    tools.exchange.forget();
    Ok(())
}

/// Serves a query at a desk.
pub fn serve_at<D: Desk>(
    rt: &HostRuntime,
    desk: &mut D,
    tools: &mut LineTools,
    over: Over,
    digits: &[u8],
) -> Result<(), Stop> {
    let octets = octets_in(rt.alloc(), digits)?;
    let reply = serve_query(rt.alloc(), desk, tools, over, octets.as_slice());
    tell_asked(rt, tools)?;
    match reply {
        Ok(Some(out)) => tell_octets(rt, b"reply", out.as_slice()),
        Ok(None) => Ok(rt.stdout().write_all(b"none\n")?),
        Err(_) => Ok(rt.stdout().write_all(b"no_memory\n")?),
    }
}

/// Serves a query.
pub fn serve(rt: &HostRuntime, world: &mut World, over: Over, digits: &[u8]) -> Result<(), Stop> {
    serve_at(rt, &mut world.book, &mut world.tools, over, digits)?;
    world.forget();
    Ok(())
}

/// How a stream ended.
fn end_words(end: Result<(), StreamFault>) -> &'static [u8] {
    match end {
        Ok(()) => b"ended\n",
        Err(StreamFault::Read) => b"read\n",
        Err(StreamFault::Write) => b"write\n",
        Err(StreamFault::Short) => b"short\n",
        Err(StreamFault::NoMemory) => b"no_memory\n",
    }
}

/// Serves a stream, and returns how it ended.
fn serve_whole<D: Desk>(
    alloc: Global,
    desk: &mut D,
    tools: &mut LineTools,
    pieces: PieceReader,
    out: &mut PieceWriter,
) -> Result<(), StreamFault> {
    let mut reader = CountedReader::new(pieces);
    let mut writer = CountedWriter::new(out);
    serve_stream(alloc, desk, tools, &mut reader, &mut writer)
}

/// Serves a stream of pieces at a desk.
pub fn serve_pieces_at<D: Desk>(
    rt: &HostRuntime,
    desk: &mut D,
    tools: &mut LineTools,
    pieces: PieceReader,
    out: &mut PieceWriter,
) -> Result<(), Stop> {
    let end = serve_whole(rt.alloc(), desk, tools, pieces, out);
    tell_asked(rt, tools)?;
    tell_octets(rt, b"wrote", out.octets.as_slice())?;
    Ok(rt.stdout().write_all(end_words(end))?)
}

/// Serves a stream of pieces.
pub fn serve_pieces(rt: &HostRuntime, world: &mut World, text: &[u8]) -> Result<(), Stop> {
    let pieces = PieceReader::new(pieces_in(rt.alloc(), text)?, world.read);
    let mut out = PieceWriter::new(rt.alloc(), world.most, world.write);
    serve_pieces_at(rt, &mut world.book, &mut world.tools, pieces, &mut out)?;
    world.forget();
    Ok(())
}

/// A worker serves what comes.
pub fn work<W: Wait + Log>(
    rt: &HostRuntime,
    waiting: &W,
    world: &mut World,
    over: Over,
    text: &[u8],
) -> Result<(), Stop> {
    let mut arrivals = Arrivals::new(rt, text)?;
    let (book, tools) = (&mut world.book, &mut world.tools);
    let end = match over {
        Over::Udp => work_udp(waiting, rt.alloc(), book, &mut arrivals, tools),
        Over::Tcp => work_tcp(waiting, rt.alloc(), book, &mut arrivals, tools),
    };
    tell_asked(rt, &mut world.tools)?;
    world.forget();
    let word = match end {
        WorkEnd::Ended => "ended",
        WorkEnd::Failing => "failing",
    };
    let line = format!(in rt.alloc(); "{word} {}\n", arrivals.left())?;
    Ok(rt.stdout().write_all(line.as_bytes())?)
}
