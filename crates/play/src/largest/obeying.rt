//! A line is obeyed.

use crate::largest::messages::write_again;
use crate::said::said_in;
use crate::serve::pieces::{PieceReader, PieceWriter};
use crate::serve::serving::{serve_at, serve_pieces_at};
use crate::serve::world::LineTools;
use crate::stop::Stop;
use crate::words::{next_line, number_in, pieces_in};
use command_text::run_script;
use dns_query::Over;
use history::Book;
use std::alloc::Global;
use std::io::BufRead;
use streams::{CountedReader, CountedWriter};

/// Adds the next line to a script. False if there is none, or if it is a `.`.
fn gather_line<I: BufRead>(
    input: &mut I,
    line: &mut Vec<u8>,
    script: &mut Vec<u8>,
) -> Result<bool, Stop> {
    if !next_line(input, line)? || line.as_slice() == b".".as_slice() {
        return Ok(false);
    }
    script.extend_from_slice(line.as_slice())?;
    script.push(b'\n')?;
    Ok(true)
}

/// The lines up to a line `.`, or to the end of the input.
fn gathered<I: BufRead>(alloc: Global, input: &mut I) -> Result<Vec<u8>, Stop> {
    let mut script = Vec::new(alloc);
    let mut line = Vec::new(alloc);
    for _ in 0..u64::MAX {
        if !gather_line(input, &mut line, &mut script)? {
            break;
        }
    }
    Ok(script)
}

/// Obeys a script, and writes its replies.
fn obey_script<B: Book>(rt: &HostRuntime, book: &mut B, script: &[u8]) -> Result<(), Stop> {
    let mut reader = CountedReader::new(script);
    let mut writer = CountedWriter::new(rt.stdout());
    match run_script(rt.alloc(), book, &mut reader, &mut writer) {
        Ok(()) => Ok(()),
        Err(_) => Err(Stop::Device),
    }
}

/// Serves a stream of pieces, of which no read and no write fails.
fn stream<B: Book>(
    rt: &HostRuntime,
    book: &mut B,
    tools: &mut LineTools,
    text: &[u8],
) -> Result<(), Stop> {
    let pieces = PieceReader::new(pieces_in(rt.alloc(), text)?, 0);
    let mut out = PieceWriter::new(rt.alloc(), usize::MAX, 0);
    serve_pieces_at(rt, book, tools, pieces, &mut out)
}

/// Obeys a line that says what the next query or stream meets. False if it is another line.
fn is_set(alloc: Global, tools: &mut LineTools, line: &[u8]) -> Result<bool, Stop> {
    if let Some(rest) = line.strip_prefix(b"at ") {
        tools.clock.moment = number_in(rest)?;
    } else if let Some(said) = said_in(alloc, line)? {
        tools.exchange.say(said)?;
    } else {
        return Ok(false);
    }
    Ok(true)
}

/// Obeys a line that speaks of the book. False if it is another line.
fn is_of_book<B: Book, I: BufRead>(
    rt: &HostRuntime,
    book: &mut B,
    tools: &mut LineTools,
    input: &mut I,
    line: &[u8],
) -> Result<bool, Stop> {
    if line == b"script".as_slice() {
        let script = gathered(rt.alloc(), input)?;
        obey_script(rt, book, script.as_slice())?;
    } else if let Some(digits) = line.strip_prefix(b"udp ") {
        serve_at(rt, book, tools, Over::Udp, digits)?;
    } else if let Some(pieces) = line.strip_prefix(b"stream ") {
        stream(rt, book, tools, pieces)?;
    } else {
        return Ok(false);
    }
    Ok(true)
}

/// Obeys a line. That of the workers is noted, for the end of the input.
pub fn obey_largest<B: Book, I: BufRead>(
    rt: &HostRuntime,
    book: &mut B,
    tools: &mut LineTools,
    texts: &mut Vec<u8>,
    input: &mut I,
    line: &[u8],
) -> Result<(), Stop> {
    if is_set(rt.alloc(), tools, line)? || is_of_book(rt, book, tools, input, line)? {
        return Ok(());
    }
    if let Some(digits) = line.strip_prefix(b"message ") {
        return write_again(rt, digits);
    }
    match line.strip_prefix(b"workers ") {
        Some(words) => Ok(texts.extend_from_slice(words)?),
        None => Err(Stop::Device),
    }
}
