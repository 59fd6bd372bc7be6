//! The mode `control`: it sends lines to a service, and writes the replies.
//!
//! A line that is given as an argument has a connection of its own, and its reply ends with the connection. The lines of standard
//! input share one connection. If the service ends it between two lines, the next line begins another.

use crate::control_peer::Peer;
use crate::conversation::converse;
use crate::fault::CliFault;
use crate::replies::{is_refusal, is_silent};
use std::alloc::Global;
use std::io;
use std::io::{BufRead, Read, Split, Stdout, Write};
use std::net::{Net, Shutdown, TcpStream};
use std::rt::Clock;
use std::sync::Wait;
use std::thread::Threads;

/// Sends a line with its line feed, and returns all that the service writes until it ends the connection.
fn exchange(
    alloc: Global,
    peer: &Peer,
    mut stream: TcpStream,
    mut line: Vec<u8>,
) -> io::Result<Vec<u8>> {
    let patience = Some(peer.patience());
    stream.set_read_timeout(patience)?;
    stream.set_write_timeout(patience)?;
    line.push(b'\n')?;
    stream.write_all(line.as_slice())?;
    stream.shutdown(Shutdown::Write)?;
    let mut reply = Vec::new(alloc);
    stream.read_to_end(&mut reply)?;
    Ok(reply)
}

/// The reply to a line, over a connection of its own.
fn reply_to<R: Net<Stream = TcpStream>>(
    rt: &R,
    alloc: Global,
    peer: &Peer,
    line: Vec<u8>,
) -> Result<Vec<u8>, CliFault> {
    let silent = is_silent(line.as_slice());
    let stream = peer.connect(rt, alloc)?;
    match exchange(alloc, peer, stream, line) {
        Ok(reply) => {
            // The service ended before it replied.
            if reply.is_empty() && !silent {
                return Err(CliFault::failed_read());
            }
            Ok(reply)
        }
        Err(error) => Err(peer.fault_of(alloc, &error)),
    }
}

/// Sends a line, and writes its reply. It returns whether the line was obeyed.
fn send_line<R: Net<Stream = TcpStream>>(
    rt: &R,
    alloc: Global,
    peer: &Peer,
    mut out: Stdout,
    line: Vec<u8>,
) -> Result<bool, CliFault> {
    let reply = reply_to(rt, alloc, peer, line)?;
    if out.write_all(reply.as_slice()).is_err() {
        return Err(CliFault::failed_write());
    }
    Ok(
        !reply
            .as_slice()
            .split(|octet| *octet == b'\n')
            .any(is_refusal),
    )
}

/// Sends each of these lines, and writes the replies. It returns whether all of them were obeyed.
fn send_lines<R, B: BufRead + Drop>(
    rt: &R,
    alloc: Global,
    peer: &Peer,
    out: Stdout,
    mut lines: Split<B, Global>,
) -> Result<bool, CliFault>
where
    R: Threads + Wait + Clock + Sync + Net<Stream = TcpStream>,
{
    let mut left = None;
    let mut obeyed = true;
    for _ in rt.forever() {
        let first = match left {
            Some(line) => line,
            None => match lines.next() {
                Some(Ok(line)) => line,
                Some(Err(error)) => return Err(peer.fault_of(alloc, &error)),
                None => break,
            },
        };
        let stream = peer.connect(rt, alloc)?;
        let outcome = converse(rt, alloc, peer, &stream, out, first, &mut lines)?;
        obeyed &= outcome.obeyed;
        left = outcome.left;
    }
    Ok(obeyed)
}

/// Sends the line, or each line of the input if there is none, and writes the replies. It returns whether all of them were obeyed.
pub fn send<R, B: BufRead + Drop>(
    rt: &R,
    alloc: Global,
    peer: &Peer,
    input: B,
    out: Stdout,
    line: Option<String>,
) -> Result<bool, CliFault>
where
    R: Threads + Wait + Clock + Sync + Net<Stream = TcpStream>,
{
    match line {
        Some(line) => send_line(rt, alloc, peer, out, line.into_bytes()),
        None => send_lines(rt, alloc, peer, out, input.split(alloc, b'\n')),
    }
}
