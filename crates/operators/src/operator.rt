//! An operator: a connection to the control socket, and what it has sent that nobody has read.

ghost use Rattle.std.specs.Prelude.{◌≡◌, ◌≤◌, length, IsTrue, Ok, IfOk};
ghost use Rattle.command_text.specs.Line.{read_of};

use crate::first_octet::begins_as_line;
use command_text::{Channel, Line, read_line};
use std::alloc::Global;
use std::cell::Cell;
use std::io;
use std::io::Read;
use std::net::TcpStream;
use system::would_wait;

/// The octets of a connection at which the queue looks: more than the longest line has.
const LOOK: usize = 2048;

/// The most reads of what a connection has sent when it is let go.
const MOST_DRAINED: usize = 64;

/// An operator's connection.
#[derive(Drop)]
pub struct Operator {
    pub(crate) stream: TcpStream,
    /// Whether an octet of it was read.
    pub(crate) has_begun: Cell<bool>,
}

/// Looks at the octets that a connection has sent, without waiting. Returns how many fill the front of the room: 0 if it has ended.
fn look(stream: &TcpStream, room: &mut [u8]) -> io::Result<usize>
    ensures { IfOk result (λ count. count ≤ length room.new) }
{
    stream.set_nonblocking(true)?;
    let seen = stream.peek(room);
    stream.set_nonblocking(false)?;
    seen
}

/// Whether a line is `stop`.
fn is_stop(alloc: Global, line: &[u8]) -> bool
    ensures { IsTrue result → read_of Channel.Control line.now ≡ Ok Line.Stop }
{
    matches!(read_line(alloc, Channel::Control, line), Ok(Line::Stop))
}

impl Operator {
    /// A connection of which nothing was read.
    pub(crate) fn new(stream: TcpStream) -> Operator {
        Operator {
            stream,
            has_begun: Cell::new(false),
        }
    }

    /// Whether an operator may have sent these octets, which come next. Only the first octet of a connection is judged.
    fn is_operator(&self, octets: &[u8]) -> bool {
        self.has_begun.get() || begins_as_line(octets)
    }

    /// Reads what it has sent and nobody has read, without waiting. If octets were left when the connection closes, the system would reset
    /// it, and a reply might be lost.
    pub fn drain(&self) {
        if self.stream.set_nonblocking(true).is_err() {
            return;
        }
        let mut stream = &self.stream;
        let mut room = [0u8; LOOK];
        for _ in 0..MOST_DRAINED {
            match stream.read(&mut room) {
                Ok(0) => return,
                Ok(_) => {}
                Err(_) => return,
            }
        }
    }

    /// Whether the first line is `stop`. It has to have come whole.
    pub(crate) fn begins_with_stop(&self, alloc: Global) -> bool {
        let mut room = [0u8; LOOK];
        let Ok(count) = look(&self.stream, &mut room) else {
            return false;
        };
        let Some(end) = room[..count].iter().position(|octet| *octet == b'\n') else {
            return false;
        };
        let line = &room[..end];
        is_stop(alloc, line.strip_suffix(b"\r").unwrap_or(line))
    }

    /// Whether it has ended, and nothing that it sent is left to read.
    pub(crate) fn has_ended(&self) -> bool {
        let mut room = [0u8; 1];
        matches!(look(&self.stream, &mut room), Ok(0))
    }

    /// Whether it has sent a whole line.
    pub(crate) fn has_line(&self) -> bool {
        let mut room = [0u8; LOOK];
        match look(&self.stream, &mut room) {
            Ok(count) => {
                let octets = &room[..count];
                self.is_operator(octets) && octets.contains(&b'\n')
            }
            Err(_) => false,
        }
    }

    /// Whether serving it would wait for nothing: it has sent a whole line, begins as no line does, or has ended.
    pub(crate) fn is_ready(&self) -> bool {
        let mut room = [0u8; LOOK];
        match look(&self.stream, &mut room) {
            Ok(count) => {
                let octets = &room[..count];
                octets.is_empty() || !self.is_operator(octets) || octets.contains(&b'\n')
            }
            Err(error) => would_wait(error).is_err(),
        }
    }
}
