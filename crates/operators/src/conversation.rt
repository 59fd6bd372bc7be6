//! The conversation of a client with a service, over one connection: a thread sends the lines, another writes the replies.
//!
//! Neither waits for the other, so that many lines need no reply to each, and a client need not know where a reply ends.

use crate::control_peer::Peer;
use crate::fault::CliFault;
use crate::replies::{Replies, is_silent};
use std::alloc::Global;
use std::io::{BufRead, Read, Split, Stdout, Write};
use std::net::{Shutdown, TcpStream};
use std::rt::Clock;
use std::sync::Wait;
use std::sync::atomic::{AtomicBool, AtomicU64, Ordering};
use std::thread::Threads;
use std::time::{Duration, Instant};
use std::{io, thread};
use system::would_wait;

/// How long a read waits before the receiver looks whether a reply is overdue, in milliseconds.
const GLANCE_MILLISECONDS: u64 = 100;

/// The most octets that one read takes.
const ROOM: usize = 4096;

/// What the two threads of a conversation tell each other.
#[derive(Drop)]
struct Talk {
    /// The lines that were sent, and get a reply.
    sent: AtomicU64,
    /// Whether no line follows over this connection.
    is_all_sent: AtomicBool,
    /// Whether no reply follows.
    is_over: AtomicBool,
}

impl Talk {
    /// Nothing was sent.
    fn new() -> Talk {
        Talk {
            sent: AtomicU64::new(0),
            is_all_sent: AtomicBool::new(false),
            is_over: AtomicBool::new(false),
        }
    }

    /// Whether lines that were sent have certainly not been replied to.
    fn is_owed(&self, replies: &Replies) -> bool {
        replies.lines < self.sent.load(Ordering::SeqCst)
    }
}

/// The outcome of a conversation.
#[derive(Drop)]
pub(crate) struct ConversationEnd {
    /// Whether all lines were obeyed.
    pub obeyed: bool,
    /// The line that the service did not take any more, since it had ended the connection.
    pub left: Option<Vec<u8>>,
}

/// Sends a line with its line feed.
fn send_one(mut stream: &TcpStream, talk: &Talk, mut line: Vec<u8>) -> io::Result<()> {
    if !is_silent(line.as_slice()) {
        let _ = talk.sent.fetch_add(1, Ordering::SeqCst);
    }
    line.push(b'\n')?;
    stream.write_all(line.as_slice())
}

/// Sends the first line, and then each that is read, until none is left or the service has ended the connection. Returns the
/// line that is left.
fn send_each<B: BufRead + Drop>(
    alloc: Global,
    peer: &Peer,
    stream: &TcpStream,
    talk: &Talk,
    first: Vec<u8>,
    lines: &mut Split<B, Global>,
) -> Result<Option<Vec<u8>>, CliFault> {
    if let Err(error) = send_one(stream, talk, first) {
        return Err(peer.fault_of(alloc, &error));
    }
    for line in lines {
        match line {
            Ok(line) => {
                if talk.is_over.load(Ordering::SeqCst) {
                    return Ok(Some(line));
                }
                if let Err(error) = send_one(stream, talk, line) {
                    return Err(peer.fault_of(alloc, &error));
                }
            }
            Err(error) => return Err(peer.fault_of(alloc, &error)),
        }
    }
    Ok(None)
}

/// Reads octets of replies once, and writes them. Returns None at the end of the connection, and otherwise the number of octets.
fn hear_some(
    alloc: Global,
    peer: &Peer,
    mut stream: &TcpStream,
    mut out: Stdout,
    replies: &mut Replies,
) -> Result<Option<usize>, CliFault> {
    let mut room = [0u8; ROOM];
    match stream.read(&mut room) {
        Ok(0) => Ok(None),
        Ok(count) => {
            replies.take(&room[..count]);
            if out.write_all(&room[..count]).is_err() {
                return Err(CliFault::failed_write());
            }
            Ok(Some(count))
        }
        Err(error) => match would_wait(error) {
            Ok(_) => Ok(Some(0)),
            Err(failed) => Err(peer.fault_of(alloc, &failed)),
        },
    }
}

/// The time since a moment, in whole seconds.
fn seconds_since<R: Clock>(rt: &R, moment: &Instant) -> Result<u64, CliFault> {
    match moment.elapsed(rt) {
        Ok(passed) => Ok(passed.as_secs()),
        Err(_) => Err(CliFault::failed_read()),
    }
}

/// Writes the replies as they come, until the service ends the connection. An error if one is owed and nothing comes in time.
fn hear_each<R: Wait + Clock>(
    rt: &R,
    alloc: Global,
    peer: &Peer,
    stream: &TcpStream,
    out: Stdout,
    talk: &Talk,
    replies: &mut Replies,
) -> Result<(), CliFault> {
    let mut since: Option<Instant> = None;
    let mut sent = 0;
    for _ in rt.forever() {
        let Some(count) = hear_some(alloc, peer, stream, out, replies)? else {
            break;
        };
        let sent_now = talk.sent.load(Ordering::SeqCst);
        let is_owed = talk.is_owed(replies) || talk.is_all_sent.load(Ordering::SeqCst);
        if count > 0 || sent_now != sent || !is_owed {
            since = None;
            sent = sent_now;
        }
        match since {
            Some(moment) => {
                if seconds_since(rt, &moment)? >= peer.seconds {
                    return Err(CliFault::no_reply(alloc, &peer.addr));
                }
            }
            None => since = Instant::now(rt).ok(),
        }
    }
    Ok(())
}

/// The receiver's part: all replies, until the conversation is over.
fn hear<R: Wait + Clock>(
    rt: &R,
    alloc: Global,
    peer: &Peer,
    stream: &TcpStream,
    out: Stdout,
    talk: &Talk,
) -> Result<Replies, CliFault> {
    let mut replies = Replies::new();
    let ended = hear_each(rt, alloc, peer, stream, out, talk, &mut replies);
    talk.is_over.store(true, Ordering::SeqCst);
    // A sender that waits for the service to read goes on.
    let _ = stream.shutdown(Shutdown::Both);
    match ended {
        Ok(()) => Ok(replies),
        Err(fault) => Err(fault),
    }
}

/// Whether all lines were obeyed. An error if the service ended before it had replied to all of them.
fn judge(talk: &Talk, heard: Result<Replies, CliFault>) -> Result<bool, CliFault> {
    match heard {
        Ok(replies) => {
            if talk.is_owed(&replies) {
                return Err(CliFault::failed_read());
            }
            Ok(!replies.refused)
        }
        Err(fault) => Err(fault),
    }
}

/// Sends the first line and those that follow, and writes the replies as they come.
pub(crate) fn converse<R: Threads + Wait + Clock + Sync, B: BufRead + Drop>(
    rt: &R,
    alloc: Global,
    peer: &Peer,
    stream: &TcpStream,
    out: Stdout,
    first: Vec<u8>,
    lines: &mut Split<B, Global>,
) -> Result<ConversationEnd, CliFault> {
    let glance = Some(Duration::from_millis(GLANCE_MILLISECONDS));
    let patience = Some(peer.patience());
    if stream.set_read_timeout(glance).is_err() || stream.set_write_timeout(patience).is_err() {
        return Err(CliFault::failed_read());
    }
    let talk = Talk::new();
    let shared = &talk;
    thread::scope(thread::scope_env(), rt, |scope| {
        let Ok(receiver) = scope.spawn(move || hear(rt, alloc, peer, stream, out, shared)) else {
            return Err(CliFault::no_memory());
        };
        let sent = send_each(alloc, peer, stream, shared, first, lines);
        shared.is_all_sent.store(true, Ordering::SeqCst);
        let _ = stream.shutdown(Shutdown::Write);
        let obeyed = judge(shared, receiver.join(rt))?;
        Ok(ConversationEnd {
            obeyed,
            left: sent?,
        })
    })
}
