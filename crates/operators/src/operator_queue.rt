//! The queue of operators: the listener of the control socket, and the connections that wait for their turn.

ghost use Rattle.std.specs.Prelude.{◌<◌, vec_len, IfSome};

use crate::lookout::Lookout;
use crate::operator::Operator;
use crate::operator_turn::TURN_SECONDS;
use std::alloc::Global;
use std::io;
use std::io::ErrorKind;
use std::net::{TcpListener, TcpStream};
use std::rt::Clock;
use std::time::Instant;
use system::would_wait;

/// The most connections that wait here. More wait in the system's own queue.
const MOST_WAITING: usize = 32;

/// The most connections that wait here while none is served, so that they hide no `stop`.
const MOST_UNSERVED: usize = 256;

/// The most connections that are accepted at once, so that a crowd of them delays no line for long.
const MOST_ACCEPTED: u32 = 256;

/// An operator who waits for a turn, and since when.
#[derive(Drop)]
struct Waiting {
    operator: Operator,
    since: Instant,
}

impl Waiting {
    /// Whether it has sent no whole line, for as long as an operator may complete none.
    fn is_idle<R: Clock>(&self, rt: &R) -> bool {
        match self.since.elapsed(rt) {
            Ok(passed) => {
                let has_line = self.operator.is_ready() && !self.operator.has_ended();
                passed.as_secs() >= TURN_SECONDS && !has_line
            }
            Err(_) => false,
        }
    }
}

/// The operators that wait for their turn, in the order in which they came.
#[derive(Drop)]
pub struct OperatorQueue<'a, R: Clock> {
    rt: &'a R,
    alloc: Global,
    listener: &'a TcpListener,
    waiting: Vec<Waiting>,
    /// The operator who has sent `stop` while none was served.
    stopper: Option<Operator>,
}

impl<'a, R: Clock> OperatorQueue<'a, R> {
    /// The queue of a listener, in which nobody waits. It has `MOST_WAITING` places from the start, if there is memory for them: then a
    /// connection in one of them needs none.
    pub fn new(rt: &'a R, alloc: Global, listener: &'a TcpListener) -> OperatorQueue<'a, R> {
        let mut waiting = Vec::new(alloc);
        let _ = waiting.reserve(MOST_WAITING);
        OperatorQueue {
            rt,
            alloc,
            listener,
            waiting,
            stopper: None,
        }
    }

    /// Accepts a connection if one has come in.
    fn accept_now(&self) -> io::Result<Option<TcpStream>> {
        self.listener.set_nonblocking(true)?;
        let came = self.listener.accept();
        self.listener.set_nonblocking(false)?;
        match came {
            Ok((stream, _)) => Ok(Some(stream)),
            Err(error) => {
                let _ = would_wait(error)?;
                Ok(None)
            }
        }
    }

    /// The place of the first connection that is ready.
    fn first_ready(&self) -> Option<usize>
        ensures { IfSome result (λ place. place < vec_len self.now.waiting) }
    {
        for (place, waiting) in self.waiting.iter().enumerate() {
            if waiting.operator.is_ready() {
                return Some(place);
            }
        }
        None
    }

    /// The place of the first connection that is idle.
    fn first_idle(&self) -> Option<usize>
        ensures { IfSome result (λ place. place < vec_len self.now.waiting) }
    {
        for (place, waiting) in self.waiting.iter().enumerate() {
            if waiting.is_idle(self.rt) {
                return Some(place);
            }
        }
        None
    }

    /// The place of the first connection whose first line is `stop`.
    fn first_stop(&self) -> Option<usize>
        ensures { IfSome result (λ place. place < vec_len self.now.waiting) }
    {
        for (place, waiting) in self.waiting.iter().enumerate() {
            if waiting.operator.begins_with_stop(self.alloc) {
                return Some(place);
            }
        }
        None
    }

    /// Takes in a connection if one has come in. If this many wait already, the first that is idle gives up its place, and if none is,
    /// the connection waits outside. Returns whether one was taken in.
    fn take_one(&mut self, most: usize) -> io::Result<bool> {
        let is_full = self.waiting.len() >= most;
        let idle = if is_full { self.first_idle() } else { None };
        if is_full && idle.is_none() {
            return Ok(false);
        }
        let Some(stream) = self.accept_now()? else {
            return Ok(false);
        };
        let since = Instant::now(self.rt)?;
        if let (true, Some(place)) = (is_full, idle) {
            drop(self.waiting.remove(place));
        }
        let operator = Operator::new(stream);
        // If there is no memory for its place, it is closed.
        let _ = self.waiting.push(Waiting { operator, since });
        Ok(true)
    }

    /// Takes in the connections that have come in, until this many wait.
    fn take_in(&mut self, most: usize) -> io::Result<()> {
        for _ in 0..MOST_ACCEPTED {
            if !self.take_one(most)? {
                break;
            }
        }
        Ok(())
    }

    /// Takes in the connections that have come in, and returns whether any waits for its turn.
    pub(crate) fn gather(&mut self) -> io::Result<bool> {
        self.take_in(MOST_WAITING)?;
        Ok(!self.waiting.is_empty())
    }

    /// Takes in the connections that have come in, and returns whether any that waits has sent a whole line.
    pub(crate) fn gather_lines(&mut self) -> bool {
        // If none can be accepted, those that wait already count.
        let _ = self.take_in(MOST_WAITING);
        for waiting in &self.waiting {
            if waiting.operator.has_line() {
                return true;
            }
        }
        false
    }

    /// Whether there is a place at the end. If too many wait, the first that is idle gives up its place.
    fn has_place(&mut self) -> bool {
        if self.waiting.len() < MOST_WAITING {
            return true;
        }
        match self.first_idle() {
            Some(place) => {
                drop(self.waiting.remove(place));
                true
            }
            None => false,
        }
    }

    /// Puts an operator whose turn is over at the end. If there is no place for it, or no memory for a place, it is closed.
    pub fn put_back(&mut self, operator: Operator) {
        if let (true, Ok(since)) = (self.has_place(), Instant::now(self.rt)) {
            let _ = self.waiting.push(Waiting { operator, since });
        }
    }

    /// Takes out the first connection whose first line is `stop`, out of turn.
    fn take_stop(&mut self) -> Option<Operator> {
        // If no connection can be accepted now, one may be later.
        let _ = self.take_in(MOST_UNSERVED);
        let place = self.first_stop()?;
        let Waiting {
            operator,
            since: _since,
        } = self.waiting.remove(place);
        Some(operator)
    }

    /// Takes out the operator who has sent `stop`, if a look has found one.
    pub fn take_stopper(&mut self) -> Option<Operator> {
        self.stopper.take()
    }

    /// The operator whose turn it is: the first that is ready, or else the first. If none waits, waits for one.
    pub fn next(&mut self) -> io::Result<Operator> {
        let gathered = self.gather();
        if self.waiting.is_empty() {
            let _ = gathered?;
            let (stream, _) = self.listener.accept()?;
            return Ok(Operator::new(stream));
        }
        let place = self.first_ready().unwrap_or(0);
        let Waiting {
            operator,
            since: _since,
        } = self.waiting.remove(place);
        Ok(operator)
    }
}

impl<'a, R: Clock> Lookout for OperatorQueue<'a, R> {
    fn look(&mut self) -> io::Result<()> {
        if self.stopper.is_none() {
            self.stopper = self.take_stop();
        }
        if self.stopper.is_some() {
            return Err(io::Error::from(ErrorKind::ConnectionAborted));
        }
        Ok(())
    }
}
