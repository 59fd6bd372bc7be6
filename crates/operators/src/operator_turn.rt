//! The turn of an operator: a connection to the control socket, and the patience with it.

ghost use Rattle.std.specs.Prelude.{◌≡◌, ◌≤◌, length, if◌then◌else◌};
ghost use Rattle.std.specs.Io.BufRead.{take_through};
ghost use Rattle.operators.specs.declared.operator_turn.TheConstants.{TURN_SECONDS, OPERATOR_PATIENCE_SECONDS};

use crate::first_octet::begins_as_line;
use crate::operator::Operator;
use crate::operator_queue::OperatorQueue;
use log::{Log, warn};
use std::cell::{Cell, RefCell};
use std::io;
use std::io::{ErrorKind, Read, Write};
use std::rt::Clock;
use std::time::{Duration, Instant};
use system::would_wait;

/// How long an operator may complete no line while another waits, in seconds.
pub(crate) const TURN_SECONDS: u64 = 1;

/// How long an operator may complete no line if nobody waits, in seconds.
const OPERATOR_PATIENCE_SECONDS: u64 = 60;

/// How long a turn lasts at most while another operator waits with a whole line, in seconds.
const LONGEST_TURN_SECONDS: u64 = 5;

/// How long a call waits for an operator before the queue is looked at again, in milliseconds.
const GLANCE_MILLISECONDS: u64 = 200;

/// The log line for a connection that begins as no line does.
const NO_COMMAND: &str = "resolver: control connection closed: it begins as no command does";

/// The time between two looks at the queue.
fn glance() -> Duration {
    Duration::from_millis(GLANCE_MILLISECONDS)
}

/// The octets of the first line with its end, or all of them if no line ends there.
fn first_line(octets: &[u8]) -> &[u8]
    ensures first { result.now ≡ take_through 10 octets.now }
    ensures within { length result.now ≤ length octets.now }
{
    for (place, octet) in octets.iter().enumerate() {
        if *octet == b'\n' {
            return &octets[..place + 1];
        }
    }
    octets
}

/// How long an operator may complete no line, in seconds.
fn patience(another_waits: bool) -> u64
    ensures { result ≡ (if another_waits then TURN_SECONDS else OPERATOR_PATIENCE_SECONDS) }
{
    if another_waits {
        TURN_SECONDS
    } else {
        OPERATOR_PATIENCE_SECONDS
    }
}

/// How the turn of an operator ends.
#[derive(Drop)]
pub enum TurnEnd {
    /// One of the lines was `stop`.
    Stop,
    /// The connection is to be closed.
    Over,
    /// Between two lines, since another operator waits. No octet that was read is left.
    Yields,
}

/// The turn of an operator. `&OperatorTurn` reads the connection, one line at most in a read, and writes to it.
///
/// Both fail once the operator has completed no line for too long: none came whole, and no reply left whole. An error ends the
/// connection in the middle of a line, where an end of the input would have the begun line obeyed. The input seems to end between
/// two lines if the turn has been long and another operator waits with a whole line.
#[derive(Drop)]
pub struct OperatorTurn<'a, 'q, R: Clock + Log> {
    rt: &'a R,
    operator: &'a Operator,
    queue: RefCell<&'a mut OperatorQueue<'q, R>>,
    began: Instant,
    /// How long the turn lasts until the queue is asked whether it has to end.
    asks_after: Cell<Duration>,
    /// Since when the operator has completed no line.
    since: Cell<Instant>,
    /// Whether some of a line was read, and not its end.
    is_amid: Cell<bool>,
    /// Whether some of a reply is left to be written.
    is_behind: Cell<bool>,
    yields: Cell<bool>,
}

impl<'a, 'q, R: Clock + Log> OperatorTurn<'a, 'q, R> {
    /// The turn of this operator begins.
    pub fn new(
        rt: &'a R,
        operator: &'a Operator,
        queue: &'a mut OperatorQueue<'q, R>,
    ) -> io::Result<OperatorTurn<'a, 'q, R>> {
        operator.stream.set_read_timeout(Some(glance()))?;
        operator.stream.set_write_timeout(Some(glance()))?;
        operator.stream.set_nodelay(true)?;
        let began = Instant::now(rt)?;
        Ok(OperatorTurn {
            rt,
            operator,
            queue: RefCell::new(queue),
            began,
            asks_after: Cell::new(Duration::from_secs(LONGEST_TURN_SECONDS)),
            since: Cell::new(began),
            is_amid: Cell::new(false),
            is_behind: Cell::new(false),
            yields: Cell::new(false),
        })
    }

    /// How the turn ends if its input has ended.
    pub fn end(&self) -> TurnEnd {
        if self.yields.get() {
            TurnEnd::Yields
        } else {
            TurnEnd::Over
        }
    }

    /// Notes that the operator has completed a line.
    fn restart(&self) -> io::Result<()> {
        self.since.set(Instant::now(self.rt)?);
        Ok(())
    }

    /// Whether another operator waits. If none can be accepted, one may.
    fn another_waits(&self) -> bool {
        match self.queue.try_borrow_mut() {
            Ok(mut queue) => queue.gather().unwrap_or(true),
            Err(_) => true,
        }
    }

    /// Whether another operator waits with a whole line.
    fn another_has_line(&self) -> bool {
        match self.queue.try_borrow_mut() {
            Ok(mut queue) => queue.gather_lines(),
            Err(_) => false,
        }
    }

    /// Whether the turn ends here: no line has begun, it has been long, and another operator waits with a whole line. While it is long,
    /// the queue is asked now and then, since that costs more than a line does.
    fn ends_here(&self) -> io::Result<bool> {
        let lasted = self.began.elapsed(self.rt)?;
        if self.is_amid.get() || lasted < self.asks_after.get() {
            return Ok(false);
        }
        self.asks_after.set(lasted.saturating_add(glance()));
        self.yields.set(self.another_has_line());
        Ok(self.yields.get())
    }

    /// An error if the operator has completed no line for too long.
    fn check_patience(&self) -> io::Result<()> {
        let idle = self.since.get().elapsed(self.rt)?.as_secs();
        if idle >= patience(true) && idle >= patience(self.another_waits()) {
            return Err(io::Error::from(ErrorKind::TimedOut));
        }
        Ok(())
    }

    /// Looks at octets that were read, of one line at most. An error if the connection begins as no line does.
    fn look_at(&self, octets: &[u8]) -> io::Result<()> {
        if !self.operator.has_begun.get() {
            if !begins_as_line(octets) {
                warn!(self.rt; "{NO_COMMAND}");
                return Err(io::Error::from(ErrorKind::InvalidData));
            }
            self.operator.has_begun.set(true);
        }
        let is_whole = octets.contains(&b'\n');
        self.is_amid.set(!is_whole);
        if is_whole {
            self.restart()
        } else {
            self.check_patience()
        }
    }

    /// Fills the room with octets that have come, of one line at most.
    fn fill(&self, room: &mut [u8]) -> io::Result<()> {
        let mut stream = &self.operator.stream;
        stream.read_exact(room)?;
        self.look_at(room)
    }

    /// Notes that a call would have waited. It is an error if the operator has completed no line for too long, and else the error
    /// of a call that is to be made again.
    fn put_off(&self, error: io::Error) -> io::Error {
        match would_wait(error) {
            Ok(_) => match self.check_patience() {
                Ok(()) => io::Error::from(ErrorKind::Interrupted),
                Err(over) => over,
            },
            Err(failed) => failed,
        }
    }
}

impl<'a, 'q, R: Clock + Log> Read for &OperatorTurn<'a, 'q, R> {
    fn read(&mut self, room: &mut [u8]) -> io::Result<usize> {
        match self.operator.stream.peek(room) {
            Ok(0) => Ok(0),
            Ok(seen) => {
                if self.ends_here()? {
                    return Ok(0);
                }
                let count = first_line(&room[..seen]).len();
                self.fill(&mut room[..count])?;
                Ok(count)
            }
            Err(error) => {
                let fault = self.put_off(error);
                if fault.kind() == ErrorKind::Interrupted && self.ends_here()? {
                    return Ok(0);
                }
                Err(fault)
            }
        }
    }
}

impl<'a, 'q, R: Clock + Log> Write for &OperatorTurn<'a, 'q, R> {
    fn write(&mut self, octets: &[u8]) -> io::Result<usize> {
        if self.is_behind.get() {
            self.check_patience()?;
        }
        let mut stream = &self.operator.stream;
        match stream.write(octets) {
            Ok(count) => {
                self.is_behind.set(count < octets.len());
                if count == octets.len() {
                    self.restart()?;
                }
                Ok(count)
            }
            Err(error) => {
                self.is_behind.set(true);
                Err(self.put_off(error))
            }
        }
    }

    fn flush(&mut self) -> io::Result<()> {
        Ok(())
    }
}
