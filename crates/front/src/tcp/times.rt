//! The times of a connection: how long it may be idle, a message may come, and a reply may stay unread.

ghost use Rattle.std.specs.Prelude.{◌≡◌};

use clock::PATIENCE_SECONDS;
use replies::MOST_FRAMED;

/// The milliseconds that a connection may be idle: a few seconds are enough for a client that asks again soon (RFC 7766, section 6.2.3).
pub const MOST_IDLE: u64 = 10_000;

/// The milliseconds that a message may take to come whole, and that a reply may stay unread. One exchange with a server has as long.
pub const MOST_STUCK: u64 = 1_000 * PATIENCE_SECONDS;

/// The times of a connection, in milliseconds.
#[derive(Clone, Copy)]
pub(crate) struct Times {
    /// The moment at which a message came whole last, or a reply left.
    quiet: u64,
    /// The moment at which the message began that has not come whole.
    begun: u64,
    /// The moment from which on the client has not read what is owed.
    owed: u64,
    /// The octets that have left since.
    passed: usize,
    /// Whether the client sends no more.
    ended: bool,
}

impl Times {
    /// The times of a connection that begins at this moment.
    pub fn new(now: u64) -> Times {
        Times {
            quiet: now,
            begun: now,
            owed: now,
            passed: 0,
            ended: false,
        }
    }

    /// Whether the client sends no more.
    pub fn has_ended(&self) -> bool {
        self.ended
    }

    /// The moment at which a message came whole last, or a reply left.
    pub fn quiet_since(&self) -> u64 {
        self.quiet
    }

    /// Notes that the client sends no more.
    pub fn end(&mut self) {
        self.ended = true;
    }

    /// Notes that octets came: the first of a message, or more of one.
    pub fn begin(&mut self, now: u64, is_first: bool) {
        if is_first {
            self.begun = now;
        }
    }

    /// Notes that a message came whole.
    pub fn note(&mut self, now: u64) {
        self.quiet = now;
    }

    /// Notes that a reply is owed: the first, or one more.
    pub fn owe(&mut self, now: u64, is_first: bool) {
        if is_first {
            self.owed = now;
            self.passed = 0;
        }
    }

    /// Notes that octets left. Each time that they add up to the longest reply with its length, the client gains as long again.
    pub fn leave(&mut self, now: u64, count: usize) {
        self.quiet = now;
        self.passed = self.passed.saturating_add(count);
        if self.passed >= MOST_FRAMED {
            self.owed = now;
            self.passed = 0;
        }
    }

    /// Whether the time of a connection is up at this moment.
    pub fn is_overdue(
        &self,
        now: u64,
        has_begun_none: bool,
        owes_none: bool,
        is_waiting: bool,
    ) -> bool {
        let comes_late = !has_begun_none && now.saturating_sub(self.begun) >= MOST_STUCK;
        let leaves_late = !owes_none && now.saturating_sub(self.owed) >= MOST_STUCK;
        let is_idle = has_begun_none && owes_none && !is_waiting;
        comes_late || leaves_late || (is_idle && now.saturating_sub(self.quiet) >= MOST_IDLE)
    }
}
