//! The counters of a worker.

ghost use Rattle.std.specs.Prelude.{◌≡◌};
ghost use Rattle.flight.specs.Counted.{CountsAbandoned, CountsExpired, CountsListened, CountsOpened, CountsSettled, no_counts};

use crate::sockets::Listened;

/// The counters of a worker. Each stops at 2^64 - 1.
#[derive(Clone, Copy, PartialEq, Eq)]
pub struct Counts {
    /// Clients that got a reply, got SERVFAIL, or were owed no reply.
    pub settled: u64,
    /// Exchanges that began.
    pub opened: u64,
    /// Exchanges that ended: a reply came, the exchange broke, its time was up, or its question ended.
    pub ended: u64,
    /// Calls that listened to an exchange.
    pub listened: u64,
    /// Exchanges that ended because their time was up.
    pub expired: u64,
}

impl Counts {
    /// All counters at zero.
    pub fn new() -> Counts
        ensures { result ≡ no_counts }
    {
        Counts {
            settled: 0,
            opened: 0,
            ended: 0,
            listened: 0,
            expired: 0,
        }
    }

    /// Counts a client that was settled.
    pub fn settle(&mut self)
        ensures { CountsSettled self.old self.new }
    {
        self.settled = self.settled.saturating_add(1);
    }

    /// Counts an exchange that began.
    pub fn open(&mut self)
        ensures { CountsOpened self.old self.new }
    {
        self.opened = self.opened.saturating_add(1);
    }

    /// Counts a call that listened to an exchange, and the end of the exchange if something was heard.
    pub fn listen(&mut self, heard: &Listened)
        ensures { CountsListened heard.now self.old self.new }
    {
        self.listened = self.listened.saturating_add(1);
        if !matches!(heard, Listened::Nothing) {
            self.ended = self.ended.saturating_add(1);
        }
    }

    /// Counts an exchange that ended because its time was up.
    pub fn expire(&mut self)
        ensures { CountsExpired self.old self.new }
    {
        self.ended = self.ended.saturating_add(1);
        self.expired = self.expired.saturating_add(1);
    }

    /// Counts an exchange that ended because its question did.
    pub fn abandon(&mut self)
        ensures { CountsAbandoned self.old self.new }
    {
        self.ended = self.ended.saturating_add(1);
    }
}
