//! The silence of a name server: since when, and to how many names, it has not answered.

ghost use Rattle.std.specs.Prelude.{◌≡◌, ◌<◌, ◌≤◌, ◌+◌, ◌↔◌, IsTrue, IsSomeAnd};

use crate::kept::Expires;
use crate::missed::Missed;
use crate::pause::Pause;
use dns_name::Name;
use flight::PATIENCE;
use std::mem;

/// The milliseconds for which a server leaves queries unanswered before it is passed over for every question.
pub const SILENT: u64 = 120_000;

/// The milliseconds for which a server whose port is closed is passed over.
pub const CLOSED_PAUSE: u64 = 1_000;

/// What is known of the silence of a server. Times are in milliseconds.
#[derive(Drop)]
pub struct Silence {
    /// The moment of the first query that went unanswered since its last answer. If none did, that of the last answer, if any.
    pub since: Option<u64>,
    /// The names that went unanswered since its last answer.
    pub missed: Missed,
    /// Its pause for every question.
    pub pause: Pause,
    /// Its rest: while it lasts, the server is passed over if another of the list answers.
    pub rest: Pause,
}

impl Expires for Silence {
    ghost use Rattle.outside.specs.Silences.{matters_until};

    ghost until = { matters_until };

    fn until(&self) -> u64 {
        self.pause.until.max(self.rest.until)
    }
}

impl Silence {
    ghost use Rattle.outside.specs.Silences.{answered_at, closed_at, since_with, tried_at, unknown};
    ghost use Rattle.outside.specs.Silences.{IsAnswering, IsExcused, IsSilent, HasAnsweredLately, Misses};

    /// That of a server that was never asked.
    pub fn unknown() -> Silence
        ensures { result ≡ unknown }
    {
        Silence {
            since: None,
            missed: Missed::Zero,
            pause: Pause::none(),
            rest: Pause::none(),
        }
    }

    /// That of a server that answers at this moment.
    pub fn answered(now: u64) -> Silence
        ensures { result ≡ answered_at now }
    {
        Silence {
            since: Some(now),
            missed: Missed::Zero,
            pause: Pause::none(),
            rest: Pause::none(),
        }
    }

    /// Whether the server answered a query that waited beside one that goes unanswered now.
    fn has_answered_lately(&self, now: u64) -> bool
        ensures { IsTrue result ↔ HasAnsweredLately now self.now }
    {
        if !self.missed.are_none() {
            return false;
        }
        match self.since {
            Some(moment) => now.saturating_sub(moment) <= PATIENCE,
            None => false,
        }
    }

    /// Whether a query that goes unanswered now says nothing new of the server.
    fn is_excused(&self, now: u64) -> bool
        ensures { IsTrue result ↔ IsExcused now self.now }
    {
        if self.pause.millis > 0 && self.pause.lasts(now) {
            return true;
        }
        self.has_answered_lately(now)
    }

    /// Whether three names or more went unanswered, the first so long ago, and nothing was answered since.
    fn is_silent(&self, now: u64) -> bool
        ensures { IsTrue result ↔ IsSilent now self.now }
    {
        if !self.missed.are_many() {
            return false;
        }
        match self.since {
            Some(moment) => now.saturating_sub(moment) >= SILENT,
            None => false,
        }
    }

    /// Since when the server is silent, once one more query goes unanswered.
    fn since_with(&self, now: u64) -> Option<u64>
        ensures { result ≡ since_with self.now.missed self.now.since now }
    {
        match &self.missed {
            Missed::Zero => Some(now),
            _ => self.since,
        }
    }

    /// Whether the server rests.
    pub fn rests(&self, now: u64) -> bool
        ensures { IsTrue result ↔ (now < self.now.rest.until) }
    {
        self.rest.lasts(now)
    }

    /// Whether the server answers: it did, and has left no query unanswered since.
    pub fn answers(&self) -> bool
        ensures { IsTrue result ↔ IsAnswering self.now }
    {
        self.missed.are_none() && self.since.is_some()
    }

    /// Notes that a query for a name went unanswered.
    pub fn miss(&mut self, name: Name, now: u64)
        ensures { Misses name now self.old self.new }
    {
        if self.is_excused(now) {
            return;
        }
        self.since = self.since_with(now);
        let missed = mem::replace(&mut self.missed, Missed::Zero);
        self.missed = missed.with(name);
        self.rest = self.rest.after(now);
        if !self.is_silent(now) {
            return;
        }
        self.pause = self.pause.next(now);
    }

    /// Notes that the server's port is closed.
    pub fn close(&mut self, now: u64)
        ensures { self.new ≡ closed_at now self.old }
    {
        self.pause.until = self.pause.until.max(now.saturating_add(CLOSED_PAUSE));
    }

    /// Notes that a query begins, which is a trial if the server was paused.
    pub fn begin_trial(&mut self, now: u64)
        ensures { self.new ≡ tried_at now self.old }
    {
        self.pause = self.pause.trial(now);
        self.rest = self.rest.trial(now);
    }
}
