//! A pause: for how long, and until when, something is passed over.

ghost use Rattle.std.specs.Prelude.{◌≡◌, ◌<◌, ◌↔◌, IsTrue};

use flight::PATIENCE;

/// The milliseconds of a first pause.
pub const FIRST_PAUSE: u64 = 10_000;

/// The milliseconds of the longest pause. A pause is twice as long as the last one, up to this.
pub const LONGEST_PAUSE: u64 = 60_000;

/// For how long, and until when, something is passed over. Times are in milliseconds.
#[derive(Clone, Copy)]
pub struct Pause {
    /// How long it is, or 0 if there was none.
    pub millis: u64,
    /// The moment at which it is over.
    pub until: u64,
}

impl Pause {
    ghost use Rattle.outside.specs.Silences.{next_pause, no_pause, pause_after, pause_struck, trial_pause};

    /// The pause of what was never passed over.
    pub fn none() -> Pause
        ensures { result ≡ no_pause }
    {
        Pause {
            millis: 0,
            until: 0,
        }
    }

    /// Whether it lasts at this moment.
    pub fn lasts(&self, now: u64) -> bool
        ensures { IsTrue result ↔ (now < self.now.until) }
    {
        now < self.until
    }

    /// The pause that follows it, from now on: twice as long, within the bounds of a pause.
    pub fn next(&self, now: u64) -> Pause
        ensures { result ≡ next_pause self.now now }
    {
        let doubled = self.millis.saturating_mul(2);
        let millis = doubled.min(LONGEST_PAUSE).max(FIRST_PAUSE);
        Pause {
            millis,
            until: now.saturating_add(millis),
        }
    }

    /// What a query that goes unanswered now makes of it. While it lasts, that says nothing new.
    pub fn after(&self, now: u64) -> Pause
        ensures { result ≡ pause_after self.now now }
    {
        if now < self.until {
            return *self;
        }
        self.next(now)
    }

    /// What an exchange makes of it to which datagrams come that cannot be its reply. While it lasts, that says nothing new, unless the
    /// exchange is its trial: of a trial `PATIENCE` is left at most.
    pub fn struck(&self, now: u64) -> Pause
        ensures { result ≡ pause_struck self.now now }
    {
        if self.until.saturating_sub(now) > PATIENCE {
            return *self;
        }
        self.next(now)
    }

    /// What a query that begins now makes of it, once it is over: a trial. Others wait as long as the trial may take.
    pub fn trial(&self, now: u64) -> Pause
        ensures { result ≡ trial_pause self.now now }
    {
        if self.millis == 0 {
            return *self;
        }
        Pause {
            millis: self.millis,
            until: now.saturating_add(PATIENCE),
        }
    }
}
