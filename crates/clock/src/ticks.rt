//! The trait of clocks.

ghost use Rattle.std.specs.Prelude.{ℕ};

/// A clock that gives moments, in seconds.
pub trait Clock {
    /// One reading: the clock before, the moment, the clock after.
    ghost ticks: { Self → ℕ → Self → Type 0 };

    /// Reads the clock, in seconds.
    fn now(&mut self) -> u64
        ensures { ticks self.old result self.new };
}
