//! The numbers of callers.

ghost use Rattle.std.specs.Prelude.{◌≡◌, ◌+◌, ◌<◌, ◌≤◌, ◌^◌};

use std::marker::Model;

/// How many callers were numbered: the first, and one for each split. Whoever has it can number one caller more, and do nothing else.
#[derive(Drop)]
pub(crate) struct Callers {
    count: u64,
}

impl Model for Callers {
    ghost use Rattle.std.specs.Prelude.{ℕ, ◌≤◌, ◌^◌};

    ghost Value = { ℕ };

    ghost view = { λ callers. callers.count };

    ghost invariant = { λ callers. callers.count ≤ 2 ^ 62 };
}

impl Callers {
    /// The first caller alone.
    pub fn one() -> Callers
        ensures { result ≡ 1 }
    {
        Callers { count: 1 }
    }

    /// How many were numbered.
    pub fn count(&self) -> u64
        ensures count { result ≡ self.now }
        ensures few { result ≤ 2 ^ 62 }
    {
        self.count
    }

    /// The number of one caller more.
    pub fn next(&mut self) -> u64
        requires { self.old < 2 ^ 62 }
        ensures number { result ≡ self.old }
        ensures one_more { self.new ≡ self.old + 1 }
    {
        let number = self.count;
        self.count += 1;
        number
    }
}
