//! A clock that is a second later at each reading.

ghost use Rattle.std.specs.Prelude.{◌≡◌};

use clock::Clock;

/// The moment of the next reading.
#[derive(Drop)]
pub struct Seconds(u64);

impl Seconds {
    pub fn from(moment: u64) -> Seconds {
        Seconds(moment)
    }
}

impl Clock for Seconds {
    ghost ticks = { λ old moment _. moment ≡ old.0 };

    fn now(&mut self) -> u64 {
        let moment = self.0;
        self.0 = moment.wrapping_add(1);
        moment
    }
}
