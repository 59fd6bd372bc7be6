//! The seed of a worker's tables.

ghost use Rattle.std.specs.Prelude.{◌≡◌};
ghost use Rattle.rand_core.specs.Stream.{next_u64};

use rand_core::Rng;
use std::marker::Model;

/// The seed of the hashes of a worker's tables, as a number. Strangers do not know it. Only a draw makes one, so a worker has no other
/// number at hand in its place.
#[derive(Drop)]
pub struct TableSeed {
    number: u64,
}

impl Model for TableSeed {
    ghost use Rattle.std.specs.Prelude.{ℕ};

    ghost Value = { ℕ };

    ghost view = { λ seed. seed.number };
}

impl TableSeed {
    /// The next number of a generator.
    pub fn draw<G: Rng>(generator: &mut G) -> TableSeed
        ensures { result ≡ (next_u64 (G.stream generator.old)).0 }
    {
        TableSeed {
            number: generator.next_u64(),
        }
    }

    /// The number.
    pub(crate) fn number(&self) -> u64
        ensures { result ≡ self.now }
    {
        self.number
    }
}
