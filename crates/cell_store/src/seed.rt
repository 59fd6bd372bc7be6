//! The hasher of the index of names.

ghost use Rattle.std.specs.Prelude.{◌≡◌};
ghost use Rattle.cell_store.specs.Seed.{seeded};

use std::hash::{BuildHasher, DefaultHasher, Hasher};

/// Begins the hash of each name with a seed. Strangers choose the names that are cached.
/// Without the seed they cannot know which names collide, so they cannot slow lookups down by their choice.
#[derive(Clone, Copy)]
pub struct NameSeed {
    initial: DefaultHasher,
}

impl NameSeed {
    /// A seed that the program drew at random, and keeps secret.
    pub fn new(seed: u128) -> NameSeed
        ensures { ⟦<NameSeed as BuildHasher>⟧.build_hasher result ≡ seeded seed }
    {
        let mut initial = DefaultHasher::new();
        initial.write(&seed.to_le_bytes());
        NameSeed { initial }
    }

    /// The same seed in every run, for scripts and tests. Their input is not a stranger's.
    pub fn fixed() -> NameSeed
        ensures { ⟦<NameSeed as BuildHasher>⟧.build_hasher result ≡ seeded 0 }
    {
        NameSeed::new(0)
    }
}

impl BuildHasher for NameSeed {
    type Hasher = DefaultHasher;

    ghost build_hasher = { λ s. s.initial };

    fn build_hasher(&self) -> DefaultHasher {
        self.initial
    }
}
