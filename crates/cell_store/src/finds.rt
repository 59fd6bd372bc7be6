//! The finds of a column, in memory.

ghost use Rattle.std.specs.Prelude.{◌≡◌, ◌<◌, ◌+◌, ◌++◌, [], ◌∷◌, length, slice_index_or};
ghost use Rattle.std.specs.List.{swap_remove};
ghost use Rattle.ranked.specs.declared.find.Find.{Find};

use ranked::SharedFind;
use std::marker::Model;
use std::mem::{self, size_of};

// Up to six finds, in order, in half the memory that six of `Option<SharedFind>` take.
#[derive(Drop)]
enum Places {
    Zero,
    One(SharedFind),
    Two(SharedFind, SharedFind),
    Three(SharedFind, SharedFind, SharedFind),
    Four(SharedFind, SharedFind, SharedFind, SharedFind),
    Five(SharedFind, SharedFind, SharedFind, SharedFind, SharedFind),
    Six(SharedFind, SharedFind, SharedFind, SharedFind, SharedFind, SharedFind),
}

/// The finds of a column, at most six. They lie in the column itself, so that it needs no memory of its own for them.
/// Contracts see them as a list.
#[derive(Drop)]
pub(crate) struct Finds {
    places: Places,
}

const _: () = prove!(size_of::<Finds>() == 56);

impl Model for Finds {
    ghost use Rattle.std.specs.Prelude.{List};
    ghost use Rattle.std.specs.Coded.{coded_list};
    ghost use Rattle.ranked.specs.declared.find.Find.{Find};
    ghost use Rattle.ranked.specs.contracts.find.Find as find_type;
    ghost use Rattle.cell_store.specs.Finds.{finds_in};

    ghost Value = { List Find };

    ghost coded = { coded_list find_type.the_row.coded };

    ghost view = { λ f. finds_in f.places };
}

impl Places {
    ghost use Rattle.cell_store.specs.Finds.{finds_in};

    // The number of finds.
    fn len(&self) -> usize
        ensures { result ≡ length (finds_in self.now) }
    {
        match self {
            Places::Zero => 0,
            Places::One(..) => 1,
            Places::Two(..) => 2,
            Places::Three(..) => 3,
            Places::Four(..) => 4,
            Places::Five(..) => 5,
            Places::Six(..) => 6,
        }
    }

    // The find of a slot.
    fn get(&self, slot: usize) -> &SharedFind
        requires { slot < length (finds_in self.now) }
        ensures { result.now ≡ slice_index_or (finds_in self.now) slot result.now }
    {
        match self {
            Places::Zero => unreachable!(),
            Places::One(a) => a,
            Places::Two(a, b) => match slot {
                0 => a,
                _ => b,
            },
            Places::Three(a, b, c) => match slot {
                0 => a,
                1 => b,
                _ => c,
            },
            Places::Four(a, b, c, d) => match slot {
                0 => a,
                1 => b,
                2 => c,
                _ => d,
            },
            Places::Five(a, b, c, d, e) => match slot {
                0 => a,
                1 => b,
                2 => c,
                3 => d,
                _ => e,
            },
            Places::Six(a, b, c, d, e, f) => match slot {
                0 => a,
                1 => b,
                2 => c,
                3 => d,
                4 => e,
                _ => f,
            },
        }
    }

    // The same with one find more.
    fn with(self, find: SharedFind) -> Places
        requires { length (finds_in self) < 6 }
        ensures { finds_in result ≡ finds_in self ++ find ∷ [] }
    {
        match self {
            Places::Zero => Places::One(find),
            Places::One(a) => Places::Two(a, find),
            Places::Two(a, b) => Places::Three(a, b, find),
            Places::Three(a, b, c) => Places::Four(a, b, c, find),
            Places::Four(a, b, c, d) => Places::Five(a, b, c, d, find),
            Places::Five(a, b, c, d, e) => Places::Six(a, b, c, d, e, find),
            Places::Six(..) => unreachable!(),
        }
    }

    // The same without the find of a slot. The last find moves into the gap.
    fn without(self, slot: usize) -> Places
        requires { slot < length (finds_in self) }
        ensures items { (d : Find) → finds_in result ≡ swap_remove (finds_in self) slot d }
        ensures len { length (finds_in result) + 1 ≡ length (finds_in self) }
    {
        match self {
            Places::Zero => unreachable!(),
            Places::One(_) => Places::Zero,
            Places::Two(a, b) => match slot {
                0 => Places::One(b),
                _ => Places::One(a),
            },
            Places::Three(a, b, c) => match slot {
                0 => Places::Two(c, b),
                1 => Places::Two(a, c),
                _ => Places::Two(a, b),
            },
            Places::Four(a, b, c, d) => match slot {
                0 => Places::Three(d, b, c),
                1 => Places::Three(a, d, c),
                2 => Places::Three(a, b, d),
                _ => Places::Three(a, b, c),
            },
            Places::Five(a, b, c, d, e) => match slot {
                0 => Places::Four(e, b, c, d),
                1 => Places::Four(a, e, c, d),
                2 => Places::Four(a, b, e, d),
                3 => Places::Four(a, b, c, e),
                _ => Places::Four(a, b, c, d),
            },
            Places::Six(a, b, c, d, e, f) => match slot {
                0 => Places::Five(f, b, c, d, e),
                1 => Places::Five(a, f, c, d, e),
                2 => Places::Five(a, b, f, d, e),
                3 => Places::Five(a, b, c, f, e),
                4 => Places::Five(a, b, c, d, f),
                _ => Places::Five(a, b, c, d, e),
            },
        }
    }
}

impl Finds {
    /// No finds.
    pub(crate) fn new() -> Finds
        ensures { result ≡ [] }
    {
        Finds {
            places: Places::Zero,
        }
    }

    /// The number of finds.
    pub(crate) fn len(&self) -> usize
        ensures { result ≡ length self.now }
    {
        self.places.len()
    }

    /// The find of a slot.
    pub(crate) fn get(&self, slot: usize) -> &SharedFind
        requires { slot < length self.now }
        ensures { result.now ≡ slice_index_or self.now slot result.now }
    {
        self.places.get(slot)
    }

    /// Adds a find in the next slot. There must be room.
    pub(crate) fn push(&mut self, find: SharedFind)
        requires { length self.old < 6 }
        ensures { self.new ≡ self.old ++ find ∷ [] }
    {
        let places = mem::replace(&mut self.places, Places::Zero);
        self.places = places.with(find);
    }

    /// Drops the find of a slot. The last find moves into the gap.
    pub(crate) fn swap_remove(&mut self, slot: usize)
        requires { slot < length self.old }
        ensures items { (d : Find) → self.new ≡ swap_remove self.old slot d }
        ensures len { length self.new + 1 ≡ length self.old }
    {
        let places = mem::replace(&mut self.places, Places::Zero);
        self.places = places.without(slot);
    }

    /// Drops all finds.
    pub(crate) fn clear(&mut self)
        ensures { self.new ≡ [] }
    {
        self.places = Places::Zero;
    }
}
