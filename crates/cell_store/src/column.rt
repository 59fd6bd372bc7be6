//! The cells of one name and type.

ghost use Rattle.std.specs.Prelude.{◌≡◌, ◌<◌, ◌≤◌, ◌+◌, ℕ, true, false, IfOk, OnOk, OnErr, IsOk, is_some, nat_lt, if◌then◌else◌};
ghost use Rattle.ranked.specs.Find.{admission_of};
ghost use Rattle.ranked.specs.Rank.{level_of};
ghost use Rattle.cell_store.specs.Version.{nothing, whole};
ghost use Rattle.cell_store.specs.Column.{one_entry, place_in, sight_at, sight_now, HoldsUpTo, IsSettledTo};
ghost use Rattle.cell_store.specs.Prune.{is_asked, IsLess};
ghost use Rattle.cell_store.specs.Sweep.{swept, IsSeenAt};
ghost use Rattle.cell_store.specs.Count.{has_find, is_counted};
ghost use Rattle.cell_store.specs.Ends.{first_end};
ghost use Rattle.cell_store.specs.Mixed.{is_mixed, IsEven};
ghost use Rattle.cell_store.specs.Same.{place_now};

use crate::entry::{ColumnEntry, Entries};
use crate::finds::Finds;
use crate::merge::merge;
use crate::prune::prune;
use crate::slots::{has_find, lend, release};
use crate::version::{Place, Sight, Slot, Version};
use crate::versions::{admit_each, first_end, forget_before, place_at, reach, sweep_each};
use arrayvec::ArrayVec;
use dns_name::NoMemory;
use ranked::{Cell, SharedFind, Shown};
use std::alloc::Global;
use std::default::Default;
use std::marker::Model;
use std::mem::size_of;

/// The cells of one name and type, one for each version. It keeps a find once, however many versions have it.
#[derive(Drop)]
pub struct Column {
    // The last version that an admission has reached. Later versions are empty.
    upto: u64,
    // The first entry stands beside `upto`, and the first find beside the number of entries: a lookup mostly reads these alone.
    versions: Entries,
    finds: Finds,
}

const _: () = prove!(size_of::<Column>() == 216);

impl Model for Column {
    ghost use Rattle.std.specs.Coded.{codes};
    ghost use Rattle.ranked.specs.contracts.find.Find as find_type;
    ghost use Rattle.cell_store.specs.Column.{Cells, cells_of, IsColumn};

    ghost Value = { Cells };

    ghost coded = { Prim.hlevel (codes, find_type.the_row.coded) };

    ghost view = { λ c. cells_of c.versions c.finds c.upto };

    ghost invariant = { λ c. IsColumn c.versions c.finds };
}

impl Column {
    /// An empty column. It has all the room that it will ever need in itself.
    pub fn new(alloc: Global, upto: u64) -> Result<Column, NoMemory>
        ensures places { IfOk result (λ column. (v : ℕ) → place_in column v ≡ nothing) }
        ensures upto { IfOk result (λ column. column.upto ≡ upto) }
        ensures counted { IfOk result (λ column. is_counted column ≡ false) }
    {
        let _ = alloc;
        Ok(Column::of(false, upto))
    }

    /// A column that refers to the find of the whole name in the versions up to `upto`.
    pub fn left(alloc: Global, upto: u64) -> Result<Column, NoMemory>
        ensures places { IfOk result (λ column. (v : ℕ) → place_in column v ≡ (if nat_lt upto v then nothing else whole)) }
        ensures upto { IfOk result (λ column. column.upto ≡ upto) }
        ensures counted { IfOk result (λ column. is_counted column ≡ false) }
    {
        let _ = alloc;
        Ok(Column::of(true, upto))
    }

    // A column with one entry, without a find.
    fn of(left: bool, upto: u64) -> Column
        ensures { result ≡ one_entry left upto }
    {
        let mut versions = ArrayVec::new();
        versions.push(ColumnEntry::new(Version {
            from: 0,
            place: Place {
                left,
                cell: Cell::empty(),
            },
        }));
        Column {
            upto,
            versions,
            finds: Finds::new(),
        }
    }

    /// The last version that an admission has reached. Later versions are empty.
    pub fn upto(&self) -> u64
        ensures { result ≡ self.now.upto }
    {
        self.upto
    }

    /// Whether some version has a find.
    pub fn is_counted(&self) -> bool
        ensures { result ≡ is_counted self.now }
    {
        has_find(&self.versions)
    }

    /// Whether it has more than one entry.
    pub fn is_mixed(&self) -> bool
        ensures value { result ≡ is_mixed self.now }
        ensures even { result ≡ false → IsEven self.now }
    {
        self.versions.len() > 1
    }

    /// The first moment at which a find is dead, in seconds. It is the latest moment if there is none.
    pub fn first_end(&self) -> u64
        ensures { result ≡ first_end self.now.versions }
    {
        first_end(&self.versions)
    }

    /// The answer of a version, at a moment in seconds.
    pub fn at(&self, version: u64, moment: u64) -> Sight<'_>
        ensures { sight_now result ≡ sight_at (place_in self.now version) moment }
    {
        if self.upto < version {
            return Sight::Own(None);
        }
        let place = place_at(&self.versions, version);
        if place.left {
            return Sight::Left;
        }
        match place.cell.at(moment) {
            Some(shown) => Sight::Own(Some(Shown {
                rank: shown.rank,
                left: shown.left,
                body: self.finds.get(usize::from(shown.body)),
            })),
            None => Sight::Own(None),
        }
    }

    /// The content of a version, alive or not.
    pub fn place(&self, version: u64) -> Place<&SharedFind>
        ensures { place_now result ≡ place_in self.now version }
    {
        if self.upto < version {
            return Place {
                left: false,
                cell: Cell::empty(),
            };
        }
        let place = place_at(&self.versions, version);
        Place {
            left: place.left,
            cell: Cell {
                held: lend(&self.finds, place.cell.held),
            },
        }
    }

    /// Caches a find in each version up to `top`, unless what is cached there is alive at the moment and of higher rank.
    /// `outranked` says whether the find of the whole name outranks it. It takes no memory.
    pub fn hold(&mut self, find: SharedFind, moment: u64, outranked: bool, top: u64)
        requires upto { self.old.upto ≤ top }
        requires lower { outranked ≡ true → level_of find.rank < 4 }
        ensures places { HoldsUpTo top (admission_of find find moment) outranked self.old self.new }
        ensures upto { self.new.upto ≡ top }
        ensures left { (v : ℕ) → (place_in self.new v).left ≡ true → (place_in self.old v).left ≡ true }
    {
        reach(&mut self.versions, self.upto, top);
        self.upto = top;
        let slot = self.finds.len();
        self.finds.push(find);
        admit_each(
            &mut self.versions,
            self.finds.get(slot).find(),
            slot as Slot,
            moment,
            outranked,
        );
        merge(&mut self.versions);
        release(&mut self.versions, &mut self.finds);
    }

    /// Makes a flush permanent: it gives the versions before it the content of its own version. It takes no memory.
    pub fn forget_before(&mut self, number: u64)
        requires upto { number ≤ self.old.upto }
        ensures { IsSettledTo number self.old self.new }
    {
        forget_before(&mut self.versions, number);
        release(&mut self.versions, &mut self.finds);
    }

    /// Makes any flush permanent. If no admission has come since the flush, the column becomes empty.
    pub fn settle(&mut self, number: u64)
        ensures { IsSettledTo number self.old self.new }
    {
        if self.upto < number {
            self.clear();
        } else {
            self.forget_before(number);
        }
    }

    // Empties every version.
    fn clear(&mut self)
        ensures places { (v : ℕ) → place_in self.new v ≡ nothing }
        ensures upto { self.new.upto ≡ self.old.upto }
        ensures counted { is_counted self.new ≡ false }
    {
        self.versions.clear();
        self.versions.push(ColumnEntry::default());
        self.finds.clear();
    }

    /// Drops the finds that are dead at a moment, and those that no version in use has. Version 0 and those of `numbers` are in use.
    /// References to the find of the whole name stay. It takes no memory.
    pub fn sweep(&mut self, numbers: &[u64], moment: u64)
        ensures places { (v : ℕ) → is_asked numbers.now v ≡ true → place_in self.new v ≡ swept moment (place_in self.old v) }
        ensures left { (v : ℕ) → (place_in self.new v).left ≡ true → (place_in self.old v).left ≡ true }
        ensures upto { self.new.upto ≡ self.old.upto }
        ensures less { (v : ℕ) → IsLess (place_in self.new v) (swept moment (place_in self.old v)) }
        ensures seen { is_counted self.new ≡ true → IsSeenAt numbers.now self.new }
        ensures counted { is_counted self.new ≡ true → is_counted self.old ≡ true }
    {
        sweep_each(&mut self.versions, moment);
        merge(&mut self.versions);
        prune(&mut self.versions, numbers, self.upto);
        merge(&mut self.versions);
        release(&mut self.versions, &mut self.finds);
    }

    /// Drops the finds that are dead at a moment, from a column with one entry. Its versions are alike, so it does not matter which of
    /// them are in use. References to the find of the whole name stay. It takes no memory.
    pub fn sweep_even(&mut self, moment: u64)
        requires even { is_mixed self.old ≡ false }
        ensures places { (v : ℕ) → place_in self.new v ≡ swept moment (place_in self.old v) }
        ensures upto { self.new.upto ≡ self.old.upto }
        ensures seen { is_counted self.new ≡ true → is_some (place_in self.new 0).cell.held ≡ true }
        ensures counted { is_counted self.new ≡ true → is_counted self.old ≡ true }
    {
        sweep_each(&mut self.versions, moment);
        release(&mut self.versions, &mut self.finds);
    }
}
