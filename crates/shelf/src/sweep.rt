//! The sweep: it removes expired finds, and the versions that no kept flush needs, at once or some names at a time.

ghost use Rattle.std.specs.Prelude.{◌≡◌, ◌<◌, ◌≤◌, ◌+◌, [], true, false, length, vec_capacity};
ghost use Rattle.cell_store.specs.Count.{stored_in, LosesFindsOf};
ghost use Rattle.cell_store.specs.Ends.{latest};
ghost use Rattle.cell_store.specs.Owner.{HasTop};
ghost use Rattle.cell_store.specs.Store.{HaveTop};
ghost use Rattle.cell_store.specs.Sweep.{IsSeenAlive, KeepsAlive};
ghost use Rattle.shelf.specs.Losing.{IsTallied};
ghost use Rattle.shelf.specs.Settling.{reached_at_once};
ghost use Rattle.shelf.specs.Sweep.{asked_at, count_ended, numbers_of, turn_at_most, unswept_of, AreAlive, AreSwept, CanSweep, EndsOneAt, IsSwept, IsSweptAt, IsUnderway};
ghost use Rattle.shelf.specs.Sweep.{NotesLifeUnlessGone, StaysUnderway};

use crate::ends::{Ends, drop_at, end_all, put};
use crate::oldest::last_end;
use crate::shelf::{KeptFlush, Shelf};
use cell_store::{OwnerCells, Owners, drop_if_uncounted};
use dns_name::Name;

// The numbers of the kept flushes that cover the question of a name and type.
fn collect(kept: &[KeptFlush], owner: &Name, kind: u16, numbers: &mut Vec<u64>)
    requires room { length kept.now ≤ vec_capacity numbers.old }
    ensures items { numbers.new.items ≡ numbers_of kept.now (record { owner = owner.now; kind = kind }) }
    ensures capacity { vec_capacity numbers.new ≡ vec_capacity numbers.old }
{
    numbers.clear();
    for own in kept {
        if own.flush.covers(owner, kind) {
            numbers.push_reserved(own.number);
        }
    }
}

// Removes the finds of a type that have expired at a moment, and its versions that no kept flush needs. The flushes are asked only if
// the column of the type has more than one entry.
fn sweep_type(
    cells: &mut OwnerCells,
    name: &Name,
    kind: u16,
    kept: &[KeptFlush],
    numbers: &mut Vec<u64>,
    moment: u64,
)
    requires room { length kept.now ≤ vec_capacity numbers.old }
    ensures cells { KeepsAlive kind (numbers_of kept.now (record { owner = name.now; kind = kind })) moment cells.old cells.new }
    ensures seen { IsSeenAlive kind (numbers_of kept.now (record { owner = name.now; kind = kind })) moment cells.new }
    ensures lost { LosesFindsOf kind cells.old cells.new }
    ensures capacity { vec_capacity numbers.new ≡ vec_capacity numbers.old }
{
    if cells.sweep_if_even(kind, moment) {
        return;
    }
    collect(kept, name, kind, numbers);
    cells.sweep_kind(kind, numbers, moment);
}

// Removes the finds of a name that have expired at a moment, the versions that no kept flush needs, and the columns without a find.
fn sweep_name(
    cells: &mut OwnerCells,
    name: &Name,
    kept: &[KeptFlush],
    numbers: &mut Vec<u64>,
    moment: u64,
)
    requires room { length kept.now ≤ vec_capacity numbers.old }
    requires top { HasTop cells.old }
    ensures swept { IsSwept kept.now moment name.now cells.old cells.new }
    ensures capacity { vec_capacity numbers.new ≡ vec_capacity numbers.old }
{
    cells.sweep_whole(moment);
    let mut place = 0;
    while place < cells.kinds.len() {
        let kind = cells.kinds[place].kind;
        sweep_type(cells, name, kind, kept, numbers, moment);
        place += 1;
    }
    cells.drop_empty();
}

// Sweeps the name at a place, and returns the moment of its next sweep. It is later than this one, but that of a name without finds.
// It also returns whether that moment is right only as long as no kept flush goes.
fn sweep_at(
    owners: &mut Owners,
    stored: &mut u64,
    kept: &[KeptFlush],
    numbers: &mut Vec<u64>,
    place: usize,
    moment: u64,
) -> (u64, bool)
    requires low { place < length owners.old.entries }
    requires room { length kept.now ≤ vec_capacity numbers.old }
    requires counted { stored.old ≡ stored_in owners.old }
    requires top { HaveTop owners.old }
    ensures swept { IsSweptAt kept.now moment place owners.old.entries owners.new.entries result.0 result.1 }
    ensures counted { stored.new ≡ stored_in owners.new }
    ensures fewer { stored.new ≤ stored.old }
    ensures capacity { vec_capacity numbers.new ≡ vec_capacity numbers.old }
{
    let (name, cells) = owners.pair_mut(place);
    let others = *stored - cells.counted();
    sweep_name(cells, name, kept, numbers, moment);
    *stored = others + cells.counted();
    let end = cells.first_end().max(moment.saturating_add(1));
    (end, cells.is_mixed())
}

// Sweeps the name at a place, and removes it if nothing of it is left.
fn visit(
    owners: &mut Owners,
    ends: &mut Ends,
    stored: &mut u64,
    kept: &[KeptFlush],
    numbers: &mut Vec<u64>,
    place: usize,
    moment: u64,
)
    requires low { place < length owners.old.entries }
    requires tallied { IsTallied owners.old stored.old ends.old }
    requires room { length kept.now ≤ vec_capacity numbers.old }
    ensures on { StaysUnderway kept.now moment owners.old ends.old stored.old owners.new ends.new stored.new }
    ensures ended { EndsOneAt place moment ends.old.moments ends.new.moments }
    ensures noted { NotesLifeUnlessGone place kept.now owners.old.entries owners.new.entries ends.new.lasts.ends.items }
    ensures capacity { vec_capacity numbers.new ≡ vec_capacity numbers.old }
{
    let (end, mixed) = sweep_at(owners, stored, kept, numbers, place, moment);
    if drop_if_uncounted(owners, place) {
        drop_at(ends, place);
        ends.lasts.swap_remove(owners, place);
    } else {
        put(ends, place, end, mixed);
        let last = last_end(owners, kept, place);
        ends.lasts.set(owners, place, last);
    }
}

// Sweeps the names that end at `asked` or before. It takes no memory.
fn sweep_ended(
    owners: &mut Owners,
    ends: &mut Ends,
    stored: &mut u64,
    kept: &[KeptFlush],
    numbers: &mut Vec<u64>,
    asked: u64,
    moment: u64,
)
    requires before { (asked ≤ moment) × (asked < latest) }
    requires room { length kept.now ≤ vec_capacity numbers.old }
    requires underway { IsUnderway kept.now moment asked owners.old stored.old owners.old ends.old stored.old }
    requires top { HaveTop owners.old }
    ensures swept { IsUnderway kept.now moment asked owners.old stored.old owners.new ends.new stored.new }
    ensures none { count_ended asked ends.new.moments ≡ 0 }
    ensures alive { AreAlive kept.now moment owners.new }
    ensures capacity { vec_capacity numbers.new ≡ vec_capacity numbers.old }
{
    while let Some(place) = ends.moments.first_ended(asked) {
        visit(owners, ends, stored, kept, numbers, place, moment);
    }
}

// The names that one call of `sweep_few` visits at most, so that no call is long.
const SWEPT_AT_ONCE: usize = 256;

// Sweeps some of the names that end at a moment or before, and returns whether there may be more. It takes no memory.
pub(crate) fn sweep_few(
    owners: &mut Owners,
    ends: &mut Ends,
    stored: &mut u64,
    kept: &[KeptFlush],
    numbers: &mut Vec<u64>,
    moment: u64,
) -> bool
    requires small { moment < latest }
    requires room { length kept.now ≤ vec_capacity numbers.old }
    requires ready { CanSweep kept.now owners.old ends.old stored.old }
    ensures swept { AreSwept kept.now moment owners.old stored.old owners.new ends.new stored.new }
    ensures more { result ≡ true → count_ended moment ends.new.moments < count_ended moment ends.old.moments }
    ensures short { count_ended moment ends.old.moments ≤ count_ended moment ends.new.moments + reached_at_once }
    ensures none { result ≡ false → (count_ended moment ends.new.moments ≡ 0) × AreAlive kept.now moment owners.new }
    ensures capacity { vec_capacity numbers.new ≡ vec_capacity numbers.old }
{
    let mut left = SWEPT_AT_ONCE;
    while left > 0 {
        match ends.moments.first_ended(moment) {
            Some(place) => visit(owners, ends, stored, kept, numbers, place, moment),
            None => return false,
        }
        left -= 1;
    }
    true
}

// Sweeps the names that need it at a moment. It takes no memory.
pub(crate) fn sweep_all(
    owners: &mut Owners,
    ends: &mut Ends,
    stored: &mut u64,
    kept: &[KeptFlush],
    numbers: &mut Vec<u64>,
    moment: u64,
)
    requires room { length kept.now ≤ vec_capacity numbers.old }
    requires ready { CanSweep kept.now owners.old ends.old stored.old }
    ensures swept { AreSwept kept.now moment owners.old stored.old owners.new ends.new stored.new }
    ensures none { count_ended (asked_at moment) ends.new.moments ≡ 0 }
    ensures alive { AreAlive kept.now moment owners.new }
    ensures capacity { vec_capacity numbers.new ≡ vec_capacity numbers.old }
{
    if moment < u64::MAX {
        sweep_ended(owners, ends, stored, kept, numbers, moment, moment);
        return;
    }
    // No moment is later than this one, so each name is visited.
    end_all(ends);
    sweep_ended(owners, ends, stored, kept, numbers, moment - 1, moment);
}

impl Shelf {
    ghost use Rattle.shelf.specs.Stored.{AreNeeded, ShowsSameAlive};
    ghost use Rattle.shelf.specs.Told.{IsShelf, LosesOnly};

    /// Drops the finds that are dead at a moment, the versions that no kept flush needs, and the columns and names of which nothing is
    /// left. Each permanent flush of a zone reaches each name first. It takes no memory.
    pub fn sweep(&mut self, moment: u64)
        requires whole { IsShelf self.old }
        ensures loses { LosesOnly self.old self.new }
        ensures faces { ShowsSameAlive moment self.old self.new }
        ensures alive { AreAlive self.old.kept.items moment self.new.owners × AreNeeded moment self.new }
        ensures none { (self.new.settlings.items ≡ []) × (unswept_of self.new moment ≡ 0) }
    {
        while self.is_reaching() {
            self.reach_names();
        }
        sweep_all(
            &mut self.owners,
            &mut self.ends,
            &mut self.stored,
            &self.kept,
            &mut self.numbers,
            moment,
        );
    }

    /// Drops some of what a sweep at the moment drops, and returns whether there may be more. A permanent flush of a zone reaches some
    /// more names first. It takes no memory. If it says that there may be more, less is left than before; if not, nothing is. No turn is
    /// long, but in the latest second: there a name is dead or never ends, and one turn visits each name.
    pub fn sweep_some(&mut self, moment: u64) -> bool
        requires whole { IsShelf self.old }
        ensures loses { LosesOnly self.old self.new }
        ensures faces { ShowsSameAlive moment self.old self.new }
        ensures more { result ≡ true → unswept_of self.new moment < unswept_of self.old moment }
        ensures none { result ≡ false → unswept_of self.new moment ≡ 0 }
        ensures short { moment < latest → unswept_of self.old moment ≤ unswept_of self.new moment + turn_at_most }
        ensures alive { result ≡ false → AreAlive self.old.kept.items moment self.new.owners × AreNeeded moment self.new }
    {
        if self.is_reaching() {
            self.reach_names();
            return true;
        }
        if moment == u64::MAX {
            // A name that was visited ends then, at the latest, so turns would not get on.
            self.sweep(moment);
            return false;
        }
        sweep_few(
            &mut self.owners,
            &mut self.ends,
            &mut self.stored,
            &self.kept,
            &mut self.numbers,
            moment,
        )
    }
}
