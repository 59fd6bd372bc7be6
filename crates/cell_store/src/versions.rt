//! One change made in each version of a column.

ghost use Rattle.std.specs.Prelude.{◌≡◌, ◌<◌, ◌≤◌, ◌==◌, ℕ, ◌+◌, false, max, min, map, if◌then◌else◌, length, drop, slice_index_or};
ghost use Rattle.std.specs.List.{AllByRecursion};
ghost use Rattle.cell_store.specs.Column.{DropsEntries};
ghost use Rattle.ranked.specs.Find.{admission_of};
ghost use Rattle.cell_store.specs.Ends.{cell_end, first_end, latest};
ghost use Rattle.cell_store.specs.Few.{contents, DoDiffer};
ghost use Rattle.cell_store.specs.Sweep.{swept, version_swept};
ghost use Rattle.cell_store.specs.Version.{lowered, reached, version_after, place_at, IsFromStart};

use crate::entry::{ColumnEntry, Entries};
use crate::version::{Place, Slot, Version};
use ranked::{Cell, Find};

impl ColumnEntry {
    // Caches a find, as its place does.
    fn admit(&mut self, find: &Find, slot: Slot, moment: u64, outranked: bool)
        ensures { self.new ≡ version_after (admission_of find.now slot moment) outranked self.old }
    {
        let mut place = self.place();
        place.admit(find, slot, moment, outranked);
        self.set_place(place);
    }

    // Moves the start to version 0, if it is at a number or before.
    fn lower(&mut self, number: u64)
        ensures { self.new ≡ lowered number self.old }
    {
        if self.is_from(number) {
            self.start_at(0);
        }
    }

    // Drops the find, if it is dead at a moment.
    fn sweep(&mut self, moment: u64)
        ensures { self.new ≡ version_swept moment self.old }
    {
        let mut place = self.place();
        place.sweep(moment);
        self.set_place(place);
    }
}

fn lower_each(versions: &mut Entries, number: u64)
    ensures { versions.new.items ≡ map (lowered number) versions.old.items }
{
    for entry in versions.iter_mut() {
        entry.lower(number);
    }
}

// The place of the last entry that starts at version 0.
fn last_start(versions: &[ColumnEntry]) -> usize
    requires starts { IsFromStart versions.now }
    ensures within { result < length versions.now }
    ensures start { (d : Version ℕ) → (slice_index_or versions.now result d).from ≡ 0 }
    ensures last { (i : ℕ) (d : Version ℕ) → result < i → i < length versions.now →
        ((slice_index_or versions.now i d).from == 0) ≡ false }
{
    let mut last = 0;
    for (place, entry) in versions.iter().enumerate() {
        if entry.start() == 0 {
            last = place;
        }
    }
    last
}

fn drop_front(versions: &mut Entries, count: usize)
    requires { count ≤ length versions.old.items }
    ensures { versions.new.items ≡ drop count versions.old.items }
{
    let kept = versions.len() - count;
    versions.rotate_left(count);
    versions.truncate(kept);
}

// Gives every version before one the content of that one.
pub(crate) fn forget_before(versions: &mut Entries, number: u64)
    requires starts { IsFromStart versions.old.items }
    ensures places { (v : ℕ) → place_at versions.new.items v ≡ place_at versions.old.items (max number v) }
    ensures drops { DropsEntries versions.old.items versions.new.items }
    ensures starts { IsFromStart versions.new.items
        × AllByRecursion (λ version. number < version.from) (drop 1 versions.new.items) }
    ensures differ { DoDiffer (contents versions.old.items) → DoDiffer (contents versions.new.items) }
{
    lower_each(versions, number);
    let before = last_start(versions);
    drop_front(versions, before);
}

// Caches a find in each version.
pub(crate) fn admit_each(
    versions: &mut Entries,
    find: &Find,
    slot: Slot,
    moment: u64,
    outranked: bool,
)
    ensures { versions.new.items ≡ map (version_after (admission_of find.now slot moment) outranked) versions.old.items }
{
    for entry in versions.iter_mut() {
        entry.admit(find, slot, moment, outranked);
    }
}

// The content in a version.
pub(crate) fn place_at(versions: &[ColumnEntry], number: u64) -> Place<Slot>
    ensures { result ≡ place_at versions.now number }
{
    let mut place = Place {
        left: false,
        cell: Cell::empty(),
    };
    for entry in versions {
        if entry.is_from(number) {
            place = entry.place();
        }
    }
    place
}

impl<B: Copy> Place<B> {
    // Drops the find, if it is dead at a moment.
    fn sweep(&mut self, moment: u64)
        ensures { self.new ≡ swept moment self.old }
    {
        if self.left {
            self.cell = Cell::empty();
            return;
        }
        if let Some(held) = self.cell.held {
            if held.is_alive(moment) {
                return;
            }
            self.cell = Cell::empty();
        }
    }
}

// Adds an empty entry for the versions from `upto` to `top`, which an admission can change.
pub(crate) fn reach(versions: &mut Entries, upto: u64, top: u64)
    requires { length versions.old.items < 6 }
    ensures { versions.new.items ≡ reached upto top versions.old.items }
{
    if upto < top {
        versions.push(ColumnEntry::new(Version {
            from: upto + 1,
            place: Place {
                left: false,
                cell: Cell::empty(),
            },
        }));
    }
}

impl<B: Copy> Place<B> {
    // The moment at which it ends.
    fn end(&self) -> u64
        ensures { result ≡ cell_end self.now.cell.held }
    {
        match self.cell.held {
            Some(held) => cell_end(held.since, held.ttl),
            None => u64::MAX,
        }
    }
}

// The moment at which a find ends that was admitted at `since`. With TTL 0 it is never alive.
pub(crate) fn cell_end(since: u64, ttl: u32) -> u64
    ensures { result ≡ (if ttl == 0 then 0 else min (since + ttl) latest) }
{
    if ttl == 0 {
        return 0;
    }
    since.saturating_add(u64::from(ttl))
}

// The first moment at which an entry ends.
pub(crate) fn first_end(versions: &[ColumnEntry]) -> u64
    ensures { result ≡ first_end versions.now }
{
    let mut end = u64::MAX;
    for entry in versions {
        end = end.min(entry.place().end());
    }
    end
}

// Drops the finds that are dead at a moment, from each version.
pub(crate) fn sweep_each(versions: &mut Entries, moment: u64)
    ensures { versions.new.items ≡ map (version_swept moment) versions.old.items }
{
    for entry in versions.iter_mut() {
        entry.sweep(moment);
    }
}
