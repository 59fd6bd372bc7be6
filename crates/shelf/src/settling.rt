//! Permanent flushes of zones. They reach the cells of the names a few at a time, so that no call visits many of them.

ghost use Rattle.std.specs.Prelude.{◌≡◌, ◌<◌, ◌≤◌, ◌+◌, ◌-◌, ◌^◌, [], ℕ, true, false, length, vec_capacity, OnOk};
ghost use Rattle.std.specs.List.{AllByRecursion};
ghost use Rattle.dns_name.specs.Labels.{Labels};
ghost use Rattle.ranked.specs.declared.flush.Reach.TheVariants.{Zone};
ghost use Rattle.cell_store.specs.Owner.{after_settle};
ghost use Rattle.cell_store.specs.Store.{AreUpTo, CanSettleAt, HaveTop};
ghost use Rattle.shelf.specs.Clean.{HaveEnds};
ghost use Rattle.shelf.specs.Losing.{AreDoubted, HaveGoneDown, IsTallied, IsTidiedAt, LoseCells, TakesSteps};
ghost use Rattle.shelf.specs.Settling.{ends_first, first_at, is_outdone, joined_by, moved_by_name, moved_by_zone, settled_version, unmoved};
ghost use Rattle.shelf.specs.Settling.{with_left, without_outdone, AreMovedAlone, AreMovedBy, AreMovedFrom, DoubtsIfRoom, HasGrown, HasShrunk, IsOneLonger, IsReaching};

use crate::ends::{Ends, doubt_all, drop_at, end_mixed, put, settle_doubt};
use crate::shelf::Shelf;
use cell_store::{Owners, drop_empty_at, drop_if_uncounted, settle_at, settle_kinds};
use dns_name::{Name, NoMemory};
use std::alloc::Global;

/// The names that a permanent flush reaches at one call, so that no call is long.
pub(crate) const REACHED_AT_ONCE: usize = 256;

/// A permanent flush of every type at or below a name. One of number 0 changes no version: after a flush has gone, it ends the names whose
/// moments that left in doubt, a few at a time.
#[derive(Drop)]
pub struct Settling {
    pub zone: Name,
    pub number: u64,
    /// The flush has reached each name from this place on. The names before it may have content from before the flush.
    pub left: usize,
}

// Makes room for one flush more than `count`.
pub(crate) fn reserve_settlings(settlings: &mut Vec<Settling>, count: usize) -> Result<(), NoMemory>
    requires few { count < 2 ^ 63 }
    ensures items { settlings.new.items ≡ settlings.old.items }
    ensures room { OnOk result (length settlings.new.items + count + 1 ≤ vec_capacity settlings.new) }
    ensures more { vec_capacity settlings.old ≤ vec_capacity settlings.new }
{
    settlings.reserve(count + 1)?;
    Ok(())
}

// Whether no permanent flush has names to reach, and no names in doubt are to be ended.
pub(crate) fn none_left(settlings: &[Settling]) -> bool
    ensures { result ≡ true → settlings.now ≡ [] }
{
    settlings.is_empty()
}

// Whether the first permanent flush only ends names in doubt.
pub(crate) fn ends_first(settlings: &[Settling]) -> bool
    ensures { result ≡ ends_first settlings.now }
{
    match settlings.first() {
        Some(own) => own.number == 0,
        None => false,
    }
}

// The version whose content a version of a name has.
pub(crate) fn settled_version(settlings: &[Settling], owner: &Name, version: u64) -> u64
    ensures { result ≡ settled_version settlings.now owner.now version }
{
    let mut last = version;
    for own in settlings {
        last = later(owner.at_or_below(&own.zone), own.number, last);
    }
    last
}

fn later(covered: bool, number: u64, version: u64) -> u64
    ensures { result ≡ after_settle covered number version }
{
    if covered {
        version.max(number)
    } else {
        version
    }
}

// Removes the name at a place if no place of it counts. Else its columns without a find go, and the next sweep visits it. It takes no
// memory. The entry may have changed since the moments were right.
fn drop_or_end(owners: &mut Owners, ends: &mut Ends, place: usize)
    requires low { place < length owners.old.entries }
    requires top { HaveTop owners.old }
    requires size { HaveEnds owners.old.entries ends.old }
    ensures tidied { IsTidiedAt place owners.old ends.old owners.new ends.new }
    ensures ended { HaveGoneDown (place + 1) place ends.old ends.new }
{
    if drop_if_uncounted(owners, place) {
        drop_at(ends, place);
        ends.lasts.swap_remove(owners, place);
        return;
    }
    drop_empty_at(owners, place);
    put(ends, place, 0, false);
}

// Lets a flush reach the name at a place, if there is one. If the flush covers the name, the name goes, or the next sweep visits it. It
// takes no memory.
fn reach_at(
    owners: &mut Owners,
    ends: &mut Ends,
    stored: &mut u64,
    zone: &Name,
    number: u64,
    place: usize,
)
    requires tallied { IsTallied owners.old stored.old ends.old }
    ensures reaching { (top : ℕ) → AreUpTo top owners.old → IsReaching zone.now number top (place + 1) place owners.old owners.new }
    ensures lost { LoseCells owners.old stored.old ends.old owners.new stored.new ends.new }
    ensures ended { HaveGoneDown (place + 1) place ends.old ends.new }
{
    // No flush has number 0: this one only ends names that are in doubt.
    if number == 0 {
        settle_doubt(ends, place);
        return;
    }
    // If names were forgotten since, there may be fewer.
    if place >= owners.len() {
        settle_doubt(ends, place);
        return;
    }
    if !settle_at(owners, stored, place, zone, number) {
        settle_doubt(ends, place);
        return;
    }
    drop_or_end(owners, ends, place);
}

// Lets a flush reach so many names more, from the place `left` down. The next sweep visits those that it covers. It takes no memory.
fn reach(
    owners: &mut Owners,
    ends: &mut Ends,
    stored: &mut u64,
    zone: &Name,
    number: u64,
    left: usize,
    most: usize,
) -> usize
    requires tallied { IsTallied owners.old stored.old ends.old }
    ensures reaching { (top : ℕ) → AreUpTo top owners.old → IsReaching zone.now number top left result owners.old owners.new }
    ensures lost { LoseCells owners.old stored.old ends.old owners.new stored.new ends.new }
    ensures left { result ≡ left - most }
    ensures ended { HaveGoneDown left result ends.old ends.new }
{
    let last = left.saturating_sub(most);
    let mut place = left;
    while place > last {
        place -= 1;
        reach_at(owners, ends, stored, zone, number, place);
    }
    place
}

impl Settling {
    // Sets how many names it has left to reach.
    fn set_left(&mut self, left: usize)
        ensures { self.new ≡ with_left left self.old }
    {
        self.left = left;
    }
}

// The first flush has so many names left to reach. It goes once it has none.
fn step_first(settlings: &mut Vec<Settling>, left: usize)
    ensures items { settlings.new.items ≡ first_at left settlings.old.items }
    ensures capacity { vec_capacity settlings.new ≡ vec_capacity settlings.old }
{
    if settlings.is_empty() {
        return;
    }
    if left == 0 {
        settlings.remove(0);
        return;
    }
    settlings[0].set_left(left);
}

// Lets the oldest of the permanent flushes reach so many names more, if there is one. It takes no memory.
pub(crate) fn reach_some(
    owners: &mut Owners,
    ends: &mut Ends,
    stored: &mut u64,
    settlings: &mut Vec<Settling>,
    most: usize,
)
    requires tallied { IsTallied owners.old stored.old ends.old }
    ensures moved { AreMovedBy unmoved settlings.old.items settlings.new.items owners.old owners.new }
    ensures lost { LoseCells owners.old stored.old ends.old owners.new stored.new ends.new }
    ensures room { HasShrunk settlings.old settlings.new }
    ensures left { TakesSteps most settlings.old.items settlings.new.items ends.old ends.new }
{
    if settlings.is_empty() {
        return;
    }
    let own = &settlings[0];
    let left = reach(owners, ends, stored, &own.zone, own.number, own.left, most);
    step_first(settlings, left);
}

// Whether a flush of every type at or below a name covers all that another flush covers, and is not older.
fn is_outdone(zone: &Name, number: u64, own: &Settling) -> bool
    ensures { result ≡ is_outdone zone.now number own.now }
{
    own.number <= number && own.zone.at_or_below(zone)
}

// Drops the flushes that such a flush outdoes.
fn drop_outdone(settlings: &mut Vec<Settling>, zone: &Name, number: u64)
    ensures items { settlings.new.items ≡ without_outdone zone.now number settlings.old.items }
    ensures room { (length settlings.new.items ≤ length settlings.old.items)
        × (vec_capacity settlings.new ≡ vec_capacity settlings.old) }
{
    settlings.retain(|own| !is_outdone(zone, number, own));
}

// Makes a flush of every type at or below a name permanent. It reaches the names later. Flushes go that it outdoes. It visits no name, and
// takes no memory.
pub(crate) fn settle_zone(owners: &Owners, settlings: &mut Vec<Settling>, zone: Name, number: u64)
    requires room { length settlings.old.items < vec_capacity settlings.old }
    ensures moved { AreMovedFrom number (moved_by_zone zone number) settlings.old.items settlings.new.items owners.now owners.now }
    ensures items { settlings.new.items ≡ joined_by Zone zone number (length owners.now.entries) settlings.old.items }
    ensures room { IsOneLonger settlings.old settlings.new }
{
    drop_outdone(settlings, &zone, number);
    settlings.push_reserved(Settling {
        zone,
        number,
        left: owners.len(),
    });
}

// A flush that was undone has gone: the names whose moments may be wrong are ended a few at a time. If the list has no room, they are ended
// at once. It takes no memory.
pub(crate) fn doubt_later(
    alloc: Global,
    owners: &Owners,
    ends: &mut Ends,
    settlings: &mut Vec<Settling>,
)
    ensures doubt { AreDoubted owners.now.entries ends.old owners.now.entries ends.new settlings.new.items }
    ensures moved { AreMovedBy unmoved settlings.old.items settlings.new.items owners.now owners.now }
    ensures versions { (name : Labels) (v : ℕ) →
        settled_version settlings.new.items name v ≡ settled_version settlings.old.items name v }
    ensures room { HasGrown settlings.old settlings.new }
    ensures items { DoubtsIfRoom (length owners.now.entries) settlings.old settlings.new }
{
    if settlings.len() >= settlings.capacity() {
        end_mixed(ends);
        return;
    }
    doubt_all(owners, ends);
    settle_zone(owners, settlings, Name::root(alloc), 0);
}

// Makes a flush of some types of a name permanent. If no place of the name counts then, it goes. Else the next sweep visits it. It takes no
// memory.
pub(crate) fn settle_name(
    owners: &mut Owners,
    ends: &mut Ends,
    stored: &mut u64,
    name: &Name,
    kinds: &[u16],
    number: u64,
)
    requires settles { AllByRecursion (λ kind. CanSettleAt number kind name.now owners.old) kinds.now }
    requires tallied { IsTallied owners.old stored.old ends.old }
    ensures moved { AreMovedAlone (moved_by_name name.now kinds.now number) owners.old owners.new }
    ensures lost { LoseCells owners.old stored.old ends.old owners.new stored.new ends.new }
    ensures left { ends.new.left ≤ ends.old.left }
{
    let place = owners.get_index_of(name);
    settle_kinds(owners, stored, name, kinds, number);
    match place {
        Some(place) => drop_or_end(owners, ends, place),
        None => {}
    }
}

impl Shelf {
    // The version whose content a version of a name has, by the permanent flushes that have not reached each name.
    pub(crate) fn settled(&self, owner: &Name, version: u64) -> u64
        ensures { result ≡ settled_version self.now.settlings.items owner.now version }
    {
        settled_version(&self.settlings, owner, version)
    }

    // Whether a permanent flush of a zone has names to reach, or names in doubt are to be ended.
    pub(crate) fn is_reaching(&self) -> bool
        ensures some { result ≡ true → 0 < length self.now.settlings.items }
        ensures none { result ≡ false → self.now.settlings.items ≡ [] }
    {
        !self.settlings.is_empty()
    }
}
