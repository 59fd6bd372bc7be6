//! Flushes that are made, and made permanent.

ghost use Rattle.std.specs.Prelude.{◌≡◌, ◌<◌, ◌≤◌, ◌+◌, ◌^◌, ℕ, length, vec_capacity, OnOk};
ghost use Rattle.ranked.specs.Flush.{flushed_types};
ghost use Rattle.cell_store.specs.Store.{AreUpTo, KeepNames, OpenColumns};
ghost use Rattle.shelf.specs.Kept.{stands_first};
ghost use Rattle.shelf.specs.Losing.{AreDoubted, IsTallied, LoseCells, LosePlaces};
ghost use Rattle.shelf.specs.Settling.{moved_by_flush, AreMovedFrom, HasGrown, HasJoined, IsOneLonger};
ghost use Rattle.shelf.specs.Told.{without, CanSettleFlush};

use crate::ends::{Ends, doubt_all};
use crate::settling::{Settling, settle_name, settle_zone};
use crate::shelf::KeptFlush;
use cell_store::{Owners, open_kinds};
use dns_name::{Name, NoMemory};
use dns_text::types;
use ranked::{Flush, Reach};
use std::alloc::Global;

// Makes room for one number more than `count`.
pub(crate) fn reserve(numbers: &mut Vec<u64>, count: usize) -> Result<(), NoMemory>
    requires few { count < 2 ^ 63 }
    ensures room { OnOk result (count + 1 ≤ vec_capacity numbers.new) }
    ensures more { vec_capacity numbers.old ≤ vec_capacity numbers.new }
{
    numbers.clear();
    numbers.reserve(count + 1)?;
    Ok(())
}

// The types of the cells that `flush` of a name empties.
pub(crate) fn flushed_types() -> [u16; 10]
    ensures { result ≡ flushed_types }
{
    [
        types::A,
        types::NS,
        types::SOA,
        types::CNAME,
        types::PTR,
        types::MX,
        types::AAAA,
        types::SRV,
        types::NAPTR,
        types::DNAME,
    ]
}

// Makes room for a flush, so that `settle_flush` needs no memory later. No cell changes.
pub(crate) fn open_flush(owners: &mut Owners, flush: &Flush, top: u64) -> Result<(), NoMemory>
    requires upto { AreUpTo top owners.old }
    ensures opens { OpenColumns top owners.old owners.new }
    ensures opened { OnOk result ((n : ℕ) → CanSettleFlush owners.new n flush.now) }
    ensures entries { KeepNames flush.now.name owners.old.entries owners.new.entries }
{
    match flush.reach {
        Reach::OneType(kind) => open_kinds(owners, &flush.name, &[kind], top),
        Reach::Name => open_kinds(owners, &flush.name, &flushed_types(), top),
        Reach::Zone => Ok(()),
    }
}

// Makes a flush permanent, once the list has room for one more.
fn settle_reach(
    alloc: Global,
    owners: &mut Owners,
    ends: &mut Ends,
    stored: &mut u64,
    settlings: &mut Vec<Settling>,
    flush: Flush,
    number: u64,
)
    requires tallied { IsTallied owners.old stored.old ends.old }
    requires room { length settlings.old.items < vec_capacity settlings.old }
    requires settles { CanSettleFlush owners.old number flush }
    ensures moved { AreMovedFrom number (moved_by_flush flush number) settlings.old.items settlings.new.items owners.old owners.new }
    ensures lost { LoseCells owners.old stored.old ends.old owners.new stored.new ends.new }
    ensures space { IsOneLonger settlings.old settlings.new }
    ensures items { HasJoined flush number owners.old settlings.old.items settlings.new.items }
    ensures left { ends.new.left ≤ ends.old.left }
{
    match flush.reach {
        Reach::OneType(kind) => {
            settle_zone(owners, settlings, Name::root(alloc), 0);
            settle_name(owners, ends, stored, &flush.name, &[kind], number)
        }
        Reach::Name => {
            settle_zone(owners, settlings, Name::root(alloc), 0);
            settle_name(owners, ends, stored, &flush.name, &flushed_types(), number)
        }
        Reach::Zone => settle_zone(owners, settlings, flush.name, number),
    }
}

// Makes a flush permanent.
pub(crate) fn settle_flush(
    alloc: Global,
    owners: &mut Owners,
    ends: &mut Ends,
    stored: &mut u64,
    settlings: &mut Vec<Settling>,
    flush: Flush,
    number: u64,
)
    requires tallied { IsTallied owners.old stored.old ends.old }
    requires room { length settlings.old.items < vec_capacity settlings.old }
    requires settles { CanSettleFlush owners.old number flush }
    ensures moved { AreMovedFrom number (moved_by_flush flush number) settlings.old.items settlings.new.items owners.old owners.new }
    ensures lost { LosePlaces owners.old stored.old owners.new stored.new }
    ensures doubt { AreDoubted owners.old.entries ends.old owners.new.entries ends.new settlings.new.items }
    ensures space { HasGrown settlings.old settlings.new }
    ensures items { HasJoined flush number owners.old settlings.old.items settlings.new.items }
{
    doubt_all(owners, ends);
    settle_reach(alloc, owners, ends, stored, settlings, flush, number);
}

// Whether the oldest flush has a number and is in force.
pub(crate) fn stands_first(kept: &[KeptFlush], number: u64) -> bool
    ensures { result ≡ stands_first number kept.now }
{
    match kept.first() {
        Some(own) => own.number == number && own.shown,
        None => false,
    }
}

// Removes the flush of a number.
pub(crate) fn remove_number(kept: &mut Vec<KeptFlush>, number: u64)
    ensures { kept.new.items ≡ without number kept.old.items }
{
    let mut place = 0;
    while place < kept.len() {
        if kept[place].number == number {
            kept.remove(place);
            return;
        }
        place += 1;
    }
}
