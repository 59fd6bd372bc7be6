//! Finds and cells at their edges.

use crate::checks::Checks;
use crate::finds::{ADDRESS, address, find_of};
use anyhow::anyhow;
use dns_name::Name;
use dns_text::Items;
use ranked::{Cell, Fate, Find, LONGEST_TTL, Rank, SharedFind};
use std::alloc::Global;
use std::sync::Arc;

/// A set of the address 192.0.2.1. None if the TTL is 0.
fn one(alloc: Global, ttl: u32) -> anyhow::Result<Option<Find>> {
    find_of(
        alloc,
        Name::from_text(alloc, b"a.test")?,
        ADDRESS,
        Rank::Answer,
        ttl,
    )
}

/// The TTL of such a set, if there is one.
fn held_ttl(alloc: Global, ttl: u32) -> anyhow::Result<Option<u32>> {
    Ok(one(alloc, ttl)?.map(|find| find.ttl))
}

/// A find keeps its time to live up to the longest there is. With a time of 0 there is no find.
pub fn times_to_live(checks: &mut Checks, alloc: Global) -> anyhow::Result<()> {
    for (ttl, held) in [
        (0, None),
        (1, Some(1)),
        (LONGEST_TTL, Some(LONGEST_TTL)),
        (LONGEST_TTL + 1, Some(LONGEST_TTL)),
        (u32::MAX, Some(LONGEST_TTL)),
    ] {
        checks.that(held_ttl(alloc, ttl)? == held);
    }
    Ok(())
}

/// A set without data is no find.
pub fn no_data(checks: &mut Checks, alloc: Global) -> anyhow::Result<()> {
    let data = Items::new(Vec::new(alloc));
    let find = Find::new(Name::root(alloc), 1, Rank::Answer, 60, data);
    checks.that(find.map(|find| find.ttl) == None);
    Ok(())
}

/// A cell holds to the last moment there is, and reads an earlier one as its own.
pub fn last_moment(checks: &mut Checks, alloc: Global) -> anyhow::Result<()> {
    let high = address(alloc, b"a.test", Rank::Answer, 60)?;
    let low = address(alloc, b"a.test", Rank::Additional, 60)?;
    let mut cell = Cell::empty();
    checks.that(cell.admit(high.find(), 7, u64::MAX) == Fate::Taken);
    checks.that(cell.at(u64::MAX).map(|s| s.left) == Some(60));
    checks.that(cell.at(0).map(|s| s.body) == Some(7));
    checks.that(cell.admit(low.find(), 8, u64::MAX) == Fate::Outranked);
    Ok(())
}

/// A cell shows its find up to the last second of its life.
pub fn end_of_life(checks: &mut Checks, alloc: Global) -> anyhow::Result<()> {
    let find = address(alloc, b"a.test", Rank::Answer, 60)?;
    let mut cell = Cell::empty();
    checks.that(cell.admit(find.find(), 7, 0) == Fate::Taken);
    for (moment, left) in [(0, Some(60)), (59, Some(1)), (60, None), (u64::MAX, None)] {
        checks.that(cell.at(moment).map(|s| s.left) == left);
    }
    Ok(())
}

/// Such a find, shared by what std shares with.
fn by_arc(alloc: Global) -> anyhow::Result<SharedFind> {
    let find = one(alloc, 60)?.ok_or(anyhow!("no find"))?;
    Ok(SharedFind::from(Arc::new(alloc, find)?))
}

/// A find is the same whoever shares it.
pub fn owners(checks: &mut Checks, alloc: Global) -> anyhow::Result<()> {
    let shared = address(alloc, b"a.test", Rank::Answer, 60)?;
    let other = shared.share()?;
    let again = SharedFind::from(shared.into_arc());
    let made = by_arc(alloc)?;
    checks.that(other == again);
    checks.that(again.find().ttl == 60);
    checks.that(!again.find().touches(&Name::root(alloc), 1));
    checks.that(made == other);
    Ok(())
}
