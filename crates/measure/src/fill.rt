//! Tables of local data that are filled by their own calls, one record a call.

use crate::calls::run_calls;
use crate::tables::{last_zone, owner};
use dns_name::Name;
use dns_text::{Record, Shared, read_record};
use local_zone::{ZoneTable, ZoneType};
use std::alloc::Global;

/// The name of each zone.
fn zone_names(alloc: Global, records: u32) -> anyhow::Result<Vec<Name>> {
    let mut names = Vec::new(alloc);
    for zone in 0..=last_zone(records) {
        let text = format!(in alloc; "z{zone}.test")?;
        names.push(Name::from_text(alloc, text.as_str().as_bytes())?)?;
    }
    Ok(names)
}

/// The address of an owner.
fn address(alloc: Global, place: u32, records: u32) -> anyhow::Result<Shared<Record>> {
    let owner = owner(alloc, place, records)?;
    let [_, _, middle, low] = place.to_be_bytes();
    let text = format!(in alloc; "{owner} 60 A 192.0.{middle}.{low}")?;
    Ok(Shared::new(alloc, read_record(alloc, text.as_str().as_bytes())?)?)
}

/// One address of each owner.
fn addresses(alloc: Global, records: u32) -> anyhow::Result<Vec<Shared<Record>>> {
    let mut addresses = Vec::new(alloc);
    for place in 0..records {
        addresses.push(address(alloc, place, records)?)?;
    }
    Ok(addresses)
}

fn set_zones(table: &mut ZoneTable, zones: &[Name]) -> anyhow::Result<()> {
    for name in zones {
        drop(table.set(name.clone()?, ZoneType::Static)?);
    }
    Ok(())
}

fn add_records(table: &mut ZoneTable, records: &[Shared<Record>]) -> anyhow::Result<()> {
    for record in records {
        drop(table.add_record(record.share()?)?);
    }
    Ok(())
}

/// The TTL of the last record of a table that is made anew and filled with these zones and records.
fn fill(alloc: Global, zones: &[Name], records: &[Shared<Record>]) -> anyhow::Result<u32> {
    let mut table = ZoneTable::new(alloc);
    set_zones(&mut table, zones)?;
    add_records(&mut table, records)?;
    Ok(table.records().last().map_or(0, |r| r.ttl().seconds()))
}

/// So many tables with so many records as the word says, one after another, and a sum over them.
fn fill_many(alloc: Global, records: &str, count: u32) -> anyhow::Result<u32> {
    let records = records.parse()?;
    let names = zone_names(alloc, records)?;
    let addresses = addresses(alloc, records)?;
    let mut sum = 0u32;
    for _ in 0..count {
        sum = sum.wrapping_add(fill(alloc, names.as_slice(), addresses.as_slice())?);
    }
    Ok(sum)
}

/// Every number of records that is shown.
const RECORDS: [&str; 1] = ["1000"];

/// Fills tables with so many local records as the first word says, and prints a sum over them.
pub fn measure_fill<R: Print>(rt: &R, alloc: Global, words: &[String]) -> anyhow::Result<()> {
    run_calls(
        rt,
        words,
        &RECORDS,
        4,
        |records, count| fill_many(alloc, records, count),
    )
}
