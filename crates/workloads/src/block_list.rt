//! A block list: local zones and records that lines load, questions below, at and beside blocked names, and changes of the list.

ghost use Rattle.std.specs.Prelude.{◌≡◌, ◌<◌};

use crate::answers::{ask_many, fill};
use crate::draws::{below, draws_of, skewed};
use crate::names::{push_domain, push_letters};
use crate::outside::SetClock;
use crate::spelled::Spelled;
use crate::streams_in_memory::{Lines, Told};
use crate::worker::Worker;
use command_text::serve_control;
use dns_text::types::A;
use flight::Numbered;
use rand_core::Rng;
use rand_pcg::Pcg32;
use std::alloc::{AllocError, Global};
use std::cell::Cell;
use std::sync::Arc;

/// The zone types of a list. Most block a name and all below it.
const TYPES: [&[u8]; 8] = [
    b"static",
    b"static",
    b"always_nxdomain",
    b"always_nxdomain",
    b"refuse",
    b"redirect",
    b"static",
    b"transparent",
];

/// How many questions come between two changes of the list.
const BETWEEN: u32 = 500;

/// How many records a zone has, but the first zone, which has a hundredth of all.
const TO_A_ZONE: u32 = 16;

/// The type of a zone by its number.
fn type_of(zone: u32) -> &'static [u8] {
    TYPES[(zone % 8) as usize]
}

/// Whether the records of a zone all belong to its own name.
fn is_redirect(zone: u32) -> bool {
    zone % 8 == 5
}

/// Writes the name of a zone.
fn push_zone(out: &mut Vec<u8>, seed: u32, zone: u32) -> Result<(), AllocError> {
    if zone % 2 == 0 {
        out.extend_from_slice(b"ads.")?;
    }
    push_domain(out, seed, zone.wrapping_add(500_000))
}

/// The zone of a record by its number.
fn zone_of(record: u32, records: u32) -> u32 {
    if record < records / 100 {
        0
    } else {
        record % (records / TO_A_ZONE).max(1)
    }
}

/// Writes the owner of a record.
fn push_owner(out: &mut Vec<u8>, seed: u32, record: u32, records: u32) -> Result<(), AllocError> {
    let zone = zone_of(record, records);
    if !is_redirect(zone) {
        out.push(b'r')?;
        push_letters(out, record)?;
        out.push(b'.')?;
        if record % 4 == 0 {
            out.extend_from_slice(b"eu.track.")?;
        }
    }
    push_zone(out, seed, zone)
}

/// Writes a line that adds a record, or gives it another TTL.
fn push_record(
    out: &mut Vec<u8>,
    seed: u32,
    record: u32,
    records: u32,
    ttl: u32,
) -> anyhow::Result<()> {
    out.extend_from_slice(b"local_data ")?;
    push_owner(out, seed, record, records)?;
    let [_, high, middle, low] = record.to_be_bytes();
    let rest = format!(in *out.allocator(); " {ttl} A 10.{high}.{middle}.{low}\n")?;
    out.extend_from_slice(rest.as_str().as_bytes())?;
    Ok(())
}

/// The lines of the list.
fn lines_of(alloc: Global, seed: u32, records: u32) -> anyhow::Result<Vec<u8>> {
    let mut out = Vec::new(alloc);
    for zone in 0..records / TO_A_ZONE {
        out.extend_from_slice(b"local_zone ")?;
        push_zone(&mut out, seed, zone)?;
        out.push(b' ')?;
        out.extend_from_slice(type_of(zone))?;
        out.push(b'\n')?;
    }
    for record in 0..records {
        push_record(&mut out, seed, record, records, 60)?;
    }
    Ok(out)
}

/// Obeys lines at the worker's desk, and takes the replies into the digest.
fn obey<D: Numbered + Drop>(
    alloc: Global,
    worker: &mut Worker<D>,
    lines: &[u8],
) -> anyhow::Result<()> {
    let mut clock = SetClock {
        moment: Arc::new(alloc, Cell::new(worker.moment()))?,
    };
    let mut told = Told {
        digest: worker.network.digest,
    };
    let mut reader = Lines::new(lines);
    let ended = serve_control(alloc, &mut worker.desk, &mut clock, &mut reader, &mut told);
    worker.network.digest = told.digest;
    if ended.is_err() {
        worker.network.digest.number(1);
    }
    Ok(())
}

/// Replaces what a buffer holds by lines that change the list, take it back and do it again.
fn write_change(out: &mut Vec<u8>, rng: &mut Pcg32, seed: u32, records: u32) -> anyhow::Result<()>
    requires { 0 < records }
{
    out.clear();
    let record = below(rng, records);
    match below(rng, 4) {
        0 => {
            out.extend_from_slice(b"local_zone_remove ")?;
            push_zone(out, seed, zone_of(record, records))?;
            out.extend_from_slice(b"\nundo\nredo\nundo\n")?;
        }
        1 => {
            out.extend_from_slice(b"local_data_remove ")?;
            push_owner(out, seed, record, records)?;
            out.extend_from_slice(b"\nundo\n")?;
        }
        2 => {
            push_record(out, seed, record, records, 61 + below(rng, 1_000))?;
            out.extend_from_slice(b"undo\nredo\n")?;
        }
        _ => {
            push_record(out, seed, records.wrapping_add(record), records, 60)?;
            out.extend_from_slice(b"undo\n")?;
        }
    }
    Ok(())
}

/// The octets of names at, below and above the owners of the list.
fn spelled_list(alloc: Global, seed: u32, records: u32) -> anyhow::Result<Spelled> {
    let mut spelled = Spelled::new(alloc);
    let mut text = Vec::new(alloc);
    for record in 0..records {
        text.clear();
        match record % 8 {
            0 | 1 | 2 => push_owner(&mut text, seed, record, records)?,
            3 => push_zone(&mut text, seed, zone_of(record, records))?,
            _ => {
                text.push(b'x')?;
                push_letters(&mut text, record.wrapping_mul(17))?;
                text.push(b'.')?;
                push_zone(&mut text, seed, zone_of(record, records))?;
            }
        }
        spelled.push_text(text.as_slice())?;
    }
    Ok(spelled)
}

/// Questions for names around the list.
fn ask_listed<D: Numbered + Drop>(
    worker: &mut Worker<D>,
    rng: &mut Pcg32,
    listed: &Spelled,
    records: u32,
    count: u32,
) -> anyhow::Result<()>
    requires { 0 < records }
{
    for _ in 0..count {
        let place = u64::from(skewed(rng, records)).wrapping_mul(7_919) % u64::from(records);
        worker.ask(rng, listed.get(place as usize), A)?;
    }
    Ok(())
}

/// Loads a list of so many records beside a cache of half as many names, and answers so many questions: six in ten are for cached names.
pub fn block<D: Numbered + Drop>(
    alloc: Global,
    worker: &mut Worker<D>,
    seed: u32,
    records: u32,
    count: u32,
) -> anyhow::Result<()> {
    let names = records / 2;
    if records == 0 || names == 0 {
        return Ok(());
    }
    let spelled = fill(alloc, worker, seed, names)?;
    let listed = spelled_list(alloc, seed, records)?;
    let lines = lines_of(alloc, seed, records)?;
    obey(alloc, worker, lines.as_slice())?;
    let mut rng = draws_of(seed, 10, 0);
    let mut change = Vec::new(alloc);
    for _ in 0..count / BETWEEN + 1 {
        ask_many(worker, &mut rng, &spelled, seed, names, BETWEEN / 10 * 6)?;
        ask_listed(worker, &mut rng, &listed, records, BETWEEN / 10 * 4)?;
        write_change(&mut change, &mut rng, seed, records)?;
        obey(alloc, worker, change.as_slice())?;
    }
    Ok(())
}
