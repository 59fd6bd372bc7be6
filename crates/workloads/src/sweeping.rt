//! Sweeps of some names at a time, as those of the service's sweeper, beside commands that can be undone. A name that was flushed, and is
//! cached again with a lower rank, has two versions. The sweeps after a flush that goes, for good or since it was undone, visit it.

ghost use Rattle.std.specs.Prelude.{◌<◌};

use crate::draws::{below, draws_of};
use crate::finds::{addresses, copy_of, denial, ipv6_addresses, names_up_to, soa_record};
use crate::noted::Noted;
use dns_name::Name;
use dns_text::types::{A, AAAA};
use dns_text::{Items, Question, Record};
use history::{Book, Command, Event, Settings};
use rand_pcg::Pcg32;
use ranked::{Rank, SharedFind};
use std::alloc::Global;
use undo_book::ShelfBook;

/// The TTLs of most data, in seconds.
const TTLS: [u32; 8] = [30, 60, 60, 300, 300, 3_600, 3_600, 86_400];

/// The ranks of data. More than half of what is cached again has a lower rank than before.
const RANKS: [Rank; 8] = [
    Rank::AuthoritativeAnswer,
    Rank::AuthoritativeAnswer,
    Rank::Authority,
    Rank::Answer,
    Rank::Answer,
    Rank::Additional,
    Rank::Additional,
    Rank::Additional,
];

/// How many steps there are in a second.
const EACH_SECOND: u32 = 256;

/// How many steps there are from one turn of the sweeper to the next.
const BETWEEN_TURNS: u32 = 32;

/// How many commands come in as many steps as there are cells.
const TO_THE_CELLS: u32 = 32;

/// A find of a name: addresses of some rank, or a negative answer.
fn next_find(
    alloc: Global,
    rng: &mut Pcg32,
    owner: Name,
    soa: &Record,
) -> anyhow::Result<SharedFind> {
    let ttl = TTLS[below(rng, 8) as usize];
    let rank = RANKS[below(rng, 8) as usize];
    match below(rng, 16) {
        0 => denial(alloc, owner, None, ttl, soa),
        1 => denial(alloc, owner, Some(A), ttl, soa),
        2 | 3 => ipv6_addresses(alloc, rng, owner, rank, ttl),
        _ => addresses(alloc, rng, owner, rank, ttl),
    }
}

/// The zone above a name, or the root.
fn zone_above(alloc: Global, name: &Name) -> anyhow::Result<Name> {
    match name.parent(alloc)? {
        Some(zone) => Ok(zone),
        None => Ok(Name::root(alloc)),
    }
}

/// The top-level zone of a name.
fn top_of(alloc: Global, name: Name) -> anyhow::Result<Name> {
    let mut top = name;
    for _ in 0..127u32 {
        let zone = zone_above(alloc, &top)?;
        if zone.octets().is_empty() {
            return Ok(top);
        }
        top = zone;
    }
    Ok(top)
}

/// A flush of a name or a zone above it, or an undo or redo.
fn next_command(alloc: Global, rng: &mut Pcg32, moment: u64, name: Name) -> anyhow::Result<Event> {
    let command = match below(rng, 32) {
        0..=5 => return Ok(Event::Undo { moment }),
        6..=9 => return Ok(Event::Redo { moment }),
        10 | 11 => Command::Flush { name },
        12 | 13 => Command::FlushType(Question {
            owner: name,
            kind: A,
        }),
        14..=17 => Command::FlushZone {
            name: zone_above(alloc, &name)?,
        },
        18..=29 => Command::FlushZone {
            name: top_of(alloc, name)?,
        },
        _ => Command::FlushZone {
            name: Name::root(alloc),
        },
    };
    Ok(Event::Do { moment, command })
}

/// Looks a name up, or caches something about it.
fn look_or_cache<B: Book>(
    alloc: Global,
    noted: &mut Noted<B>,
    rng: &mut Pcg32,
    moment: u64,
    name: Name,
    soa: &Record,
) -> anyhow::Result<()> {
    if below(rng, 16) < 5 {
        let kind = if below(rng, 8) == 0 { AAAA } else { A };
        return noted.look(&Question { owner: name, kind }, moment);
    }
    let find = next_find(alloc, rng, name, soa)?;
    noted.take(moment, &find)
}

/// A turn of the sweeper, and a sweep once nothing is left.
fn sweep<B: Book>(noted: &mut Noted<B>, moment: u64) -> anyhow::Result<()> {
    if noted.sweep_some() {
        return Ok(());
    }
    noted.give(Event::Sweep { moment })
}

/// Looks each name up.
fn look_all_up<B: Book>(noted: &mut Noted<B>, moment: u64, names: Vec<Name>) -> anyhow::Result<()> {
    for owner in names {
        noted.look(&Question { owner, kind: A }, moment)?;
    }
    Ok(())
}

/// So many steps, and then a lookup of each name. Three quarters of the steps are about fewer names than there are cells. The others are
/// about twice as many as cells, so that the cache fills.
fn work_on<B: Book>(
    alloc: Global,
    book: B,
    seed: u32,
    cells: u32,
    count: u32,
) -> anyhow::Result<u64>
    requires { 0 < cells }
{
    let mut noted = Noted::new(alloc, book);
    let mut rng = draws_of(seed, 14, 0);
    let soa = soa_record(alloc)?;
    let names = cells.saturating_mul(2).max(1);
    let owners = names_up_to(alloc, seed, names)?;
    let between = (cells / TO_THE_CELLS).max(1);
    for step in 0..count {
        let moment = u64::from(step / EACH_SECOND);
        let few = step < count - count / 4;
        let limit = if few { cells - cells / 4 } else { names };
        let name = copy_of(owners.as_slice(), below(&mut rng, limit))?;
        if step % between == 0 {
            let event = next_command(alloc, &mut rng, moment, name)?;
            noted.give(event)?;
        } else {
            look_or_cache(alloc, &mut noted, &mut rng, moment, name, &soa)?;
        }
        if step % BETWEEN_TURNS == 0 {
            sweep(&mut noted, moment)?;
        }
    }
    look_all_up(&mut noted, u64::from(count / EACH_SECOND), owners)?;
    Ok(noted.digest.sum())
}

/// Sweeps a cache of so many cells between so many steps, and returns the digest of what happened.
pub fn sweep_by_turns(alloc: Global, seed: u32, cells: u32, count: u32) -> anyhow::Result<u64> {
    if cells == 0 {
        return Ok(0);
    }
    let settings = Settings {
        journal: 64,
        cells: cells as usize,
        hints: Items::new(Vec::new(alloc)),
        server_port: 53,
    };
    work_on(alloc, ShelfBook::new(alloc, settings)?, seed, cells, count)
}
