//! Answers from a cache of many names: first with no flush in force, then with several flushes that can be undone.

ghost use Rattle.std.specs.Prelude.{◌<◌};

use crate::draws::{below, draws_of, skewed};
use crate::finds::{Class, class_of, finds_of, names_up_to, rarer_kind, soa_record};
use crate::names::push_domain;
use crate::spelled::Spelled;
use crate::worker::Worker;
use dns_name::Name;
use dns_text::types::A;
use flight::Numbered;
use history::Command;
use rand_pcg::Pcg32;
use std::alloc::Global;

/// The TTL of what is cached: nothing ends while the questions come.
const TTL: u32 = 3_600;

/// The type of a question for a cached name, which has something of that type or a negative answer.
fn kind_asked(rng: &mut Pcg32, seed: u32, number: u32) -> u16 {
    if below(rng, 4) != 0 || class_of(seed, number) != Class::Sets {
        return A;
    }
    rarer_kind(seed, number).unwrap_or(A)
}

/// The octets of names.
fn spelled_names(alloc: Global, names: &[Name]) -> anyhow::Result<Spelled> {
    let mut spelled = Spelled::new(alloc);
    for name in names {
        spelled.push(name)?;
    }
    Ok(spelled)
}

/// Caches what there is about so many names, and returns the octets of these names.
pub fn fill<D: Numbered + Drop>(
    alloc: Global,
    worker: &mut Worker<D>,
    seed: u32,
    count: u32,
) -> anyhow::Result<Spelled>
    requires { 0 < count }
{
    let names = names_up_to(alloc, seed, count)?;
    let soa = soa_record(alloc)?;
    for number in 0..count {
        let finds = finds_of(alloc, seed, number, count, names.as_slice(), &soa, TTL)?;
        for find in finds {
            worker.admit(find)?;
        }
    }
    spelled_names(alloc, names.as_slice())
}

/// So many questions for cached names. The names that are asked for most are spread over the cache.
pub fn ask_many<D: Numbered + Drop>(
    worker: &mut Worker<D>,
    rng: &mut Pcg32,
    spelled: &Spelled,
    seed: u32,
    names: u32,
    count: u32,
) -> anyhow::Result<()>
    requires { 0 < names }
{
    for turn in 0..count {
        worker.set_moment(u64::from(turn / 1_024));
        let number = (u64::from(skewed(rng, names)).wrapping_mul(7_919) % u64::from(names)) as u32;
        let kind = kind_asked(rng, seed, number);
        worker.ask(rng, spelled.get(number as usize), kind)?;
    }
    Ok(())
}

/// Flushes some domains, a type of some names, and all types of some.
fn flush_some<D: Numbered + Drop>(
    alloc: Global,
    worker: &mut Worker<D>,
    seed: u32,
    names: u32,
) -> anyhow::Result<()>
    requires { 0 < names }
{
    for turn in 0..12u32 {
        let mut text = Vec::new(alloc);
        push_domain(
            &mut text,
            seed,
            turn.wrapping_mul(97).wrapping_add(50) % (names / 4).max(1),
        )?;
        let name = Name::from_text(alloc, text.as_slice())?;
        if turn % 3 == 2 {
            worker.command(Command::Flush { name })?;
        } else {
            worker.command(Command::FlushZone { name })?;
        }
    }
    Ok(())
}

/// Fills the cache and answers so many questions, the second half of them with twelve flushes in force.
pub fn answer<D: Numbered + Drop>(
    alloc: Global,
    worker: &mut Worker<D>,
    seed: u32,
    names: u32,
    count: u32,
) -> anyhow::Result<()> {
    if names == 0 {
        return Ok(());
    }
    let spelled = fill(alloc, worker, seed, names)?;
    let mut rng = draws_of(seed, 7, 0);
    ask_many(worker, &mut rng, &spelled, seed, names, count / 2)?;
    flush_some(alloc, worker, seed, names)?;
    ask_many(worker, &mut rng, &spelled, seed, names, count / 2)
}
