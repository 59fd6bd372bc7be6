//! New names for a full cache: for each, the name that ends first is forgotten.

use crate::beside::measure_beside;
use crate::between::{At, ask_many};
use crate::books::{find_in, give, shelf_of};
use crate::calls::run_calls;
use crate::lookups::questions;
use anyhow::anyhow;
use dns_name::Name;
use dns_text::Question;
use history::{Ask, Book, Desk, DeskFault, Event, Look, Reply, Seen, StepFault};
use ranked::SharedFind;
use std::alloc::Global;
use std::sync::Wait;
use std::time::CpuClock;

/// The TTL of each name, in seconds.
const TTL: u32 = 3_600;

/// The text of a name.
fn owner(alloc: Global, place: u32) -> anyhow::Result<String> {
    Ok(format!(in alloc; "n{place}.test")?)
}

/// An address of each name.
fn addresses(alloc: Global, names: u32) -> anyhow::Result<Vec<SharedFind>> {
    let mut finds = Vec::new(alloc);
    for place in 0..names {
        let [_, high, middle, low] = place.to_be_bytes();
        let text = format!(in alloc; "n{place}.test {TTL} A 192.{high}.{middle}.{low}")?;
        finds.push(find_in(alloc, text.as_str().as_bytes())?)?;
    }
    Ok(finds)
}

/// Admits a find, and returns whether there was room.
pub fn is_taken<D: Desk>(desk: &mut D, moment: u64, find: &SharedFind) -> anyhow::Result<bool> {
    let find = find.share()?;
    match desk.call(Event::Admit { moment, find }) {
        Ok(reply) => {
            drop(reply);
            Ok(true)
        }
        Err(DeskFault::Step(StepFault::Full { .. })) => Ok(false),
        Err(fault) => Err(fault.into()),
    }
}

/// The name that ends first.
pub fn oldest<D: Desk>(desk: &mut D, moment: u64) -> anyhow::Result<Name> {
    let ask = Ask::Oldest;
    match desk.call(Event::Look { moment, ask })? {
        Reply::Seen(Seen::Oldest(Some(name))) => Ok(name),
        other => {
            drop(other);
            Err(anyhow!("no name ends first"))
        }
    }
}

/// Takes a name as the service does: looks it up, admits its address, sweeps if there is no room, forgets the name that ends first if
/// there still is none. Returns whether the name was unknown, and there was room in the end.
fn take<B: Book>(
    book: &mut B,
    moment: u64,
    question: &Question,
    find: &SharedFind,
) -> anyhow::Result<bool> {
    let is_new = matches!(book.look(question, moment), Look::Unknown);
    if is_taken(book, moment, find)? {
        return Ok(is_new);
    }
    give(book, Event::Sweep { moment })?;
    if is_taken(book, moment, find)? {
        return Ok(is_new);
    }
    let owner = oldest(book, moment)?;
    give(book, Event::Forget { moment, owner })?;
    Ok(is_taken(book, moment, find)? && is_new)
}

/// Takes so many names, and returns how many of them were new. There are twice as many names as there is room for, and they come
/// in turn, so few seconds apart that none expires before it is forgotten.
fn take_many<B: Book>(alloc: Global, mut book: B, room: u32, count: u32) -> anyhow::Result<u32> {
    let names = room.saturating_mul(2);
    let finds = addresses(alloc, names)?;
    let questions = questions(alloc, names, |place| owner(alloc, place))?;
    let each_second = room / TTL + 1;
    let (mut sum, mut place) = (0u32, 0);
    for turn in 0..room.saturating_add(count) {
        let moment = u64::from(turn / each_second);
        if let (Some(question), Some(find)) = (questions.get(place), finds.get(place)) {
            sum = sum.wrapping_add(u32::from(take(&mut book, moment, question, find)?));
        }
        place = place.wrapping_add(1) % finds.len().max(1);
    }
    Ok(sum)
}

fn take_new(alloc: Global, room: &str, count: u32) -> anyhow::Result<u32> {
    let room: u32 = room.parse()?;
    take_many(alloc, shelf_of(alloc, room as usize)?, room, count)
}

/// Every number of names for which there is room.
const ROOMS: [&str; 3] = ["1000", "clock-16", "end-16"];

/// Makes one call so many times.
fn make_calls<R: Wait>(rt: &R, alloc: Global, call: &str, count: u32) -> anyhow::Result<u32> {
    if let Some(names) = call.strip_prefix("clock-") {
        return ask_many(rt, alloc, names.parse()?, At::Clock, count);
    }
    if let Some(names) = call.strip_prefix("end-") {
        return ask_many(rt, alloc, names.parse()?, At::End, count);
    }
    take_new(alloc, call, count)
}

/// Gives new names to a cache that has room for as many as the first word says, and prints how many were new; or asks a shared book for
/// the name to forget first, and prints how often there was one; or makes room in a shared book while another caller comes between, and
/// prints the times too.
pub fn measure_room<R: Print + Wait + CpuClock>(
    rt: &R,
    alloc: Global,
    words: &[String],
) -> anyhow::Result<()> {
    if let [call, count] = words {
        if let Some(names) = call.as_str().strip_prefix("beside-") {
            let names: u32 = names.parse()?;
            let count: u32 = count.as_str().parse()?;
            return measure_beside(rt, alloc, call.as_str(), names, count);
        }
    }
    run_calls(
        rt,
        words,
        &ROOMS,
        64,
        |call, count| make_calls(rt, alloc, call, count),
    )
}
