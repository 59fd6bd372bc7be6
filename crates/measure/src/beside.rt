//! New names for a full cache that two callers share. One makes room for its name as a worker's task does, and between each two of its
//! calls the other admits another new name, a second later. So names come and names end between a sweep and the look for the name to
//! forget first, between that look and the forgetting, and before the last admission.
ghost use Rattle.shared_book.specs.Fresh.{CanShare, IsKnownAs};

use crate::books::{find_in, give, shelves_of};
use crate::room::{is_taken, oldest};
use crate::stopwatch::{Stopwatch, Times};
use anyhow::anyhow;
use dns_text::Question;
use dns_text::types::A;
use history::{Ask, Book, Desk, Event};
use ranked::SharedFind;
use shared_book::{Blank, CallLedger, Seat, SharedBook};
use std::alloc::Global;
use std::marker::Brand;
use std::sync::Wait;
use std::time::CpuClock;
use undo_book::ShelfBook;

/// The calls that the window has, as many as a service's by default.
const WINDOW: u64 = 10_000;

/// The turns of a sweep before the rounds, at most.
const MOST_TURNS: u32 = 16_384;

/// The second in which each name ends that is not to end between two calls: only the order of names tells which of them is to be
/// forgotten first.
const LATE: u64 = 86_400;

/// The seconds of a round. The other caller comes once in each.
const ROUND: u64 = 6;

/// In which second of a round a name ends: one before the sweep, and two between it and the look for the name to forget first.
const EARLY: [u64; 3] = [1, 3, 4];

/// An address of a name that comes at one moment and ends at another.
fn address(
    alloc: Global,
    text: &str,
    place: u32,
    moment: u64,
    end: u64,
) -> anyhow::Result<SharedFind> {
    let ttl = end.saturating_sub(moment);
    let [_, high, middle, low] = place.to_be_bytes();
    let text = format!(in alloc; "{text}{place}.test {ttl} A 192.{high}.{middle}.{low}")?;
    find_in(alloc, text.as_str().as_bytes())
}

/// Looks up the address of a find's owner, as each task does first. It moves the clock of the book on.
fn look_up<D: Desk>(desk: &mut D, moment: u64, find: &SharedFind) -> anyhow::Result<()> {
    let question = Question {
        owner: find.find().owner.clone()?,
        kind: A,
    };
    let ask = Ask::Answer(question);
    give(desk, Event::Look { moment, ask })
}

/// The caller that comes between.
#[derive(Drop)]
struct Other<D> {
    desk: D,
    /// When it came last.
    moment: u64,
    /// How often it came, and for how many of its names there was room.
    came: u32,
    taken: u32,
}

impl<D: Desk> Other<D> {
    /// Comes a second later: looks a new name up, and admits its address, which ends at a moment.
    fn come(&mut self, alloc: Global, end: u64) -> anyhow::Result<()> {
        self.moment = self.moment.saturating_add(1);
        self.came = self.came.wrapping_add(1);
        let find = address(alloc, "z", self.came, self.moment, end)?;
        look_up(&mut self.desk, self.moment, &find)?;
        if is_taken(&mut self.desk, self.moment, &find)? {
            self.taken = self.taken.wrapping_add(1);
        }
        Ok(())
    }
}

/// Asks for the name to forget first, and forgets it. The other caller comes before each of the two calls. Returns the time of the look.
fn forget_one<D: Desk, E: Desk, R: CpuClock>(
    alloc: Global,
    first: &mut Stopwatch<'_, D, R>,
    other: &mut Other<E>,
    moment: u64,
    next: u64,
) -> anyhow::Result<u64> {
    other.come(alloc, LATE)?;
    let owner = oldest(first, 0)?;
    let took = first.last;
    other.come(alloc, next.saturating_add(EARLY[1]))?;
    give(first, Event::Forget { moment, owner })?;
    Ok(took)
}

/// Takes a new name as a worker's task does: looks it up, is refused, sweeps, is refused again, asks for the name to forget first, forgets
/// that, and admits the new one. Returns whether the calls went so, and the other caller had room three times.
fn take_round<D: Desk, E: Desk, R: CpuClock>(
    alloc: Global,
    first: &mut Stopwatch<'_, D, R>,
    other: &mut Other<E>,
    place: u32,
    looks: &mut Times,
) -> anyhow::Result<bool> {
    let (moment, taken) = (other.moment, other.taken);
    let next = moment.saturating_add(ROUND);
    let find = address(alloc, "a", place, 0, EARLY[0])?;
    look_up(first, moment, &find)?;
    other.come(alloc, LATE)?;
    let had_room = is_taken(first, moment, &find)?;
    other.come(alloc, LATE)?;
    give(first, Event::Sweep { moment })?;
    other.come(alloc, LATE)?;
    let had_room_then = is_taken(first, moment, &find)?;
    looks.add(forget_one(alloc, first, other, moment, next)?);
    other.come(alloc, next.saturating_add(EARLY[2]))?;
    let has_room = is_taken(first, moment, &find)?;
    Ok(has_room && !had_room && !had_room_then && other.taken.wrapping_sub(taken) == 3)
}

/// What the rounds took.
#[derive(Clone, Copy)]
struct Rounds {
    /// How many went as planned.
    planned: u32,
    /// The looks for the name to forget first, all seven calls of a round, and a reading of the clock.
    looks: Times,
    wholes: Times,
    idle: Times,
}

/// So many rounds.
fn take_rounds<D: Desk, E: Desk, R: CpuClock>(
    alloc: Global,
    first: &mut Stopwatch<'_, D, R>,
    other: &mut Other<E>,
    count: u32,
) -> anyhow::Result<Rounds> {
    let mut rounds = Rounds {
        planned: 0,
        looks: Times::new(),
        wholes: Times::new(),
        idle: Times::new(),
    };
    for place in 0..count {
        first.reset();
        let planned = take_round(alloc, first, other, place, &mut rounds.looks)?;
        rounds.planned = rounds.planned.wrapping_add(u32::from(planned));
        rounds.wholes.add(first.sum);
        rounds.idle.add(first.idle());
    }
    Ok(rounds)
}

/// Fills a cache with so many names at moment 0. Three of them end in the first round, as in each later one those that the round before
/// has left. Then looks a name up until the admissions have left the window.
fn fill<D: Desk>(alloc: Global, desk: &mut D, names: u32) -> anyhow::Result<()> {
    for place in 0..names {
        let end = EARLY.get(place as usize).copied().unwrap_or(LATE);
        let find = address(alloc, "n", place, 0, end)?;
        if !is_taken(desk, 0, &find)? {
            return Err(anyhow!("there is no room"));
        }
    }
    let unknown = address(alloc, "a", 0, 0, LATE)?;
    for _ in 0..WINDOW {
        look_up(desk, 0, &unknown)?;
    }
    Ok(())
}

/// Sweeps a book and its opening book.
fn sweep_whole<B: Book, L: CallLedger, R: Wait>(rt: &R, book: &SharedBook<B, L>) {
    for _ in 0..MOST_TURNS {
        if !book.sweep_some(rt) {
            return;
        }
    }
}

/// So many rounds with a new book of so many names.
fn beside_with<B: Book, L: CallLedger, R: Wait + CpuClock>(
    rt: &R,
    alloc: Global,
    blank: Blank,
    book: B,
    opening: B,
    names: u32,
    count: u32,
) -> anyhow::Result<Rounds>
    requires known { IsKnownAs L.name L.parts L.limit L.settings blank WINDOW (B.settings book) }
    requires books { CanShare B.stands_for B.settings book opening }
{
    let (book, mut pass) = SharedBook::<B, L>::new(alloc, blank, book, opening, WINDOW)?;
    let half = book.split(rt, &mut pass)?;
    let mut other = Other {
        desk: Seat::new(rt, &book, half),
        moment: 0,
        came: 0,
        taken: 0,
    };
    let mut first = Stopwatch::new(rt, Seat::new(rt, &book, pass));
    fill(alloc, &mut first, names)?;
    sweep_whole(rt, &book);
    take_rounds(alloc, &mut first, &mut other, count)
}

fn beside<R: Wait + CpuClock>(
    rt: &R,
    alloc: Global,
    names: u32,
    count: u32,
) -> anyhow::Result<Rounds> {
    let (book, opening) = shelves_of(alloc, names as usize)?;
    beside_with::<ShelfBook, Brand, R>(rt, alloc, Blank::new(2), book, opening, names, count)
}

/// Makes so many rounds, and prints how many went as planned, and what they took in nanoseconds of a processor.
pub fn measure_beside<R: Print + Wait + CpuClock>(
    rt: &R,
    alloc: Global,
    call: &str,
    names: u32,
    count: u32,
) -> anyhow::Result<()> {
    let rounds = beside(rt, alloc, names, count)?;
    println!(rt; "{call} {}", rounds.planned)?;
    println!(rt; "clock_mean {}", rounds.idle.mean())?;
    println!(rt; "look_mean {}", rounds.looks.mean())?;
    println!(rt; "look_greatest {}", rounds.looks.greatest)?;
    println!(rt; "whole_mean {}", rounds.wholes.mean())?;
    println!(rt; "whole_greatest {}", rounds.wholes.greatest)?;
    Ok(())
}
