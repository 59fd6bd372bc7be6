//! Drawn calls to two caches, of which one is swept whole whenever a flush has gone.
//!
//! Once a flush has gone, each mixed name waits for a visit, whether the flush covers it or not. In one cache all are visited at once, in
//! the other a few more at each call. Both show the same at any time, and keep the same once they are swept.

ghost use Rattle.std.specs.Prelude.{◌<◌};
ghost use Rattle.shelf.specs.Told.{IsShelf};

use crate::checks::Checks;
use crate::finds::{ADDRESS, LONG_ADDRESS, shared_find};
use dns_name::Name;
use dns_text::{Question, types};
use ranked::{Flush, Rank, Reach, SharedFind};
use shelf::Shelf;
use std::alloc::Global;

/// Numbers by chance, from a seed.
#[derive(Drop)]
struct Draws {
    state: u64,
}

impl Draws {
    fn below(&mut self, end: u64) -> u64
        requires { 0 < end }
        ensures { result < end }
    {
        let grown = self.state.wrapping_mul(6_364_136_223_846_793_005);
        self.state = grown.wrapping_add(1_442_695_040_888_963_407);
        (self.state >> 33) % end
    }

    fn number(&mut self, names: u64) -> u64 {
        if names == 0 { 0 } else { self.below(names) }
    }

    fn rank(&mut self) -> Rank {
        match self.below(3) {
            0 => Rank::Additional,
            1 => Rank::Answer,
            _ => Rank::AuthoritativeAnswer,
        }
    }

    fn ttl(&mut self) -> u32 {
        self.below(1_000) as u32 + 1
    }
}

/// A name of two labels. Each zone of one label has every twentieth.
fn name(alloc: Global, number: u64) -> anyhow::Result<Name> {
    let first = b'a' + (number / 20 % 20) as u8;
    let second = b'a' + (number % 20) as u8;
    Ok(Name::from_text(alloc, &[first, b'.', second])?)
}

fn zone(alloc: Global, number: u64) -> anyhow::Result<Name> {
    Ok(Name::from_text(alloc, &[b'a' + (number % 20) as u8])?)
}

fn drawn_find(alloc: Global, draws: &mut Draws, names: u64) -> anyhow::Result<SharedFind> {
    let owner = name(alloc, draws.number(names))?;
    let rank = draws.rank();
    let ttl = draws.ttl();
    if draws.below(4) == 0 {
        shared_find(alloc, owner, LONG_ADDRESS, rank, ttl)
    } else {
        shared_find(alloc, owner, ADDRESS, rank, ttl)
    }
}

fn drawn_flush(alloc: Global, draws: &mut Draws, names: u64) -> anyhow::Result<Flush> {
    let number = draws.number(names);
    match draws.below(16) {
        0 => Ok(Flush {
            name: Name::root(alloc),
            reach: Reach::Zone,
        }),
        1..=7 => Ok(Flush {
            name: zone(alloc, number)?,
            reach: Reach::Zone,
        }),
        8..=11 => Ok(Flush {
            name: name(alloc, number)?,
            reach: Reach::Name,
        }),
        _ => Ok(Flush {
            name: name(alloc, number)?,
            reach: Reach::OneType(types::A),
        }),
    }
}

/// The number of a kept flush, or 0 if none is kept.
fn drawn_number(draws: &mut Draws, shelf: &Shelf) -> u64 {
    let place = draws.number(shelf.kept.len() as u64) as usize;
    match shelf.kept.get(place) {
        Some(own) => own.number,
        None => 0,
    }
}

/// The name at a place of the index.
fn name_at(shelf: &Shelf, place: usize) -> Option<&Name> {
    match shelf.owners.get_index(place) {
        Some((name, _)) => Some(name),
        None => None,
    }
}

fn is_same_name(name: Option<&Name>, other: Option<&Name>) -> bool {
    match name {
        Some(name) => match other {
            Some(other) => *name == *other,
            None => false,
        },
        None => other.is_none(),
    }
}

/// The seconds that a find has left, and how far it is trusted.
fn shown(shelf: &Shelf, question: &Question, moment: u64) -> Option<(u32, u8)> {
    match shelf.show(&question.owner, question.kind, moment) {
        Some(held) => Some((held.left, held.rank.level())),
        None => None,
    }
}

fn question_of(name: &Name, kind: u16) -> anyhow::Result<Question> {
    Ok(Question {
        owner: name.clone()?,
        kind,
    })
}

/// Whether each name of the first cache shows the same in both.
fn show_alike(one: &Shelf, other: &Shelf, moment: u64) -> anyhow::Result<bool> {
    for place in 0..one.owners.len() {
        if let Some(name) = name_at(one, place) {
            for kind in [types::A, types::AAAA] {
                let question = question_of(name, kind)?;
                if shown(one, &question, moment) != shown(other, &question, moment) {
                    return Ok(false);
                }
            }
        }
    }
    Ok(true)
}

/// Whether both keep as many cells of each name of the first cache.
fn keep_alike(one: &Shelf, other: &Shelf) -> anyhow::Result<bool> {
    for place in 0..one.owners.len() {
        if let Some(name) = name_at(one, place) {
            for kind in [types::A, types::AAAA] {
                let question = question_of(name, kind)?;
                if one.kept(&question) != other.kept(&question) {
                    return Ok(false);
                }
            }
        }
    }
    Ok(true)
}

/// Two caches that get the same calls. The second is swept once a flush has gone.
#[derive(Drop)]
struct Both {
    one: Shelf,
    other: Shelf,
}

impl Both {
    fn admit(&mut self, checks: &mut Checks, find: SharedFind, moment: u64) -> anyhow::Result<()>
        requires { IsShelf self.old.one × IsShelf self.old.other }
        ensures { IsShelf self.new.one × IsShelf self.new.other }
    {
        let copy = find.share()?;
        let first = self.one.admit(copy, moment);
        let second = self.other.admit(find, moment);
        checks.that(first == second);
        Ok(())
    }

    fn open(&mut self, flush: Flush) -> anyhow::Result<()>
        requires { IsShelf self.old.one × IsShelf self.old.other }
        ensures { IsShelf self.new.one × IsShelf self.new.other }
    {
        let top = self.one.top.max(self.other.top);
        if top == u64::MAX {
            return Ok(());
        }
        self.one.open_flush(flush.copy()?, top + 1)?;
        self.other.open_flush(flush, top + 1)?;
        Ok(())
    }

    /// Undoes a flush, or redoes it.
    fn show(&mut self, number: u64, shown: bool) -> anyhow::Result<()>
        requires { IsShelf self.old.one × IsShelf self.old.other }
        ensures { IsShelf self.new.one × IsShelf self.new.other }
    {
        if shown {
            self.one.unhide(number);
            self.other.unhide(number);
            return Ok(());
        }
        self.one.hide(number);
        self.other.hide(number);
        Ok(())
    }

    /// Lets a flush go, or none if the number is not kept.
    fn settle(&mut self, number: u64, moment: u64) -> anyhow::Result<()>
        requires { IsShelf self.old.one × IsShelf self.old.other }
        ensures { IsShelf self.new.one × IsShelf self.new.other }
    {
        self.one.settle(number);
        self.other.settle(number);
        self.other.sweep(moment);
        Ok(())
    }

    fn sweep(&mut self, moment: u64) -> anyhow::Result<()>
        requires { IsShelf self.old.one × IsShelf self.old.other }
        ensures { IsShelf self.new.one × IsShelf self.new.other }
    {
        self.one.sweep(moment);
        self.other.sweep(moment);
        Ok(())
    }

    fn sweep_some(&mut self, moment: u64) -> anyhow::Result<()>
        requires { IsShelf self.old.one × IsShelf self.old.other }
        ensures { IsShelf self.new.one × IsShelf self.new.other }
    {
        let _ = self.one.sweep_some(moment);
        let _ = self.other.sweep_some(moment);
        Ok(())
    }

    fn forget(&mut self, owner: &Name) -> anyhow::Result<()>
        requires { IsShelf self.old.one × IsShelf self.old.other }
        ensures { IsShelf self.new.one × IsShelf self.new.other }
    {
        self.one.forget(owner);
        self.other.forget(owner);
        Ok(())
    }

    /// What they show is alike at any time.
    fn compare_shown(&self, checks: &mut Checks, moment: u64) -> anyhow::Result<()> {
        checks.that(show_alike(&self.one, &self.other, moment)?);
        checks.that(show_alike(&self.other, &self.one, moment)?);
        Ok(())
    }

    /// What they keep is alike once both are swept.
    fn compare_swept(&mut self, checks: &mut Checks, moment: u64) -> anyhow::Result<()>
        requires { IsShelf self.old.one × IsShelf self.old.other }
        ensures { IsShelf self.new.one × IsShelf self.new.other }
    {
        self.sweep(moment)?;
        checks.that(self.one.stored() == self.other.stored());
        checks.that(self.one.owners.len() == self.other.owners.len());
        checks.that(is_same_name(self.one.oldest(moment), self.other.oldest(moment)));
        checks.that(keep_alike(&self.one, &self.other)?);
        self.compare_shown(checks, moment)
    }

    /// Caches another address of a name with a lower rank, mostly.
    fn mix(
        &mut self,
        checks: &mut Checks,
        alloc: Global,
        draws: &mut Draws,
        number: u64,
    ) -> anyhow::Result<()>
        requires { IsShelf self.old.one × IsShelf self.old.other }
        ensures { IsShelf self.new.one × IsShelf self.new.other }
    {
        if draws.below(8) == 0 {
            return Ok(());
        }
        let owner = name(alloc, number)?;
        let find = shared_find(alloc, owner, ADDRESS, Rank::Answer, draws.ttl())?;
        self.admit(checks, find, 0)
    }

    /// Caches so many names, flushes them all, and caches most of them again with a lower rank, so that they are mixed.
    fn fill(
        &mut self,
        checks: &mut Checks,
        alloc: Global,
        draws: &mut Draws,
        names: u64,
    ) -> anyhow::Result<()>
        requires { IsShelf self.old.one × IsShelf self.old.other }
        ensures { IsShelf self.new.one × IsShelf self.new.other }
    {
        for number in 0..names {
            let owner = name(alloc, number)?;
            let find = shared_find(
                alloc,
                owner,
                ADDRESS,
                Rank::AuthoritativeAnswer,
                draws.ttl(),
            )?;
            self.admit(checks, find, 0)?;
        }
        self.open(Flush {
            name: Name::root(alloc),
            reach: Reach::Zone,
        })?;
        self.open(drawn_flush(alloc, draws, names)?)?;
        self.open(drawn_flush(alloc, draws, names)?)?;
        for number in 0..names {
            self.mix(checks, alloc, draws, number)?;
        }
        self.sweep(0)
    }

    /// A drawn call.
    fn step(
        &mut self,
        checks: &mut Checks,
        alloc: Global,
        draws: &mut Draws,
        names: u64,
        moment: u64,
    ) -> anyhow::Result<()>
        requires { IsShelf self.old.one × IsShelf self.old.other }
        ensures { IsShelf self.new.one × IsShelf self.new.other }
    {
        let number = drawn_number(draws, &self.one);
        match draws.below(24) {
            0..=4 => self.admit(checks, drawn_find(alloc, draws, names)?, moment),
            5..=8 => self.open(drawn_flush(alloc, draws, names)?),
            9 | 10 => self.show(number, false),
            11 => self.show(number, true),
            12..=14 => self.settle(number, moment),
            // No flush has this number.
            15 => self.settle(u64::MAX, moment),
            16..=21 => self.sweep_some(moment),
            22 => self.sweep(moment),
            _ => self.forget(&name(alloc, draws.number(names))?),
        }
    }

    fn run(
        &mut self,
        checks: &mut Checks,
        alloc: Global,
        seed: u64,
        names: u64,
    ) -> anyhow::Result<()>
        requires { IsShelf self.old.one × IsShelf self.old.other }
    {
        let mut draws = Draws { state: seed };
        let mut moment = 0u64;
        self.fill(checks, alloc, &mut draws, names)?;
        for _ in 0..40u8 {
            moment = moment.saturating_add(draws.below(8));
            self.step(checks, alloc, &mut draws, names, moment)?;
            self.compare_shown(checks, moment)?;
            if draws.below(4) == 0 {
                self.compare_swept(checks, moment)?;
            }
        }
        self.compare_swept(checks, moment)
    }
}

fn course(checks: &mut Checks, alloc: Global, seed: u64, names: u16) -> anyhow::Result<()> {
    // There is room for each find: when a cache is full depends on how far its sweeps have come.
    let limit = 4 * u64::from(names);
    let mut both = Both {
        one: Shelf::new(alloc, limit),
        other: Shelf::new(alloc, limit),
    };
    both.run(checks, alloc, seed, u64::from(names))
}

/// Caches of fewer than 256 mixed names and of more.
pub fn flushes_that_go_leave_the_same(checks: &mut Checks, alloc: Global) -> anyhow::Result<()> {
    for seed in 0..5u64 {
        for names in [60, 200, 320, 380] {
            course(checks, alloc, seed, names)?;
        }
    }
    Ok(())
}
