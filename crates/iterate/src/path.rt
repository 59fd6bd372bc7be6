//! The aliases so far, and the question to which they lead.

ghost use Rattle.std.specs.Prelude.{◌≡◌, ◌<◌, ◌≤◌, length, IfOk, MatchOption};
ghost use Rattle.dns_name.specs.Labels.{Labels};
ghost use Rattle.history.specs.declared.event.Ask.TheVariants.{Answer as Asked};
ghost use Rattle.history.specs.declared.event.Event.TheVariants.{Look};
ghost use Rattle.iterate.specs.declared.want.Want.TheVariants.{Book};
ghost use Rattle.dns_query.specs.Query.{alias_question};
ghost use Rattle.iterate.specs.Going.{GoesOnBehind, GoesOnFrom, GoesOnSeeing, GoesOnByAlias};
ghost use Rattle.iterate.specs.Going.{GoesOnByLocal, GoesOnToTarget, LooksAtTargetSeen};
ghost use Rattle.iterate.specs.Looked.{seen_of};
ghost use Rattle.iterate.specs.Phase.{LooksAt};
ghost use Rattle.iterate.specs.Room.{LeadsOn};
ghost use Rattle.iterate.specs.Searching.{IsBehind, IsUnasked, IsLonger};
ghost use Rattle.iterate.specs.Told.{IsTarget};

use crate::answer::AnswerSet;
use crate::finishing::{ended, failed, held_ending, local_ending};
use crate::limits::MOST_ALIASES;
use crate::lookup_reply::{Looked, first_target, replied, set_in};
use crate::phase::{Advance, Phase};
use crate::served::served_name;
use crate::want::{Input, Want};
use dns_name::{Name, NoMemory};
use dns_text::types::CNAME;
use dns_text::{Items, Question};
use history::{Ask, Event};
use local_zone::{Local, LocalRecord, SeenRecord};
use std::alloc::Global;

/// The aliases so far, and the question to which they lead.
#[derive(Drop)]
pub struct Path {
    /// The sets of CNAME records, in order.
    pub sets: Vec<AnswerSet>,
    /// The question behind the last alias: its target, and the type asked.
    pub last: Question,
    /// The number of queries sent so far.
    pub sent: usize,
    /// The number of questions for addresses of servers begun so far.
    pub begun: usize,
}

/// Looks up the servers that are asked about the last question.
pub(crate) fn list(alloc: Global, path: Path, moment: u64) -> Result<Advance, NoMemory>
    ensures { GoesOnFrom IsUnasked path moment 2 result }
{
    let name = served_name(alloc, &path.last)?;
    Ok(Advance {
        phase: Phase::Listing { path },
        want: Want::Book(Event::Look {
            moment,
            ask: Ask::Servers(name),
        }),
    })
}

/// Looks up an alias of the last name, unless the question asks for CNAME records.
pub(crate) fn alias(alloc: Global, path: Path, moment: u64) -> Result<Advance, NoMemory>
    ensures { GoesOnFrom IsUnasked path moment 3 result }
{
    if path.last.kind == CNAME {
        return list(alloc, path, moment);
    }
    let owner = path.last.owner.clone()?;
    Ok(Advance {
        phase: Phase::Aliasing { path },
        want: Want::Book(Event::Look {
            moment,
            ask: Ask::Answer(Question { owner, kind: CNAME }),
        }),
    })
}

/// Looks up the question behind an alias.
pub(crate) fn look_on(path: Path, moment: u64) -> Result<Advance, NoMemory>
    ensures want { IfOk result (λ next. next.want ≡ Book (Look moment (Asked path.last))) }
    ensures goes { GoesOnFrom IsBehind path moment 4 result }
{
    let owner = path.last.owner.clone()?;
    let kind = path.last.kind;
    Ok(Advance {
        phase: Phase::Looking { path },
        want: Want::Book(Event::Look {
            moment,
            ask: Ask::Answer(Question { owner, kind }),
        }),
    })
}

/// Follows an alias to its target. None if it is one too many.
pub(crate) fn follow(path: Path, told: AnswerSet, to: Name) -> Result<Option<Path>, NoMemory>
    ensures { IfOk result (λ next. MatchOption next (MOST_ALIASES ≤ length path.sets.items) (IsLonger path told to)) }
{
    let Path {
        mut sets,
        last,
        sent,
        begun,
    } = path;
    if sets.len() >= MOST_ALIASES {
        return Ok(None);
    }
    sets.push(told)?;
    Ok(Some(Path {
        sets,
        last: Question {
            owner: to,
            kind: last.kind,
        },
        sent,
        begun,
    }))
}

/// Follows an alias, and looks up the question behind it.
fn go_behind(
    alloc: Global,
    path: Path,
    told: AnswerSet,
    to: Name,
    moment: u64,
) -> Result<Advance, NoMemory>
    ensures looks { length path.sets.items < MOST_ALIASES → IfOk result (LooksAt path to moment) }
    ensures goes { GoesOnToTarget path told to moment result }
{
    match follow(path, told, to)? {
        Some(next) => look_on(next, moment),
        None => Ok(failed(alloc)),
    }
}

/// Continues after a set of aliases.
fn alias_told(alloc: Global, path: Path, told: AnswerSet, moment: u64) -> Result<Advance, NoMemory>
    ensures looks { (to : Labels) → IsTarget told to → length path.sets.items < MOST_ALIASES → IfOk result (LooksAt path to moment) }
    ensures goes { GoesOnByAlias path told moment result }
{
    match first_target(&told)? {
        Some(to) => go_behind(alloc, path, told, to, moment),
        None => list(alloc, path, moment),
    }
}

/// Continues with what the lookup of an alias found.
fn alias_seen(alloc: Global, path: Path, moment: u64, what: Looked<'_>) -> Result<Advance, NoMemory>
    ensures follows { LooksAtTargetSeen path (seen_of what.entry) moment result }
    ensures goes { GoesOnSeeing IsUnasked path (alias_question path.last.owner) (seen_of what.entry) moment 2 result }
{
    match set_in(alloc, what)? {
        Some(told) => alias_told(alloc, path, told, moment),
        None => list(alloc, path, moment),
    }
}

/// Continues with the reply to the lookup of an alias.
pub(crate) fn aliased(
    alloc: Global,
    path: Path,
    moment: u64,
    input: &Input,
) -> Result<Advance, NoMemory>
    ensures follows { (to : Labels) → LeadsOn path input.now to → IfOk result (LooksAt path to moment) }
    ensures goes { GoesOnBehind IsUnasked path (alias_question path.last.owner) input.now moment 2 result }
{
    match replied(input, &path.last.owner, CNAME) {
        Some(what) => alias_seen(alloc, path, moment, what),
        None => Ok(failed(alloc)),
    }
}

/// Continues with the local answer to the question behind an alias.
fn local_on(
    alloc: Global,
    path: Path,
    answer: &Local<Items<SeenRecord>, LocalRecord>,
) -> Result<Advance, NoMemory>
    ensures { GoesOnByLocal path answer.now result }
{
    match local_ending(alloc, answer)? {
        Some(ending) => Ok(ended(false, path.sets, ending)),
        None => Ok(failed(alloc)),
    }
}

/// Continues with what the lookup behind an alias found.
pub(crate) fn seen_on(
    alloc: Global,
    path: Path,
    moment: u64,
    what: Looked<'_>,
) -> Result<Advance, NoMemory>
    ensures { GoesOnSeeing IsBehind path path.last (seen_of what.entry) moment 3 result }
{
    match what {
        Looked::Unknown => alias(alloc, path, moment),
        Looked::Held(shown) => Ok(ended(false, path.sets, held_ending(shown)?)),
        Looked::Local(answer) => local_on(alloc, path, answer),
    }
}

/// Continues with the reply to the lookup behind an alias.
pub(crate) fn looked_on(
    alloc: Global,
    path: Path,
    moment: u64,
    input: &Input,
) -> Result<Advance, NoMemory>
    ensures { GoesOnBehind IsBehind path path.last input.now moment 3 result }
{
    match replied(input, &path.last.owner, path.last.kind) {
        Some(what) => seen_on(alloc, path, moment, what),
        None => Ok(failed(alloc)),
    }
}
