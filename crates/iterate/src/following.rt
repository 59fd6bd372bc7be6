//! Aliases inside a response.

ghost use Rattle.std.specs.Prelude.{◌≡◌, ◌<◌, ℕ, List, length, IfOk};
ghost use Rattle.dns_query.specs.Query.{alias_question};
ghost use Rattle.history.specs.declared.event.Ask.TheVariants.{Answer as Asked};
ghost use Rattle.history.specs.declared.event.Event.TheVariants.{Look};
ghost use Rattle.iterate.specs.declared.want.Want.TheVariants.{Book};
ghost use Rattle.iterate.specs.Exchanges.{Exchange};
ghost use Rattle.iterate.specs.Following.{told_by, IsHarvestOf, IsHadIfSome, HasTold};
ghost use Rattle.iterate.specs.Following.{IsAliasHop, IsHop, FollowsHarvest};
ghost use Rattle.iterate.specs.Going.{GoesOnBehind, GoesOnByHarvest, GoesOnSeeing, IsFollowing, GoesAlongAlias, GoesOnByAnswer, HopsBy};
ghost use Rattle.iterate.specs.Looked.{seen_of};
ghost use Rattle.iterate.specs.Phase.{LooksAt};
ghost use Rattle.iterate.specs.Searching.{IsBehind, IsUnasked};

use crate::answer::AnswerSet;
use crate::finishing::{failed, found};
use crate::limits::MOST_ALIASES;
use crate::lookup_reply::{Looked, first_target, replied};
use crate::path::{Path, alias, follow, seen_on};
use crate::phase::{Advance, Phase};
use crate::want::{Input, Want};
use dns_name::{Name, NoMemory};
use dns_query::{Believed, believed};
use dns_text::Question;
use dns_text::types::CNAME;
use harvest::Harvest;
use history::{Ask, Event};
use std::alloc::Global;

/// The next hop from a question inside a harvest.
pub(crate) enum Hop {
    /// The set of the question.
    Set(AnswerSet),
    /// An alias of its name, and the target.
    Alias(AnswerSet, Name),
    /// Neither is there.
    Nowhere,
}

/// A set of a harvest, as a set of an answer.
fn tell(set: Believed<'_>) -> Result<AnswerSet, NoMemory>
    ensures { IfOk result (λ told. told ≡ told_by set.entry) }
{
    match set {
        Believed::Find(find) => Ok(AnswerSet::Find {
            ttl: find.find().ttl,
            find: find.share()?,
        }),
        Believed::Passing(set) => Ok(AnswerSet::Passing(set.share()?)),
    }
}

/// The set of a question in a harvest, if its rank is good enough to answer with (RFC 2181, section 5.4.1).
pub(crate) fn harvested(
    harvest: &Harvest,
    question: &Question,
) -> Result<Option<AnswerSet>, NoMemory>
    ensures had { (port : ℕ) (log : List Exchange) → IsHarvestOf port log harvest.now → IfOk result (IsHadIfSome port log question.now) }
    ensures exact { IfOk result (HasTold harvest.now question.now) }
{
    match believed(harvest, question) {
        Some(set) => Ok(Some(tell(set)?)),
        None => Ok(None),
    }
}

fn harvested_alias(harvest: &Harvest, name: &Name) -> Result<Option<AnswerSet>, NoMemory>
    ensures { IfOk result (HasTold harvest.now (alias_question name.now)) }
{
    let owner = name.clone()?;
    harvested(harvest, &Question { owner, kind: CNAME })
}

/// The hop along a set of aliases.
fn hop_by(told: AnswerSet) -> Result<Hop, NoMemory>
    ensures { HopsBy told result }
{
    match first_target(&told)? {
        Some(to) => Ok(Hop::Alias(told, to)),
        None => Ok(Hop::Nowhere),
    }
}

fn alias_hop(harvest: &Harvest, name: &Name) -> Result<Hop, NoMemory>
    ensures { IfOk result (IsAliasHop harvest.now name.now) }
{
    match harvested_alias(harvest, name)? {
        Some(told) => hop_by(told),
        None => Ok(Hop::Nowhere),
    }
}

/// The next hop from a question inside a harvest. A set of the question is preferred to an alias of its name.
fn next_hop(harvest: &Harvest, last: &Question) -> Result<Hop, NoMemory>
    ensures { IfOk result (IsHop harvest.now last.now) }
{
    match harvested(harvest, last)? {
        Some(told) => Ok(Hop::Set(told)),
        None => alias_hop(harvest, &last.owner),
    }
}

/// Looks up the question behind an alias of a response. What else the response has is kept until then.
fn look_behind(path: Path, harvest: Box<Harvest>, moment: u64) -> Result<Advance, NoMemory>
    ensures want { IfOk result (λ next. next.want ≡ Book (Look moment (Asked path.last))) }
    ensures goes { GoesOnByHarvest IsBehind path harvest.value moment 5 result }
{
    let owner = path.last.owner.clone()?;
    let kind = path.last.kind;
    Ok(Advance {
        phase: Phase::Following { path, harvest },
        want: Want::Book(Event::Look {
            moment,
            ask: Ask::Answer(Question { owner, kind }),
        }),
    })
}

/// Follows an alias of a response. The question behind it is looked up first, so the operator's local zones and the cache come
/// before the response.
fn follow_alias(
    alloc: Global,
    path: Path,
    harvest: Box<Harvest>,
    told: AnswerSet,
    to: Name,
    moment: u64,
) -> Result<Advance, NoMemory>
    ensures looks { length path.sets.items < MOST_ALIASES → IfOk result (LooksAt path to moment) }
    ensures goes { GoesAlongAlias harvest.value path told to moment result }
{
    match follow(path, told, to)? {
        Some(next) => look_behind(next, harvest, moment),
        None => Ok(failed(alloc)),
    }
}

/// Follows a response from the last question, which a lookup did not find: to the set of the question, or along an alias of its
/// name. If the response has neither, looks up an alias.
fn follow_in(
    alloc: Global,
    path: Path,
    harvest: Box<Harvest>,
    moment: u64,
) -> Result<Advance, NoMemory>
    ensures follows { IfOk result (λ next. FollowsHarvest harvest.value path moment next.want) }
    ensures goes { GoesOnByHarvest IsUnasked path harvest.value moment 4 result }
{
    match next_hop(&harvest, &path.last)? {
        Hop::Set(told) => Ok(found(path, told)),
        Hop::Alias(told, to) => follow_alias(alloc, path, harvest, told, to, moment),
        Hop::Nowhere => alias(alloc, path, moment),
    }
}

/// Follows the response to a query for the last question, which answers it: to the set, or along the alias.
pub(crate) fn follow_answer(
    alloc: Global,
    path: Path,
    harvest: Box<Harvest>,
    moment: u64,
) -> Result<Advance, NoMemory>
    ensures follows { IfOk result (λ next. FollowsHarvest harvest.value path moment next.want) }
    ensures goes { GoesOnByAnswer harvest.value path moment result }
{
    match next_hop(&harvest, &path.last)? {
        Hop::Set(told) => Ok(found(path, told)),
        Hop::Alias(told, to) => follow_alias(alloc, path, harvest, told, to, moment),
        // Never: a response that answers has one of them.
        Hop::Nowhere => Ok(failed(alloc)),
    }
}

/// Continues with what the lookup behind an alias of a response found. If it found nothing, the response is followed.
fn seen_behind(
    alloc: Global,
    path: Path,
    harvest: Box<Harvest>,
    moment: u64,
    what: Looked<'_>,
) -> Result<Advance, NoMemory>
    ensures { GoesOnSeeing (IsFollowing harvest.value) path path.last (seen_of what.entry) moment 4 result }
{
    match what {
        Looked::Unknown => follow_in(alloc, path, harvest, moment),
        _ => seen_on(alloc, path, moment, what),
    }
}

/// Continues with the reply to the lookup behind an alias of a response.
pub(crate) fn followed(
    alloc: Global,
    path: Path,
    harvest: Box<Harvest>,
    moment: u64,
    input: &Input,
) -> Result<Advance, NoMemory>
    ensures { GoesOnBehind (IsFollowing harvest.value) path path.last input.now moment 4 result }
{
    match replied(input, &path.last.owner, path.last.kind) {
        Some(what) => seen_behind(alloc, path, harvest, moment, what),
        None => Ok(failed(alloc)),
    }
}
