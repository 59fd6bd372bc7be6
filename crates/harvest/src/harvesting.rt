//! The harvest of a message.

ghost use Rattle.std.specs.Prelude.{◌≡◌, ◌≤◌, ◌++◌, IfOk, OnOk, filter, map};
ghost use Rattle.dns_wire.specs.WellFormed.{HasForms};
ghost use Rattle.neg_rule.specs.Negative.{said_by};
ghost use Rattle.harvest.specs.Learnt.{said_of, set_of};
ghost use Rattle.harvest.specs.Chosen.{chosen_in};
ghost use Rattle.harvest.specs.Harvest.{finds_in, lives, negatives_in, passes, passing_in};

use crate::choosing::chosen_of;
use crate::counted::records_of;
use crate::gathering::Gathering;
use crate::harvest_type::Harvest;
use crate::passing::PassingSet;
use crate::sets::sets_of;
use dns_name::{Name, NoMemory};
use dns_text::{Data, Items, Question, Shared};
use dns_wire::Message;
use neg_rule::negative_of;
use ranked::{Body, Find, Scope, SharedFind};
use std::alloc::Global;

/// Copies of borrowed data.
fn copy_all(alloc: Global, lent: &[&Data]) -> Result<Items<Data>, NoMemory>
    ensures { IfOk result (λ copies. copies ≡ map (λ d. d.now) lent.now) }
{
    // The cache keeps them: room for no more than there are.
    let mut copies = Vec::with_capacity(alloc, lent.len())?;
    for datum in lent {
        copies.push(datum.copy(alloc)?)?;
    }
    Ok(Items::new(copies))
}

/// A set as a find.
fn find_of(alloc: Global, set: &Gathering<'_>) -> Result<SharedFind, NoMemory>
    requires { 1 ≤ set.now.ttl }
    ensures { IfOk result (λ find. said_by find ≡ said_of set.now) }
{
    let owner = set.owner.clone()?;
    let data = copy_all(alloc, set.data.as_slice())?;
    // `Find::new` would compare the data with each other; here there are no duplicates.
    let find = Find {
        owner,
        scope: Scope::One(set.data.kind()),
        rank: set.rank,
        ttl: set.ttl,
        body: Body::Set(data),
    };
    SharedFind::new(alloc, find)
}

/// A set with a TTL of 0, as a passing set.
fn passing_set(alloc: Global, set: &Gathering<'_>) -> Result<Shared<PassingSet>, NoMemory>
    requires { set.now.ttl ≡ 0 }
    ensures { IfOk result (λ passing. set_of passing ≡ set.now) }
{
    let passing = PassingSet {
        owner: set.owner.clone()?,
        kind: set.data.kind(),
        rank: set.rank,
        data: copy_all(alloc, set.data.as_slice())?,
    };
    Shared::new(alloc, passing)
}

/// The sets that may be cached, as finds.
fn finds_of(alloc: Global, sets: &[Gathering<'_>]) -> Result<Vec<SharedFind>, NoMemory>
    ensures { IfOk result (λ finds. map said_by finds.items ≡ map said_of (filter lives sets.now)) }
{
    let mut finds = Vec::new(alloc);
    for set in sets {
        if set.ttl != 0 {
            finds.push(find_of(alloc, set)?)?;
        }
    }
    Ok(finds)
}

/// The sets with a TTL of 0.
fn passing_of(alloc: Global, sets: &[Gathering<'_>]) -> Result<Items<Shared<PassingSet>>, NoMemory>
    ensures { IfOk result (λ passing. map set_of passing ≡ filter passes sets.now) }
{
    let mut passing = Vec::new(alloc);
    for set in sets {
        if set.ttl == 0 {
            passing.push(passing_set(alloc, set)?)?;
        }
    }
    Ok(Items::new(passing))
}

/// Adds the negative answer of a message, if there is one.
fn push_negative(
    alloc: Global,
    message: &Message,
    question: &Question,
    zone: &Name,
    finds: &mut Vec<SharedFind>,
) -> Result<(), NoMemory>
    ensures { OnOk result (map said_by finds.new.items ≡ map said_by finds.old.items ++ negatives_in message.now question.now zone.now) }
{
    match negative_of(alloc, message, question, zone)? {
        None => Ok(()),
        Some(find) => {
            finds.push(SharedFind::new(alloc, find)?)?;
            Ok(())
        }
    }
}

/// The harvest of a message from a server of `zone` that was asked a question. It has each set of the records that count:
/// as a passing set if its TTL is 0, else as a find. The negative answer, if there is one, is the last find. It also has the finds
/// that are handed to a cache.
pub fn harvest(
    alloc: Global,
    message: &Message,
    question: &Question,
    zone: &Name,
) -> Result<Harvest, NoMemory>
    requires { HasForms message.now }
    ensures finds { IfOk result (λ harvest. map said_by harvest.finds ≡ finds_in message.now question.now zone.now) }
    ensures chosen { IfOk result (λ harvest. map said_by harvest.chosen ≡ chosen_in message.now question.now zone.now) }
    ensures passing { IfOk result (λ harvest. map set_of harvest.passing ≡ passing_in message.now question.now zone.now) }
{
    let records = records_of(alloc, message, question, zone)?;
    let sets = sets_of(alloc, &records)?;
    let passing = passing_of(alloc, &sets)?;
    let mut finds = finds_of(alloc, &sets)?;
    push_negative(alloc, message, question, zone, &mut finds)?;
    let chosen = chosen_of(alloc, &finds)?;
    Ok(Harvest {
        finds: Items::new(finds),
        chosen: Items::new(chosen),
        passing,
    })
}
