//! The sets of a harvest that may be used as answers.

ghost use Rattle.std.specs.Prelude.{◌≡◌, ◌↔◌, IsTrue};
ghost use Rattle.neg_rule.specs.Negative.{said_by};
ghost use Rattle.harvest.specs.Learnt.{set_of};
ghost use Rattle.dns_query.specs.Believed.{IsFoundFor, IsPassingFor, FindsBelieved, FindsFirstFind, FindsFirstPassing};

use crate::sets::Believed;
use dns_name::Name;
use dns_text::{Question, Shared};
use harvest::{Harvest, PassingSet};
use ranked::{Body, Find, Scope, SharedFind};

/// Whether two names are the same.
pub(crate) fn is_same(name: &Name, other: &Name) -> bool
    ensures { IsTrue result ↔ (name.now ≡ other.now) }
{
    name == other
}

/// Whether a find is a set of this name and type that may be used as an answer.
fn is_found_for(find: &Find, owner: &Name, kind: u16) -> bool
    ensures { IsTrue result ↔ IsFoundFor (record { owner = owner.now; kind = kind }) (said_by find.now) }
{
    find.scope == Scope::One(kind)
        && find.rank.level() >= 2
        && matches!(&find.body, Body::Set(_))
        && is_same(&find.owner, owner)
}

/// Whether a passing set is of this name and type and may be used as an answer.
fn is_passing_for(set: &PassingSet, owner: &Name, kind: u16) -> bool
    ensures { IsTrue result ↔ IsPassingFor (record { owner = owner.now; kind = kind }) (set_of set.now) }
{
    set.kind == kind && set.rank.level() >= 2 && is_same(&set.owner, owner)
}

/// The first find of this name and type that may be used as an answer.
fn first_found<'a>(finds: &'a [SharedFind], owner: &Name, kind: u16) -> Option<&'a SharedFind>
    ensures { FindsFirstFind (record { owner = owner.now; kind = kind }) finds.now result }
{
    for find in finds {
        if is_found_for(find.find(), owner, kind) {
            return Some(find);
        }
    }
    None
}

/// The first passing set of this name and type that may be used as an answer.
fn first_passing<'a>(
    passing: &'a [Shared<PassingSet>],
    owner: &Name,
    kind: u16,
) -> Option<&'a Shared<PassingSet>>
    ensures { FindsFirstPassing (record { owner = owner.now; kind = kind }) passing.now result }
{
    for set in passing {
        if is_passing_for(set.get(), owner, kind) {
            return Some(set);
        }
    }
    None
}

/// The first set of this name and type that may be used as an answer.
pub(crate) fn believed_of<'a>(harvest: &'a Harvest, owner: &Name, kind: u16) -> Option<Believed<'a>>
    ensures { FindsBelieved harvest.now (record { owner = owner.now; kind = kind }) result }
{
    match first_found(harvest.finds.as_slice(), owner, kind) {
        Some(find) => Some(Believed::Find(find)),
        None => match first_passing(harvest.passing.as_slice(), owner, kind) {
            Some(set) => Some(Believed::Passing(set)),
            None => None,
        },
    }
}

/// The first set of a harvest that may be used as the answer to this question: it has rank 2 or more (RFC 2181, section
/// 5.4.1). Finds come before passing sets.
pub fn believed<'a>(harvest: &'a Harvest, question: &Question) -> Option<Believed<'a>>
    ensures { FindsBelieved harvest.now question.now result }
{
    believed_of(harvest, &question.owner, question.kind)
}
