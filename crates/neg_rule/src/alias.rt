//! The last name of a question, to which the CNAME records of an answer section lead.

ghost use Rattle.std.specs.Prelude.{◌≡◌};
ghost use Rattle.std.specs.List.{find};
ghost use Rattle.std.specs.Option.{option_map};
ghost use Rattle.neg_rule.specs.Alias.{is_for, target_of, alias_of, next_name, name_after, last_of};

use dns_name::Name;
use dns_text::types::CNAME;
use dns_text::{Data, Question, Record};
use dns_wire::{CLASS_IN, Classed};

/// The most CNAME records of one response that are followed.
pub const MOST_RESPONSE_ALIASES: usize = 16;

/// Whether a record is of class IN, this owner and this type.
pub(crate) fn is_for(r: &Classed<Record>, owner: &Name, kind: u16) -> bool
    ensures { result ≡ is_for owner.now kind r.now }
{
    r.class == CLASS_IN && r.item.kind == kind && r.item.owner == *owner
}

/// The name in the data of a CNAME.
fn target_of(body: &Data) -> Option<&Name>
    ensures { option_map (λ name. name.now) result ≡ target_of body.now }
{
    match body {
        Data::One(name) => Some(name),
        _ => None,
    }
}

/// The first CNAME record of an owner.
fn cname_of<'a>(answer: &'a [Classed<Record>], owner: &Name) -> Option<&'a Classed<Record>>
    ensures { option_map (λ r. r.now) result ≡ find (is_for owner.now CNAME) answer.now }
{
    answer.iter().find(|r| is_for(r, owner, CNAME))
}

/// The name that an owner is an alias of.
fn alias_of<'a>(answer: &'a [Classed<Record>], owner: &Name) -> Option<&'a Name>
    ensures { option_map (λ name. name.now) result ≡ alias_of answer.now owner.now }
{
    match cname_of(answer, owner) {
        Some(r) => target_of(&r.item.body),
        None => None,
    }
}

/// The name that an owner is an alias of, or the owner itself.
fn next_name<'a>(answer: &'a [Classed<Record>], owner: &'a Name) -> &'a Name
    ensures { result.now ≡ next_name answer.now owner.now }
{
    alias_of(answer, owner).unwrap_or(owner)
}

/// The name to which the aliases of a name lead in this many steps.
fn name_after<'a>(answer: &'a [Classed<Record>], owner: &'a Name, steps: usize) -> &'a Name
    ensures { result.now ≡ name_after answer.now owner.now steps }
{
    let mut name = owner;
    for _ in 0..steps {
        name = next_name(answer, name);
    }
    name
}

/// The last name of a question; none if its aliases go on.
pub(crate) fn last_of<'a>(answer: &'a [Classed<Record>], question: &'a Question) -> Option<&'a Name>
    ensures { option_map (λ name. name.now) result ≡ last_of answer.now question.now }
{
    if question.kind == CNAME {
        return Some(&question.owner);
    }
    let last = name_after(answer, &question.owner, MOST_RESPONSE_ALIASES);
    match alias_of(answer, last) {
        None => Some(last),
        Some(_) => None,
    }
}
