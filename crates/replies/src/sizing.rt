//! The number of octets of a reply, before it is written.

ghost use Rattle.std.specs.Prelude.{◌≡◌, ◌≤◌, ℕ, length, map, IfSome, IsTrue, Some};
ghost use Rattle.dns_name.specs.declared.limits.TheConstants.{MAX_NAME_OCTETS};
ghost use Rattle.dns_wire.specs.Lent.{in_order};
ghost use Rattle.dns_wire.specs.Write.Name.{owner_octets};
ghost use Rattle.dns_wire.specs.Write.Rdata.{data_octets};
ghost use Rattle.replies.specs.Lending.{answer_parts, authority_parts, records_found, records_written};
ghost use Rattle.replies.specs.Sizing.{bodies_size, capped, records_size, MustBeCut};

use crate::limits::{MOST_MESSAGE, MOST_UDP_REPLY};
use dns_name::Name;
use dns_text::{Data, Items};
use dns_wire::{HEADER_OCTETS, Query};
use iterate::{AnswerSet, Soa};
use ranked::{Body, Find, Scope};

/// The octets of RDATA with each name whole (RFC 1035, section 3.3), up to 2^64 - 1.
#[tactic(auto, unfolding(dns_wire::specs::Write::Rdata::data_octets))]
pub fn data_size(body: &Data) -> usize
    ensures { result ≡ capped (length (data_octets body.now)) }
{
    match body {
        Data::A(octets) => octets.as_slice().len(),
        Data::Aaaa(octets) => octets.as_slice().len(),
        Data::One(name) => name.wire_len(),
        Data::Mx { exchange, .. } => 2 + exchange.wire_len(),
        Data::Soa {
            primary,
            mailbox,
            ..
        } => primary.wire_len() + mailbox.wire_len() + 20,
        Data::Txt(strings) => strings.octets().len(),
        Data::Srv { target, .. } => 6 + target.wire_len(),
        Data::Opaque(octets) => octets.as_slice().len(),
    }
}

/// Records, each of which has an owner of so many octets.
fn bodies_size(owner: usize, bodies: &[Data]) -> usize
    requires { owner ≤ MAX_NAME_OCTETS }
    ensures { result ≡ capped (bodies_size owner bodies.now) }
{
    let mut total = 0usize;
    for body in bodies {
        total = total
            .saturating_add(owner + 10)
            .saturating_add(data_size(body));
    }
    total
}

/// An owner in a reply to a question with this name.
fn owner_size(first: &Name, owner: &Name) -> usize
    ensures exact { result ≡ length (owner_octets (Some first.now) owner.now) }
    ensures few { result ≤ MAX_NAME_OCTETS }
{
    if *first == *owner {
        return 2;
    }
    owner.wire_len()
}

/// The records of a find in a reply to a question with this name.
fn found_size(first: &Name, find: &Find) -> usize
    ensures { (ttl : ℕ) → result ≡ capped (records_size first.now (records_found ttl find.now)) }
{
    match (&find.scope, &find.body) {
        (Scope::One(_), Body::Set(data)) => {
            bodies_size(owner_size(first, &find.owner), data.as_slice())
        }
        _ => 0,
    }
}

/// The records of a set in a reply to a question with this name. None for local data, whose records have an owner each.
fn set_size(first: &Name, set: &AnswerSet) -> Option<usize>
    ensures { IfSome result (λ size. size ≡ capped (records_size first.now (records_written set.now))) }
{
    match set {
        AnswerSet::Find { find, .. } => Some(found_size(first, find.find())),
        AnswerSet::Local(_) => None,
        AnswerSet::Passing(set) => {
            let set = set.get();
            let owner = owner_size(first, &set.owner);
            Some(bodies_size(owner, set.data.as_slice()))
        }
    }
}

/// The sets of aliases in a reply to a question with this name. None if one of them is local data.
fn aliases_size(first: &Name, aliases: &[AnswerSet]) -> Option<usize>
    ensures { IfSome result (λ size. size ≡ capped (records_size first.now (in_order (map records_written aliases.now)))) }
{
    let mut total = 0usize;
    for set in aliases {
        total = total.saturating_add(set_size(first, set)?);
    }
    Some(total)
}

/// Whether a reply is too long for UDP, and no longer than a message may be. A reply with local data or an authority section is not
/// counted, and the answer is no.
pub(crate) fn must_be_cut(
    query: &Query,
    aliases: &Items<AnswerSet>,
    last: &Option<AnswerSet>,
    authority: &Option<Soa>,
) -> bool
    ensures { IsTrue result → MustBeCut query.now (answer_parts aliases.now last.now) (authority_parts authority.now) }
{
    let Some(set) = last else {
        return false;
    };
    if authority.is_some() {
        return false;
    }
    let first = &query.question.owner;
    let Some(last) = set_size(first, set) else {
        return false;
    };
    let Some(aliases) = aliases_size(first, aliases.as_slice()) else {
        return false;
    };
    let front = HEADER_OCTETS + query.octets.as_slice().len();
    let size = aliases.saturating_add(last).saturating_add(front);
    if size <= MOST_UDP_REPLY {
        return false;
    }
    size <= MOST_MESSAGE
}
