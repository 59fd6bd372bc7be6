//! The zone to which a response refers.

ghost use Rattle.std.specs.Prelude.{◌≡◌, ◌↔◌, IsTrue, MatchOption};
ghost use Rattle.std.specs.List.{list_all, list_any};
ghost use Rattle.std.specs.Option.{option_map};
ghost use Rattle.dns_name.specs.Labels.{IsAtOrBelow};
ghost use Rattle.dns_query.specs.Referral.{is_in, is_of, is_own, ns_owner, MayRefer, RefersTo, RefersNowhere};

use crate::believing::is_same;
use dns_name::Name;
use dns_text::Record;
use dns_text::types::{NS, SOA};
use dns_wire::{CLASS_IN, Classed, Message, Rcode};

/// Whether a record is of class IN.
fn is_in(r: &Classed<Record>) -> bool
    ensures { result ≡ is_in r.now }
{
    r.class == CLASS_IN
}

/// Whether a record is of class IN and this type.
pub(crate) fn is_of(kind: u16, r: &Classed<Record>) -> bool
    ensures { result ≡ is_of kind r.now }
{
    is_in(r) && r.item.kind == kind
}

/// Whether a record is no NS record, or an NS record of this name.
fn is_own(name: &Name, r: &Classed<Record>) -> bool
    ensures { result ≡ is_own name.now r.now }
{
    !is_of(NS, r) || r.item.owner == *name
}

/// Whether a section has a record of class IN.
fn has_any(section: &[Classed<Record>]) -> bool
    ensures { result ≡ list_any is_in section.now }
{
    section.iter().any(|r| is_in(r))
}

/// Whether a section has an SOA record.
fn has_soa(section: &[Classed<Record>]) -> bool
    ensures { result ≡ list_any (is_of SOA) section.now }
{
    section.iter().any(|r| is_of(SOA, r))
}

/// The owner of the first NS record.
fn ns_owner(section: &[Classed<Record>]) -> Option<&Name>
    ensures { option_map (λ name. name.now) result ≡ ns_owner section.now }
{
    let first = section.iter().find(|r| is_of(NS, r))?;
    Some(&first.item.owner)
}

/// Whether all NS records of a section are of this name.
fn has_one_owner(section: &[Classed<Record>], name: &Name) -> bool
    ensures { result ≡ list_all (is_own name.now) section.now }
{
    section.iter().all(|r| is_own(name, r))
}

/// Whether a response may be a referral: it is not authoritative, and has no error, no answer and no SOA record.
fn may_refer(message: &Message) -> bool
    ensures { IsTrue result ↔ MayRefer message.now }
{
    message.head.rcode == Rcode::NO_ERROR
        && !message.head.aa
        && !has_any(message.answer.as_slice())
        && !has_soa(message.authority.as_slice())
}

/// Whether a zone is strictly below the one asked.
fn is_nearer(asked: &Name, zone: &Name) -> bool
    ensures { IsTrue result ↔ (IsAtOrBelow zone.now asked.now × (¬ (zone.now ≡ asked.now))) }
{
    zone.at_or_below(asked) && !is_same(zone, asked)
}

/// The zone to which a response refers.
pub(crate) fn zone_of<'a>(asked: &Name, message: &'a Message) -> Option<&'a Name>
    ensures { MatchOption result (RefersNowhere asked.now message.now) (λ zone. RefersTo asked.now message.now zone.now) }
{
    if !may_refer(message) {
        return None;
    }
    let authority = message.authority.as_slice();
    match ns_owner(authority) {
        None => None,
        Some(zone) => {
            if has_one_owner(authority, zone) && is_nearer(asked, zone) {
                Some(zone)
            } else {
                None
            }
        }
    }
}
