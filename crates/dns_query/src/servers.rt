//! The servers that a response names, and their addresses.

ghost use Rattle.std.specs.Prelude.{◌≡◌, ◌==◌, ◌∷◌, ◌++◌, [], filter, map, if◌then◌else◌, IfOk, OnOk};
ghost use Rattle.std.specs.Option.{option_map};
ghost use Rattle.dns_name.specs.Order.{name_eq};
ghost use Rattle.ranked.specs.Body.{data_of};
ghost use Rattle.ranked.specs.Find.{has_kind};
ghost use Rattle.ranked.specs.Set.{with_datum};
ghost use Rattle.neg_rule.specs.Negative.{said_by};
ghost use Rattle.harvest.specs.Learnt.{set_of};
ghost use Rattle.dns_query.specs.Indexed.{addrs_at, HasEach, AddsAddrs, HasAddrs, lacks_addr};
ghost use Rattle.dns_query.specs.Referral.{addrs_of, target_in, targets_in, addrs_found, addrs_harvested, addrs_owned, addrs_passing};

use crate::referred_zone::is_of;
use dns_name::{Name, NoMemory};
use dns_text::types::{A, AAAA, NS};
use dns_text::{Addr, Data, Record, Shared};
use dns_wire::Classed;
use harvest::{Harvest, PassingSet};
use ranked::{Body, Find, Scope, SharedFind, push_addrs};
use std::alloc::Global;
use std::collections::{BTreeMap, BTreeSet};

/// The server that a record names, if it is an NS record.
fn target_in(r: &Classed<Record>) -> Option<&Name>
    ensures { option_map (λ name. name.now) result ≡ target_in r.now }
{
    if !is_of(NS, r) {
        return None;
    }
    match &r.item.body {
        Data::One(name) => Some(name),
        _ => None,
    }
}

/// Adds a name, unless it is there. The set has the names that are there.
fn push_once(
    name: &Name,
    seen: &mut BTreeSet<Name>,
    targets: &mut Vec<Name>,
) -> Result<(), NoMemory>
    requires { HasEach seen.old targets.old.items }
    ensures targets { OnOk result (targets.new.items ≡ with_datum name_eq targets.old.items name.now) }
    ensures seen { OnOk result (HasEach seen.new targets.new.items) }
{
    let added = seen.insert(name.clone()?)?;
    if added {
        targets.push(name.clone()?)?;
    }
    Ok(())
}

/// The servers that a section names, without duplicates.
pub(crate) fn targets_in(alloc: Global, section: &[Classed<Record>]) -> Result<Vec<Name>, NoMemory>
    ensures { IfOk result (λ targets. targets.items ≡ targets_in section.now) }
{
    let mut seen = BTreeSet::new(alloc);
    let mut targets = Vec::new(alloc);
    for r in section {
        if let Some(name) = target_in(r) {
            push_once(name, &mut seen, &mut targets)?;
        }
    }
    Ok(targets)
}

/// The data of a find; a negative answer has none.
fn data_in(body: &Body) -> &[Data]
    ensures { result.now ≡ data_of body.now }
{
    match body {
        Body::Set(data) => data.as_slice(),
        Body::NoData(_) | Body::NoName(_) => &[],
    }
}

/// The data of a type in a find, whatever its rank.
fn found_of_kind(find: &Find, kind: u16) -> &[Data]
    ensures { result.now ≡ (if has_kind find.now.scope kind then data_of find.now.body else []) }
{
    match find.scope {
        Scope::One(own) => {
            if own == kind {
                data_in(&find.body)
            } else {
                &[]
            }
        }
        Scope::Whole => data_in(&find.body),
    }
}

/// The data of a type in a passing set.
fn passing_of_kind(set: &PassingSet, kind: u16) -> &[Data]
    ensures { result.now ≡ (if set.now.kind == kind then set.now.data else []) }
{
    if set.kind == kind {
        set.data.as_slice()
    } else {
        &[]
    }
}

/// Adds the addresses of a set's data to those of its owner.
fn add_addrs(
    alloc: Global,
    port: u16,
    owner: &Name,
    set: &[Data],
    index: &mut BTreeMap<Name, Vec<Addr>>,
) -> Result<(), NoMemory>
    ensures { OnOk result (AddsAddrs index.old (addrs_owned port owner.now set.now) index.new) }
{
    if set.is_empty() {
        return Ok(());
    }
    if let Some(addrs) = index.get_mut(owner) {
        return push_addrs(port, set, addrs);
    }
    let mut addrs = Vec::new(alloc);
    push_addrs(port, set, &mut addrs)?;
    index.insert(owner.clone()?, addrs)?;
    Ok(())
}

/// Adds the addresses of the finds of one type.
fn add_found(
    alloc: Global,
    port: u16,
    finds: &[SharedFind],
    kind: u16,
    index: &mut BTreeMap<Name, Vec<Addr>>,
) -> Result<(), NoMemory>
    ensures { OnOk result (AddsAddrs index.old (addrs_found port (map said_by finds.now) kind) index.new) }
{
    for find in finds {
        let find = find.find();
        add_addrs(alloc, port, &find.owner, found_of_kind(find, kind), index)?;
    }
    Ok(())
}

/// Adds the addresses of the passing sets of one type.
fn add_passing(
    alloc: Global,
    port: u16,
    passing: &[Shared<PassingSet>],
    kind: u16,
    index: &mut BTreeMap<Name, Vec<Addr>>,
) -> Result<(), NoMemory>
    ensures { OnOk result (AddsAddrs index.old (addrs_passing port (map set_of passing.now) kind) index.new) }
{
    for set in passing {
        let set = set.get();
        add_addrs(alloc, port, &set.owner, passing_of_kind(set, kind), index)?;
    }
    Ok(())
}

/// Adds the addresses of each name from its records of one type.
fn add_kind(
    alloc: Global,
    port: u16,
    harvest: &Harvest,
    kind: u16,
    index: &mut BTreeMap<Name, Vec<Addr>>,
) -> Result<(), NoMemory>
    ensures { OnOk result (AddsAddrs index.old (addrs_harvested port harvest.now kind) index.new) }
{
    add_found(alloc, port, harvest.finds.as_slice(), kind, index)?;
    add_passing(alloc, port, harvest.passing.as_slice(), kind, index)
}

/// The addresses that a harvest has for each name, IPv4 first.
pub(crate) fn addrs_by_name(
    alloc: Global,
    port: u16,
    harvest: &Harvest,
) -> Result<BTreeMap<Name, Vec<Addr>>, NoMemory>
    ensures { IfOk result (λ index. HasAddrs index (addrs_of port (map said_by harvest.now.finds) (map set_of harvest.now.passing))) }
{
    let mut index = BTreeMap::new(alloc);
    add_kind(alloc, port, harvest, A, &mut index)?;
    add_kind(alloc, port, harvest, AAAA, &mut index)?;
    Ok(index)
}

/// The addresses of a name; none if the map does not have it.
fn addrs_at<'a>(index: &'a BTreeMap<Name, Vec<Addr>>, name: &Name) -> &'a [Addr]
    ensures { result.now ≡ addrs_at index.now name.now }
{
    match index.get(name) {
        None => &[],
        Some(addrs) => addrs.as_slice(),
    }
}

/// Adds the addresses of a server, or adds it to the servers without an address.
pub(crate) fn add_server(
    index: &BTreeMap<Name, Vec<Addr>>,
    target: &Name,
    addrs: &mut Vec<Addr>,
    missing: &mut Vec<Name>,
) -> Result<(), NoMemory>
    ensures addrs { OnOk result (addrs.new.items ≡ addrs.old.items ++ addrs_at index.now target.now) }
    ensures missing { OnOk result (missing.new.items ≡ missing.old.items ++ filter (λ name. lacks_addr index.now name) (target.now ∷ [])) }
{
    let own = addrs_at(index, target);
    if own.is_empty() {
        missing.push(target.clone()?)?;
    }
    addrs.extend_from_slice(own)
}
