//! All the sets of a message.

ghost use Rattle.std.specs.Prelude.{◌≡◌, ◌∷◌, ◌++◌, [], false, IfOk, OnOk, map};
ghost use Rattle.std.specs.BTreeMap.{get};
ghost use Rattle.harvest.specs.Indexed.{place_cmp, place_key, IsIndex};
ghost use Rattle.harvest.specs.Sets.{begun, has_set, joined, key_of, sets_of};

use crate::counted::Counted;
use crate::gathering::Gathering;
use dns_name::{Name, NoMemory};
use std::alloc::Global;
use std::collections::BTreeMap;

/// The key of a set: the owner, and the type and rank.
type PlaceKey = (Name, (u16, u8));

/// The key of the set that a record is of.
fn place_key(r: &Counted<'_>) -> Result<PlaceKey, NoMemory>
    ensures { IfOk result (λ key. key ≡ place_key (key_of r.now)) }
{
    let owner = r.said.owner.clone()?;
    Ok((owner, (r.said.kind, r.rank.level())))
}

/// The place of the set that a record is of.
fn place_of(places: &BTreeMap<PlaceKey, usize>, r: &Counted<'_>) -> Result<Option<usize>, NoMemory>
    ensures { IfOk result (λ place. place ≡ get place_cmp places.now (place_key (key_of r.now))) }
{
    let key = place_key(r)?;
    Ok(places.get(&key).copied())
}

/// Adds a record to the set that it is of, and returns whether there is one.
fn join_sets<'a>(
    alloc: Global,
    sets: &mut [Gathering<'a>],
    places: &BTreeMap<PlaceKey, usize>,
    r: &Counted<'a>,
) -> Result<bool, NoMemory>
    requires { IsIndex places.now sets.old }
    ensures sets { OnOk result (sets.new ≡ map (joined r.now) sets.old) }
    ensures told { IfOk result (λ told. told ≡ has_set sets.old r.now) }
{
    match place_of(places, r)? {
        None => Ok(false),
        Some(i) => {
            sets[i].join(alloc, r)?;
            Ok(true)
        }
    }
}

/// Adds a new set of one record.
fn begin_set<'a>(
    alloc: Global,
    sets: &mut Vec<Gathering<'a>>,
    places: &mut BTreeMap<PlaceKey, usize>,
    r: &Counted<'a>,
) -> Result<(), NoMemory>
    requires places { IsIndex places.old sets.old.items }
    requires begins { has_set sets.old.items r.now ≡ false }
    ensures sets { OnOk result (sets.new.items ≡ sets.old.items ++ begun r.now ∷ []) }
    ensures places { OnOk result (IsIndex places.new sets.new.items) }
{
    let key = place_key(r)?;
    places.insert(key, sets.len())?;
    sets.push(Gathering::new(alloc, r)?)?;
    Ok(())
}

/// The sets of these records, in the order of their first records.
pub(crate) fn sets_of<'a>(
    alloc: Global,
    records: &Vec<Counted<'a>>,
) -> Result<Vec<Gathering<'a>>, NoMemory>
    ensures { IfOk result (λ sets. sets.items ≡ sets_of records.now.items) }
{
    let mut places = BTreeMap::new(alloc);
    let mut sets = Vec::new(alloc);
    for r in records {
        if !join_sets(alloc, &mut sets, &places, r)? {
            begin_set(alloc, &mut sets, &mut places, r)?;
        }
    }
    Ok(sets)
}
