//! The groups of records by owner: what a lookup of an owner tells, and how groups leave the index and come back to it whole.

ghost use Rattle.std.specs.Prelude.{◌≡◌, ◌≤◌, ◌<◌, ◌+◌, ◌++◌, [], List, None, false, length};
ghost use Rattle.std.specs.List.{AllByRecursion};
ghost use Rattle.indexmap.specs.IndexMap.{spare};
ghost use Rattle.dns_name.specs.Labels.{Labels};
ghost use Rattle.dns_name.specs.Order.{name_eq};
ghost use Rattle.dns_text.specs.declared.record.Record.{Record};
ghost use Rattle.local_zone.specs.Gaps.{records_of};
ghost use Rattle.local_zone.specs.Group.{group_of, AreIndexed, GetsNoGroup, IndexesSame, ShareNone};
ghost use Rattle.local_zone.specs.Index.{of_owner};
ghost use Rattle.local_zone.specs.Show.{data_for, set_of};

use crate::group::Group;
use crate::record::LocalRecord;
use crate::taken::Taken;
use dns_name::Name;
use indexmap::IndexMap;

/// How many records an owner has, by the index.
pub(crate) fn many_in(owners: &IndexMap<Name, Group>, owner: &Name) -> u64
    ensures { (records : List Record) → AreIndexed records owners.now.entries → result ≡ length (of_owner owner.now records) }
{
    match owners.get(owner) {
        Some(group) => group.len() as u64,
        None => 0,
    }
}

/// The records of an owner and TYPE, by the index.
pub(crate) fn set_in<'a>(
    owners: &'a IndexMap<Name, Group>,
    owner: &Name,
    kind: u16,
) -> &'a [LocalRecord]
    ensures { (records : List Record) → AreIndexed records owners.now.entries → result.now ≡ set_of owner.now kind records }
{
    match owners.get(owner) {
        Some(group) => group.of_kind(kind),
        None => &[],
    }
}

/// The CNAME of an owner, else its records of the TYPE, by the index.
pub(crate) fn data_in<'a>(
    owners: &'a IndexMap<Name, Group>,
    owner: &Name,
    kind: u16,
) -> &'a [LocalRecord]
    ensures { (records : List Record) → AreIndexed records owners.now.entries → result.now ≡ data_for owner.now kind records }
{
    match owners.get(owner) {
        Some(group) => group.data_for(kind),
        None => &[],
    }
}

/// Moves the group of an owner out of the index, with its key. It takes no memory.
fn move_group(owners: &mut IndexMap<Name, Group>, groups: &mut IndexMap<Name, Group>, owner: &Name)
    requires room { 0 < spare groups.old }
    requires apart { ShareNone groups.old.entries owners.old.entries }
    // Both together index the same records as before.
    ensures index { IndexesSame (groups.old.entries ++ owners.old.entries) (groups.new.entries ++ owners.new.entries) }
    ensures gone { group_of owner.now owners.new.entries ≡ None }
    ensures stays { (other : Labels) → GetsNoGroup other owners.old.entries owners.new.entries }
    ensures only { (other : Labels) → name_eq owner.now other ≡ false → GetsNoGroup other groups.old.entries groups.new.entries }
    ensures spare { spare groups.old ≤ spare groups.new + 1 }
    ensures apart { ShareNone groups.new.entries owners.new.entries }
{
    if let Some((key, records)) = owners.swap_remove_entry(owner) {
        drop(groups.insert(key, records));
    }
}

/// Moves the groups of all owners of what was taken out of the index.
pub(crate) fn move_groups(
    owners: &mut IndexMap<Name, Group>,
    groups: &mut IndexMap<Name, Group>,
    taken: &[Taken],
)
    requires room { length taken.now ≤ spare groups.old }
    requires apart { ShareNone groups.old.entries owners.old.entries }
    ensures index { IndexesSame (groups.old.entries ++ owners.old.entries) (groups.new.entries ++ owners.new.entries) }
    ensures gone { AllByRecursion (λ t. group_of t.item.owner owners.new.entries ≡ None) taken.now }
    ensures only { (other : Labels) → of_owner other (records_of taken.now) ≡ [] →
        GetsNoGroup other groups.old.entries groups.new.entries }
{
    for t in taken {
        move_group(owners, groups, t.item.owner());
    }
}

/// Moves the groups of all owners of what stays out of the index.
pub(crate) fn keep_groups(
    owners: &mut IndexMap<Name, Group>,
    kept: &mut IndexMap<Name, Group>,
    left: &[LocalRecord],
)
    requires room { length left.now ≤ spare kept.old }
    requires apart { ShareNone kept.old.entries owners.old.entries }
    ensures index { IndexesSame (kept.old.entries ++ owners.old.entries) (kept.new.entries ++ owners.new.entries) }
    ensures gone { AllByRecursion (λ r. group_of r.owner owners.new.entries ≡ None) left.now }
    ensures only { (other : Labels) → of_owner other left.now ≡ [] → GetsNoGroup other kept.old.entries kept.new.entries }
{
    for r in left {
        move_group(owners, kept, r.owner());
    }
}

/// Puts groups back into the index. There is room for them.
pub(crate) fn put_groups(owners: &mut IndexMap<Name, Group>, groups: IndexMap<Name, Group>)
    requires { length groups.entries ≤ spare owners.old }
    ensures { IndexesSame (groups.entries ++ owners.old.entries) owners.new.entries }
{
    let mut groups = groups;
    while let Some((key, records)) = groups.pop() {
        let _ = owners.insert(key, records);
    }
}
