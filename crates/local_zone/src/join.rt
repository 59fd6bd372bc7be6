//! Two indexes by owner, each with counts, become one.

ghost use Rattle.std.specs.Prelude.{◌≡◌, ◌++◌, [], OnErr, OnOk};
ghost use Rattle.local_zone.specs.CountsBelow.{counted, CountMoreBy, CountTheSame};
ghost use Rattle.local_zone.specs.Group.{IndexesSame, ShareNone};

use crate::counts_below::CountsBelow;
use crate::group::Group;
use crate::groups::put_groups;
use dns_name::{Name, NoMemory};
use indexmap::IndexMap;
use std::alloc::Global;
use std::mem;

/// Moves all groups and counts into another index and its counts. It takes all its memory first. If that is refused, nothing has
/// changed.
fn move_all(
    alloc: Global,
    owners: &mut IndexMap<Name, Group>,
    below: &mut CountsBelow,
    groups: &mut IndexMap<Name, Group>,
    more: &mut CountsBelow,
) -> Result<(), NoMemory>
    ensures index { OnOk result (IndexesSame (groups.old.entries ++ owners.old.entries) owners.new.entries) }
    ensures counts { OnOk result (CountMoreBy (λ name. counted name more.old) below.old below.new) }
    ensures moved { OnOk result ((groups.new.entries ≡ []) × (more.new ≡ [])) }
    ensures err_index { OnErr result ((owners.new.entries ≡ owners.old.entries) × (groups.new.entries ≡ groups.old.entries)) }
    ensures err_counts { OnErr result (CountTheSame below.old below.new × (more.new ≡ more.old)) }
{
    owners.reserve(groups.len())?;
    below.add_all(alloc, more)?;
    put_groups(owners, mem::replace(groups, IndexMap::new(alloc)));
    *more = CountsBelow::new(alloc);
    Ok(())
}

/// Makes one index of two that share no owner, and sums their counts. The smaller moves into the larger. Nothing is left of `groups`
/// and `more`. It takes all its memory first. If that is refused, nothing has changed.
pub(crate) fn join(
    alloc: Global,
    owners: &mut IndexMap<Name, Group>,
    below: &mut CountsBelow,
    groups: &mut IndexMap<Name, Group>,
    more: &mut CountsBelow,
) -> Result<(), NoMemory>
    requires { ShareNone groups.old.entries owners.old.entries }
    ensures index { OnOk result (IndexesSame (groups.old.entries ++ owners.old.entries) owners.new.entries) }
    ensures counts { OnOk result (CountMoreBy (λ name. counted name more.old) below.old below.new) }
    ensures moved { OnOk result ((groups.new.entries ≡ []) × (more.new ≡ [])) }
    ensures err_index { OnErr result ((owners.new.entries ≡ owners.old.entries) × (groups.new.entries ≡ groups.old.entries)) }
    ensures err_counts { OnErr result (CountTheSame below.old below.new × CountTheSame more.old more.new) }
{
    if groups.len() <= owners.len() {
        return move_all(alloc, owners, below, groups, more);
    }
    move_all(alloc, groups, more, owners, below)?;
    mem::swap(owners, groups);
    mem::swap(below, more);
    Ok(())
}
