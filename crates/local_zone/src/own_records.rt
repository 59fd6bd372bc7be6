//! The records of one owner and TYPE on the other side of a change, and whether an owner has any there. None takes memory.

ghost use Rattle.std.specs.Prelude.{◌≡◌, ◌-◌, ◌&&◌, [], true, false, length, slice_get, take, if◌then◌else◌};
ghost use Rattle.std.specs.Option.{option_map};
ghost use Rattle.dns_name.specs.Order.{name_eq};
ghost use Rattle.local_zone.specs.Answer.{has_record};
ghost use Rattle.local_zone.specs.Closest.{lies_in, SaysIfSharesZone};
ghost use Rattle.local_zone.specs.Gaps.{at_gaps, rest_of, AreWithin};
ghost use Rattle.local_zone.specs.Index.{of_owner};
ghost use Rattle.local_zone.specs.OtherSet.{IsSetBack, IsSetBefore, IsSetWith, SaysIfHasBack, SaysIfHasBefore, SaysIfHasWith};
ghost use Rattle.local_zone.specs.OtherSide.{AreTaken};
ghost use Rattle.local_zone.specs.Show.{is_for, set_of};

use crate::added::Added;
use crate::other_set::OtherSet;
use crate::record::LocalRecord;
use crate::records::is_among;
use crate::removed::Removed;
use crate::zone::Zone;
use crate::zone_list::takes_out;
use crate::zones::closest;
use dns_name::Name;
use dns_text::{Record, Shared};
use named_list::{NamedList, Turn};

/// Whether a record is of this owner and TYPE.
fn is_for(said: &Record, owner: &Name, kind: u16) -> bool
    ensures { result ≡ is_for owner.now kind said.now }
{
    said.kind == kind && said.owner == *owner
}

/// The records of a set that stay, if one that was added to it is taken back: a new one was the last.
fn front_of<'a>(own: &'a [LocalRecord], is_new: bool) -> &'a [LocalRecord]
    ensures { result.now ≡ (if is_new then take (length own.now - 1) own.now else own.now) }
{
    if is_new {
        return &own[..own.len().saturating_sub(1)];
    }
    own
}

/// The records of a set, without one that was added.
pub(crate) fn set_before<'a>(
    own: &'a [LocalRecord],
    added: &Added,
    owner: &Name,
    kind: u16,
) -> OtherSet<'a>
    ensures { IsSetBefore added.now owner.now kind own.now result }
{
    if is_for(added.said.get(), owner, kind) {
        return OtherSet::timed(front_of(own, added.is_new), added.ttl);
    }
    OtherSet::same(own)
}

/// The records of a set, with one that is added.
pub(crate) fn set_with<'a>(
    own: &'a [LocalRecord],
    new: &'a Shared<Record>,
    owner: &Name,
    kind: u16,
) -> OtherSet<'a>
    ensures { IsSetWith new.now owner.now kind own.now result }
{
    let said = new.get();
    if is_for(said, owner, kind) {
        if is_among(own, said) {
            return OtherSet::timed(own, said.ttl);
        }
        return OtherSet::with(own, new);
    }
    OtherSet::same(own)
}

/// The records of a set, or those that come back, if there are none: an owner has records on one side alone.
pub(crate) fn set_back<'a>(
    own: &'a [LocalRecord],
    removed: &'a Removed,
    owner: &Name,
    kind: u16,
) -> OtherSet<'a>
    ensures { IsSetBack removed.now owner.now kind own.now result }
{
    if own.is_empty() {
        return OtherSet::same(removed.set_of(owner, kind));
    }
    OtherSet::same(own)
}

/// The owner of the first record at the gaps.
pub(crate) fn first_at<'a>(records: &'a [LocalRecord], gaps: &[usize]) -> Option<&'a Name>
    requires { AreWithin gaps.now records.now }
    ensures { option_map (λ name. name.now) result
        ≡ option_map (λ t. t.item.owner) (slice_get (at_gaps gaps.now records.now) 0) }
{
    let gap = gaps.first()?;
    let first = &records[*gap];
    Some(first.owner())
}

/// Whether the zone of this name covers an owner.
fn lies_under(zones: &NamedList<Zone>, name: &Name, owner: &Name) -> bool
    ensures { result ≡ lies_in zones.now name.now owner.now }
{
    match closest(zones, owner) {
        Some(zone) => zone.name == *name,
        None => false,
    }
}

/// Whether the zone that covers one name covers an owner too.
pub(crate) fn lies_with(zones: &NamedList<Zone>, first: &Name, owner: &Name) -> bool
    ensures { SaysIfSharesZone zones.now first.now owner.now result }
{
    match closest(zones, first) {
        Some(gone) => lies_under(zones, &gone.name, owner),
        None => false,
    }
}

/// Whether a removal takes the records of an owner, if it takes those of `first`: the records of a zone go with it. If it takes no zone,
/// it takes those of one owner.
fn goes_with(zones: &NamedList<Zone>, with_zone: bool, first: &Name, owner: &Name) -> bool
    ensures zone { with_zone ≡ true → SaysIfSharesZone zones.now first.now owner.now result }
    ensures owner { with_zone ≡ false → result ≡ name_eq owner.now first.now }
{
    if with_zone {
        return lies_with(zones, first, owner);
    }
    *owner == *first
}

/// Whether a removal of the records at the gaps takes those of an owner.
fn is_taken(
    zones: &NamedList<Zone>,
    turn: &Turn<Zone>,
    records: &[LocalRecord],
    gaps: &[usize],
    owner: &Name,
) -> bool
    requires { AreTaken turn.now zones.now gaps.now records.now }
    ensures { of_owner owner.now (rest_of gaps.now records.now) ≡ (if result then [] else of_owner owner.now records.now) }
{
    match first_at(records, gaps) {
        Some(first) => goes_with(zones, takes_out(turn), first, owner),
        None => false,
    }
}

/// The records of a set, or none if a removal takes those at the gaps with them.
pub(crate) fn set_left<'a>(
    own: &'a [LocalRecord],
    zones: &NamedList<Zone>,
    turn: &Turn<Zone>,
    records: &[LocalRecord],
    gaps: &[usize],
    owner: &Name,
    kind: u16,
) -> OtherSet<'a>
    requires { AreTaken turn.now zones.now gaps.now records.now }
    ensures { own.now ≡ set_of owner.now kind records.now → result ≡ set_of owner.now kind (rest_of gaps.now records.now) }
{
    if own.is_empty() {
        return OtherSet::same(own);
    }
    if is_taken(zones, turn, records, gaps, owner) {
        return OtherSet::same(&[]);
    }
    OtherSet::same(own)
}

/// Whether a record that was added is new, and of this owner.
fn is_new_of(added: &Added, owner: &Name) -> bool
    ensures { result ≡ (added.now.is_new && name_eq added.now.said.owner owner.now) }
{
    added.is_new && added.said.get().owner == *owner
}

/// Whether an owner has a record, without one that was added.
pub(crate) fn has_before(count: u64, added: &Added, owner: &Name) -> bool
    ensures { SaysIfHasBefore added.now owner.now count result }
{
    if is_new_of(added, owner) {
        return count > 1;
    }
    count > 0
}

/// Whether an owner has a record, with one that is added.
pub(crate) fn has_with(count: u64, new: &Record, owner: &Name) -> bool
    ensures { SaysIfHasWith new.now owner.now count result }
{
    count > 0 || new.owner == *owner
}

/// Whether an owner has a record, with those that come back.
pub(crate) fn has_back(count: u64, removed: &Removed, owner: &Name) -> bool
    ensures { SaysIfHasBack removed.now owner.now count result }
{
    count > 0 || removed.count_of(owner) > 0
}

/// Whether an owner has a record, unless a removal takes those at the gaps with it.
pub(crate) fn has_left(
    count: u64,
    zones: &NamedList<Zone>,
    turn: &Turn<Zone>,
    records: &[LocalRecord],
    gaps: &[usize],
    owner: &Name,
) -> bool
    requires { AreTaken turn.now zones.now gaps.now records.now }
    ensures { count ≡ length (of_owner owner.now records.now) → result ≡ has_record owner.now (rest_of gaps.now records.now) }
{
    if count == 0 {
        return false;
    }
    !is_taken(zones, turn, records, gaps, owner)
}
