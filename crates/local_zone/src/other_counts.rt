//! How many records lie at or below a name on the other side of a change, in the zone in which the name lies there.

ghost use Rattle.std.specs.Prelude.{◌≡◌, ◌≤◌, ◌&&◌, not, length};
ghost use Rattle.local_zone.specs.declared.added.RecordTurn.TheVariants as RecordTurn;
ghost use Rattle.local_zone.specs.declared.table.TheConstants.{MOST_RECORDS};
ghost use Rattle.local_zone.specs.Added.{records_before, GoesBack};
ghost use Rattle.local_zone.specs.Change.{is_there, records_with};
ghost use Rattle.local_zone.specs.Closest.{closest};
ghost use Rattle.local_zone.specs.Count.{count_of, counts_there, same_zone};
ghost use Rattle.local_zone.specs.CountsBelow.{AreZoned};
ghost use Rattle.local_zone.specs.Gaps.{at_gaps, rest_of, AreApart, AreWithin};
ghost use Rattle.local_zone.specs.OtherCount.{count_without, CountsOutside, CountsRemoved};
ghost use Rattle.local_zone.specs.OtherSide.{RemovesAt};
ghost use Rattle.named_list.specs.Named.{AreNamed};
ghost use Rattle.named_list.specs.Turn.{other_of, HasPlace};

use crate::added::Added;
use crate::counts_below::CountsBelow;
use crate::own_records::{first_at, lies_with};
use crate::record_list::RecordList;
use crate::records::is_there;
use crate::removed::Removed;
use crate::zone::Zone;
use crate::zone_list::takes_out;
use crate::zoned::{count_of, count_over};
use crate::zones::closest_over;
use dns_name::Name;
use dns_text::Record;
use named_list::{NamedList, Turn};

/// Whether the same zone covers a name and an owner there, or none covers either.
fn share_zone(zones: &NamedList<Zone>, turn: &Turn<Zone>, name: &Name, owner: &Name) -> bool
    requires fits { HasPlace (λ z. z.name) turn.now zones.now }
    requires sound { AreNamed (λ z. z.name) (other_of turn.now zones.now) }
    ensures { result
        ≡ same_zone (closest (other_of turn.now zones.now) name.now) (closest (other_of turn.now zones.now) owner.now) }
{
    match closest_over(zones, turn, name) {
        Some(one) => match closest_over(zones, turn, owner) {
            Some(other) => other.name == one.name,
            None => false,
        },
        None => closest_over(zones, turn, owner).is_none(),
    }
}

/// Whether a record of this owner counts for a name there.
fn counts_for(zones: &NamedList<Zone>, turn: &Turn<Zone>, name: &Name, owner: &Name) -> bool
    requires fits { HasPlace (λ z. z.name) turn.now zones.now }
    requires sound { AreNamed (λ z. z.name) (other_of turn.now zones.now) }
    ensures { result ≡ counts_there (other_of turn.now zones.now) name.now owner.now }
{
    owner.at_or_below(name) && share_zone(zones, turn, name, owner)
}

/// Whether a record that was added is new, and counts for a name there.
fn counts_added(zones: &NamedList<Zone>, turn: &Turn<Zone>, added: &Added, name: &Name) -> bool
    requires fits { HasPlace (λ z. z.name) turn.now zones.now }
    requires sound { AreNamed (λ z. z.name) (other_of turn.now zones.now) }
    ensures { result ≡ (added.now.is_new && counts_there (other_of turn.now zones.now) name.now added.now.said.owner) }
{
    added.is_new && counts_for(zones, turn, name, &added.said.get().owner)
}

/// The count without a record that was added.
pub(crate) fn count_before(
    zones: &NamedList<Zone>,
    turn: &Turn<Zone>,
    records: &RecordList,
    zoned: &CountsBelow,
    added: &Added,
    name: &Name,
) -> u64
    requires fits { HasPlace (λ z. z.name) turn.now zones.now }
    requires sound { AreNamed (λ z. z.name) (other_of turn.now zones.now) }
    requires zoned { AreZoned zones.now records.now zoned.now }
    requires goes { GoesBack (RecordTurn.Added added.now) records.now }
    ensures { result ≡ count_of (other_of turn.now zones.now) name.now (records_before added.now records.now) }
{
    let count = count_over(zones, turn, records, zoned, name);
    if counts_added(zones, turn, added, name) {
        return count.saturating_sub(1);
    }
    count
}

/// Whether a record is not there, and counts for a name there.
fn counts_new(
    zones: &NamedList<Zone>,
    turn: &Turn<Zone>,
    records: &RecordList,
    new: &Record,
    name: &Name,
) -> bool
    requires fits { HasPlace (λ z. z.name) turn.now zones.now }
    requires sound { AreNamed (λ z. z.name) (other_of turn.now zones.now) }
    ensures { result ≡ (not (is_there records.now new.now) && counts_there (other_of turn.now zones.now) name.now new.now.owner) }
{
    !is_there(records, new) && counts_for(zones, turn, name, &new.owner)
}

/// The count with a record that is added.
pub(crate) fn count_with(
    zones: &NamedList<Zone>,
    turn: &Turn<Zone>,
    records: &RecordList,
    zoned: &CountsBelow,
    new: &Record,
    name: &Name,
) -> u64
    requires fits { HasPlace (λ z. z.name) turn.now zones.now }
    requires sound { AreNamed (λ z. z.name) (other_of turn.now zones.now) }
    requires zoned { AreZoned zones.now records.now zoned.now }
    requires few { length (records_with new.now records.now) ≤ MOST_RECORDS }
    ensures { result ≡ count_of (other_of turn.now zones.now) name.now (records_with new.now records.now) }
{
    let count = count_over(zones, turn, records, zoned, name);
    if counts_new(zones, turn, records, new, name) {
        return count.saturating_add(1);
    }
    count
}

/// How many of the records that come back count for a name. All lie in one zone.
pub(crate) fn count_back(
    zones: &NamedList<Zone>,
    turn: &Turn<Zone>,
    removed: &Removed,
    name: &Name,
) -> u64
    requires fits { HasPlace (λ z. z.name) turn.now zones.now }
    requires sound { AreNamed (λ z. z.name) (other_of turn.now zones.now) }
    ensures { CountsRemoved turn.now zones.now removed.now name.now result }
{
    let all = removed.as_slice();
    let _count = all.len();
    let Some(first) = all.first() else {
        return 0;
    };
    if share_zone(zones, turn, name, first.item.owner()) {
        let own = removed.count_of(name);
        return own.saturating_add(removed.count_below(name));
    }
    0
}

/// The count without the records of the zone that covers `first`, which goes.
fn count_dropped(
    zones: &NamedList<Zone>,
    records: &RecordList,
    zoned: &CountsBelow,
    first: &Name,
    name: &Name,
) -> u64
    ensures { AreZoned zones.now records.now zoned.now → CountsOutside zones.now first.now name.now records.now result }
{
    if lies_with(zones, first, name) {
        return 0;
    }
    count_of(records, zoned, name)
}

/// The count without so many records of one owner.
fn count_without(
    zones: &NamedList<Zone>,
    turn: &Turn<Zone>,
    records: &RecordList,
    zoned: &CountsBelow,
    owner: &Name,
    many: usize,
    name: &Name,
) -> u64
    requires fits { HasPlace (λ z. z.name) turn.now zones.now }
    requires sound { AreNamed (λ z. z.name) (other_of turn.now zones.now) }
    ensures { AreZoned zones.now records.now zoned.now →
        result ≡ count_without turn.now zones.now records.now owner.now many name.now }
{
    let count = count_of(records, zoned, name);
    if counts_for(zones, turn, name, owner) {
        return count.saturating_sub(many as u64);
    }
    count
}

/// The count without the records that a removal takes.
pub(crate) fn count_left(
    zones: &NamedList<Zone>,
    turn: &Turn<Zone>,
    records: &RecordList,
    zoned: &CountsBelow,
    gaps: &[usize],
    name: &Name,
) -> u64
    requires fits { HasPlace (λ z. z.name) turn.now zones.now }
    requires sound { AreNamed (λ z. z.name) (other_of turn.now zones.now) }
    requires zoned { AreZoned zones.now records.now zoned.now }
    requires within { AreWithin gaps.now records.now }
    requires apart { AreApart (at_gaps gaps.now records.now) (rest_of gaps.now records.now) }
    requires removal { RemovesAt turn.now zones.now gaps.now records.now }
    ensures { result ≡ count_of (other_of turn.now zones.now) name.now (rest_of gaps.now records.now) }
{
    let Some(first) = first_at(records.as_slice(), gaps) else {
        return count_over(zones, turn, records, zoned, name);
    };
    if takes_out(turn) {
        return count_dropped(zones, records, zoned, first, name);
    }
    count_without(zones, turn, records, zoned, first, gaps.len(), name)
}
