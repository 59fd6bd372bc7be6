//! Counts of the records that lie in zones strictly below each name.

ghost use Rattle.std.specs.Option.{option_map};
ghost use Rattle.std.specs.Prelude.{◌≡◌, List, OnErr, OnOk, if◌then◌else◌};
ghost use Rattle.local_zone.specs.Closest.{closest};
ghost use Rattle.local_zone.specs.Count.{count_of};
ghost use Rattle.local_zone.specs.CountsBelow.{is_below_from, is_zoned, octets_over, AreZoned, CountLessBy, CountMoreBy, CountTheSame};
ghost use Rattle.local_zone.specs.Together.{CountsAboveZone, CountsTaken, LieTogether, UncountsTaken};
ghost use Rattle.local_zone.specs.Zoned.{zone_out, CountsIn, CountsMoved, CountsOut, CountsStepIn, CountsStepOut};
ghost use Rattle.local_zone.specs.declared.zone.Zone.{Zone};
ghost use Rattle.named_list.specs.Named.{AreNamed};
ghost use Rattle.named_list.specs.Turn.{other_of, HasPlace};

use crate::counts_below::CountsBelow;
use crate::record_list::RecordList;
use crate::taken::Taken;
use crate::zone::Zone;
use crate::zones::{closest, closest_over};
use dns_name::{Name, NoMemory};
use named_list::{NamedList, Turn};
use std::alloc::Global;

/// Counts a record of this owner, if it lies in a zone, below each name above that zone. If memory is refused, no count has changed.
pub(crate) fn count_zone(
    alloc: Global,
    zones: &NamedList<Zone>,
    zoned: &mut CountsBelow,
    owner: &Name,
) -> Result<(), NoMemory>
    ensures ok { OnOk result (CountMoreBy (λ name. if is_zoned zones.now name owner.now then 1 else 0) zoned.old zoned.new) }
    ensures err { OnErr result (CountTheSame zoned.old zoned.new) }
{
    match closest(zones, owner) {
        Some(zone) => zoned.add(alloc, &zone.name),
        None => Ok(()),
    }
}

/// Counts a record of this owner no more. It takes no memory.
pub(crate) fn uncount_zone(zones: &NamedList<Zone>, zoned: &mut CountsBelow, owner: &Name)
    ensures { CountLessBy (λ name. if is_zoned zones.now name owner.now then 1 else 0) zoned.old zoned.new }
{
    if let Some(zone) = closest(zones, owner) {
        zoned.remove(&zone.name);
    }
}

/// The zone of the first record that was taken, if there is one and a zone covers it.
fn zone_of_first<'a>(zones: &'a NamedList<Zone>, taken: &[Taken]) -> Option<&'a Zone>
    ensures { LieTogether zones.now taken.now → CountsAboveZone zones.now taken.now (option_map (λ z. z.now) result) }
{
    match taken.first() {
        Some(first) => closest(zones, first.item.owner()),
        None => None,
    }
}

/// Counts records that come back, all of one zone. If memory is refused, no count has changed.
pub(crate) fn count_zones(
    alloc: Global,
    zones: &NamedList<Zone>,
    zoned: &mut CountsBelow,
    taken: &[Taken],
) -> Result<(), NoMemory>
    ensures ok { OnOk result (LieTogether zones.now taken.now → CountsTaken zones.now taken.now zoned.old zoned.new) }
    ensures err { OnErr result (CountTheSame zoned.old zoned.new) }
{
    match zone_of_first(zones, taken) {
        Some(zone) => zoned.add_from(alloc, &zone.name, 0, taken.len() as u64),
        None => Ok(()),
    }
}

/// Counts records that were taken, all of one zone, no more. It takes no memory.
pub(crate) fn uncount_zones(zones: &NamedList<Zone>, zoned: &mut CountsBelow, taken: &[Taken])
    ensures { LieTogether zones.now taken.now → UncountsTaken zones.now taken.now zoned.old zoned.new }
{
    if let Some(zone) = zone_of_first(zones, taken) {
        zoned.remove_from(&zone.name, 0, taken.len() as u64);
    }
}

/// How many octets the name of the zone has that was found, or 0 if none was.
fn octets_in(found: Option<&Zone>) -> usize
    ensures { result ≡ octets_over (option_map (λ z. z.now) found.entry) }
{
    match found {
        Some(zone) => zone.name.octets().len(),
        None => 0,
    }
}

/// How many octets the name of the zone has that covers a name, or 0 if none does.
fn octets_over(zones: &NamedList<Zone>, name: &Name) -> usize
    ensures { result ≡ octets_over (closest zones.now name.now) }
{
    octets_in(closest(zones, name))
}

/// How many records lie at or below a name, in the zone in which the name lies.
pub(crate) fn count_of(records: &RecordList, zoned: &CountsBelow, name: &Name) -> u64
    ensures { (zones : List Zone) → AreZoned zones records.now zoned.now → result ≡ count_of zones name.now records.now }
{
    // For its bound alone: the count is no greater than the number of records.
    let _all = records.as_slice().len();
    let own = records.count_of(name);
    let others = records.count_below(name).saturating_sub(zoned.of(name));
    own.saturating_add(others)
}

/// Counts the records that are to lie in a zone of a new name. If memory is refused, no count has changed.
pub(crate) fn count_in(
    alloc: Global,
    zones: &NamedList<Zone>,
    records: &RecordList,
    zoned: &mut CountsBelow,
    name: &Name,
) -> Result<(), NoMemory>
    ensures ok { OnOk result (CountsIn zones.now name.now records.now zoned.old zoned.new) }
    ensures err { OnErr result (CountTheSame zoned.old zoned.new) }
{
    let least = octets_over(zones, name);
    let count = count_of(records, zoned, name);
    zoned.add_from(alloc, name, least, count)
}

/// Counts the records no more that lay in a zone of this name, which is no more there. It takes no memory.
pub(crate) fn count_out(
    zones: &NamedList<Zone>,
    records: &RecordList,
    zoned: &mut CountsBelow,
    name: &Name,
)
    ensures { CountsOut zones.now name.now records.now zoned.old zoned.new }
{
    let least = octets_over(zones, name);
    let count = count_of(records, zoned, name);
    zoned.remove_from(name, least, count);
}

/// Counts the records that are to lie in the zone that a step puts in. If memory is refused, no count has changed.
pub(crate) fn count_step_in(
    alloc: Global,
    zones: &NamedList<Zone>,
    records: &RecordList,
    zoned: &mut CountsBelow,
    turn: &Turn<Zone>,
) -> Result<(), NoMemory>
    ensures ok { OnOk result (CountsStepIn turn.now zones.now records.now zoned.old zoned.new) }
    ensures err { OnErr result (CountTheSame zoned.old zoned.new) }
{
    match turn.name_in() {
        Some(name) => count_in(alloc, zones, records, zoned, name),
        None => Ok(()),
    }
}

/// Counts the records no more that lay in the zone that a step would put in again. It takes no memory.
pub(crate) fn count_step_out(
    zones: &NamedList<Zone>,
    records: &RecordList,
    zoned: &mut CountsBelow,
    turn: &Turn<Zone>,
)
    ensures { CountsStepOut turn.now zones.now records.now zoned.old zoned.new }
{
    if let Some(name) = turn.name_in() {
        count_out(zones, records, zoned, name);
    }
}

/// Whether a name lies strictly below another, which has so many octets at least.
fn is_below_from(least: usize, name: &Name, other: &Name) -> bool
    ensures { result ≡ is_below_from least name.now other.now }
{
    name.at_or_below(other) && *name != *other && least <= other.octets().len()
}

/// How many records of a zone count for a name on one side of a change alone, if the zone is on one side alone. On the other, `above`
/// covers its name, if a zone does: if that too lies strictly below the name, they count on neither.
fn count_moved(
    records: &RecordList,
    zoned: &CountsBelow,
    zone: &Name,
    above: Option<&Zone>,
    name: &Name,
) -> u64
    ensures { CountsMoved zone.now (option_map (λ z. z.now) above.entry) name.now records.now zoned.now result }
{
    if is_below_from(octets_in(above), zone, name) {
        count_of(records, zoned, zone)
    } else {
        0
    }
}

/// The zone that a step takes out, if it takes one out.
fn zone_out<'a>(zones: &'a NamedList<Zone>, turn: &Turn<Zone>) -> Option<&'a Zone>
    requires { HasPlace (λ z. z.name) turn.now zones.now }
    ensures { option_map (λ z. z.now) result ≡ zone_out turn.now zones.now }
{
    match turn {
        Turn::Without { place } => {
            let zone = &zones.as_slice()[*place];
            Some(zone.get())
        }
        _ => None,
    }
}

/// How many records lie at or below a name, in the zone in which the name lies on the other side of a change of the zones.
pub(crate) fn count_over(
    zones: &NamedList<Zone>,
    turn: &Turn<Zone>,
    records: &RecordList,
    zoned: &CountsBelow,
    name: &Name,
) -> u64
    requires fits { HasPlace (λ z. z.name) turn.now zones.now }
    requires sound { AreNamed (λ z. z.name) (other_of turn.now zones.now) }
    requires zoned { AreZoned zones.now records.now zoned.now }
    ensures { result ≡ count_of (other_of turn.now zones.now) name.now records.now }
{
    // For its law alone: no two zones have the same name.
    let _zones = zones.as_slice();
    let _all = records.as_slice().len();
    let count = count_of(records, zoned, name);
    if let Some(new) = turn.name_in() {
        return count.saturating_sub(count_moved(records, zoned, new, closest(zones, new), name));
    }
    match zone_out(zones, turn) {
        Some(gone) => {
            let above = closest_over(zones, turn, &gone.name);
            count.saturating_add(count_moved(records, zoned, &gone.name, above, name))
        }
        None => count,
    }
}
