//! The zone that covers a name, and the room for more zones.

ghost use Rattle.std.specs.Prelude.{◌≡◌, ◌≤◌, length, nat_lt, IfOk, OnErr, OnOk};
ghost use Rattle.std.specs.Option.{option_map};
ghost use Rattle.local_zone.specs.Change.{zones_for, zones_with};
ghost use Rattle.local_zone.specs.Closest.{closest, lies_in};
ghost use Rattle.local_zone.specs.CountsBelow.{AreZoned};
ghost use Rattle.named_list.specs.Named.{AreNamed};
ghost use Rattle.named_list.specs.Turn.{other_of, HasPlace, IsWayBack};
ghost use Rattle.local_zone.specs.declared.table.TheConstants.{MOST_ZONES};

use crate::counts_below::CountsBelow;
use crate::record::LocalRecord;
use crate::record_list::RecordList;
use crate::sought::Sought;
use crate::table::MOST_ZONES;
use crate::zone::Zone;
use crate::zone_list::put_zone;
use crate::zone_type::ZoneType;
use dns_name::{Name, NoMemory};
use dns_text::Shared;
use named_list::{NamedList, Turn};
use std::alloc::Global;

/// The longest zone at or above a name.
pub(crate) fn closest<'a>(zones: &'a NamedList<Zone>, name: &Name) -> Option<&'a Zone>
    ensures { option_map (λ z. z.now) result ≡ closest zones.now name.now }
{
    match zones.closest(name) {
        Some(zone) => Some(zone.get()),
        None => None,
    }
}

/// The longest zone at or above a name on the other side of a change of the zones.
pub(crate) fn closest_over<'a>(
    zones: &'a NamedList<Zone>,
    turn: &'a Turn<Zone>,
    name: &Name,
) -> Option<&'a Zone>
    requires fits { HasPlace (λ z. z.name) turn.now zones.now }
    requires sound { AreNamed (λ z. z.name) (other_of turn.now zones.now) }
    ensures { option_map (λ z. z.now) result ≡ closest (other_of turn.now zones.now) name.now }
{
    match zones.closest_over(turn, name) {
        Some(zone) => Some(zone.get()),
        None => None,
    }
}

/// If no zone covers the owner, puts a transparent one of its name last.
pub(crate) fn put_implied(
    alloc: Global,
    zones: &mut NamedList<Zone>,
    records: &RecordList,
    zoned: &mut CountsBelow,
    owner: &Name,
) -> Result<Turn<Zone>, NoMemory>
    ensures ok { OnOk result (zones.new ≡ zones_for owner.now zones.old) }
    ensures err { OnErr result (zones.new ≡ zones.old) }
    ensures saved { IfOk result (λ turn. IsWayBack (λ z. z.name) turn zones.new zones.old) }
    ensures zoned { AreZoned zones.old records.now zoned.old → AreZoned zones.new records.now zoned.new }
{
    if closest(zones, owner).is_some() {
        return Ok(Turn::Nothing);
    }
    let implied = Zone {
        name: owner.clone()?,
        kind: ZoneType::Transparent,
    };
    let implied = Shared::new(alloc, implied)?;
    put_zone(alloc, zones, records, zoned, implied)
}

/// Whether a record lies in the zone of that name.
pub(crate) fn lies_in(zones: &NamedList<Zone>, name: &Sought, r: &LocalRecord) -> bool
    ensures { result ≡ lies_in zones.now name.now r.now.owner }
{
    if r.is_at_or_below(name) {
        match closest(zones, r.owner()) {
            Some(zone) => zone.name == *name.name(),
            None => false,
        }
    } else {
        false
    }
}

/// Whether there would be too many zones with the new one.
pub(crate) fn has_no_room(zones: &NamedList<Zone>, new: &Zone) -> bool
    requires { length zones.now ≤ MOST_ZONES }
    ensures { result ≡ nat_lt MOST_ZONES (length (zones_with new.now zones.now)) }
{
    zones.as_slice().len() == MOST_ZONES && !zones.has(&new.name)
}

/// Whether there would be too many zones with one for the owner.
pub(crate) fn has_no_room_for(zones: &NamedList<Zone>, owner: &Name) -> bool
    requires { length zones.now ≤ MOST_ZONES }
    ensures { result ≡ nat_lt MOST_ZONES (length (zones_for owner.now zones.now)) }
{
    zones.as_slice().len() == MOST_ZONES && closest(zones, owner).is_none()
}
