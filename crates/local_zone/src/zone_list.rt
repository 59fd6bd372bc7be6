//! The changes of the list of zones, and of the counts of the records that lie in them.

ghost use Rattle.std.specs.Prelude.{◌≡◌, ℕ, true, false, IfOk, OnErr, OnOk, slice_get};
ghost use Rattle.local_zone.specs.Change.{has_zone, zones_with};
ghost use Rattle.local_zone.specs.CountsBelow.{AreZoned};
ghost use Rattle.local_zone.specs.declared.zone.Zone.{Zone};
ghost use Rattle.named_list.specs.Named.{AreNamed};
ghost use Rattle.named_list.specs.Turn.{other_of, puts_in, takes_out, with_at, HasPlace, IsWayBack};
ghost use Rattle.named_list.specs.declared.turn.Turn.TheVariants as Turn;

use crate::counts_below::CountsBelow;
use crate::record_list::RecordList;
use crate::zone::Zone;
use crate::zoned::{count_in, count_out, count_step_in, count_step_out};
use dns_name::NoMemory;
use dns_text::Shared;
use named_list::{NamedList, Turn};
use std::alloc::Global;

/// Puts a zone of a new name last. If memory is refused, nothing has changed.
fn put_last(
    alloc: Global,
    zones: &mut NamedList<Zone>,
    records: &RecordList,
    zoned: &mut CountsBelow,
    new: Shared<Zone>,
) -> Result<Turn<Zone>, NoMemory>
    requires { has_zone zones.old new.name ≡ false }
    ensures ok { OnOk result (zones.new ≡ zones_with new zones.old) }
    ensures err { OnErr result (zones.new ≡ zones.old) }
    ensures saved { IfOk result (λ turn. IsWayBack (λ z. z.name) turn zones.new zones.old) }
    ensures zoned { AreZoned zones.old records.now zoned.old → AreZoned zones.new records.now zoned.new }
{
    let twin = new.share()?;
    count_in(alloc, zones, records, zoned, &twin.get().name)?;
    match zones.put(new) {
        Ok(turn) => Ok(turn),
        Err(e) => {
            count_out(zones, records, zoned, &twin.get().name);
            Err(e)
        }
    }
}

/// Puts a zone in the place of the zone of its name, or last. If memory is refused, nothing has changed.
pub(crate) fn put_zone(
    alloc: Global,
    zones: &mut NamedList<Zone>,
    records: &RecordList,
    zoned: &mut CountsBelow,
    new: Shared<Zone>,
) -> Result<Turn<Zone>, NoMemory>
    ensures ok { OnOk result (zones.new ≡ zones_with new zones.old) }
    ensures err { OnErr result (zones.new ≡ zones.old) }
    ensures saved { IfOk result (λ turn. IsWayBack (λ z. z.name) turn zones.new zones.old) }
    ensures zoned { AreZoned zones.old records.now zoned.old → AreZoned zones.new records.now zoned.new }
{
    if zones.has(&new.get().name) {
        return zones.put(new);
    }
    put_last(alloc, zones, records, zoned, new)
}

/// Goes to the other side of a change, which has one more zone. If memory is refused, nothing has changed.
pub(crate) fn put_zone_in(
    alloc: Global,
    zones: &mut NamedList<Zone>,
    records: &RecordList,
    zoned: &mut CountsBelow,
    turn: &mut Turn<Zone>,
) -> Result<(), NoMemory>
    requires fits { HasPlace (λ z. z.name) turn.old zones.old }
    requires sound { AreNamed (λ z. z.name) (other_of turn.old zones.old) }
    requires puts { puts_in turn.old ≡ true }
    ensures ok { OnOk result (zones.new ≡ other_of turn.old zones.old) }
    ensures again { OnOk result (IsWayBack (λ z. z.name) turn.new zones.new zones.old) }
    ensures err { OnErr result ((zones.new ≡ zones.old) × (turn.new ≡ turn.old)) }
    ensures without { OnOk result ((place : ℕ) × ((zone : Zone) ×
        ((turn.old ≡ Turn.With place zone) × (turn.new ≡ Turn.Without place)))) }
    ensures zoned { AreZoned zones.old records.now zoned.old → AreZoned zones.new records.now zoned.new }
{
    count_step_in(alloc, zones, records, zoned, turn)?;
    let put = zones.put_in(turn);
    if put.is_err() {
        count_step_out(zones, records, zoned, turn);
    }
    put
}

/// Whether the other side of a change lacks a zone.
pub(crate) fn takes_out(turn: &Turn<Zone>) -> bool
    ensures { result ≡ takes_out turn.now }
{
    matches!(turn, Turn::Without { .. })
}

/// Goes to the other side of a change, which has no more zones. It takes no memory.
pub(crate) fn turn_zone_out(
    zones: &mut NamedList<Zone>,
    records: &RecordList,
    zoned: &mut CountsBelow,
    turn: &mut Turn<Zone>,
)
    requires fits { HasPlace (λ z. z.name) turn.old zones.old }
    requires sound { AreNamed (λ z. z.name) (other_of turn.old zones.old) }
    requires puts { puts_in turn.old ≡ false }
    ensures list { zones.new ≡ other_of turn.old zones.old }
    ensures again { IsWayBack (λ z. z.name) turn.new zones.new zones.old }
    ensures taken { (place : ℕ) → turn.old ≡ Turn.Without place → turn.new ≡ with_at place (slice_get zones.old place) }
    ensures zoned { AreZoned zones.old records.now zoned.old → AreZoned zones.new records.now zoned.new }
{
    // For its law alone: no two zones have the same name.
    let _zones = zones.as_slice();
    let takes = takes_out(turn);
    zones.turn_out(turn);
    if takes {
        count_step_out(zones, records, zoned, turn);
    }
}
