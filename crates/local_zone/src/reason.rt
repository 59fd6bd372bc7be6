//! Reasons to refuse a change. Finding one takes no memory.

ghost use Rattle.std.specs.Prelude.{◌≡◌, ◌≤◌, length};
ghost use Rattle.local_zone.specs.Answer.{HoldsByCounts};
ghost use Rattle.local_zone.specs.Reason.{clashes, has_data_below, reason_of_add, reason_of_set, redirects_below};
ghost use Rattle.local_zone.specs.ZoneType.{is_redirect};
ghost use Rattle.local_zone.specs.Closest.{closest};
ghost use Rattle.local_zone.specs.CountsBelow.{AreZoned};
ghost use Rattle.local_zone.specs.Tables.{is_cname};
ghost use Rattle.local_zone.specs.declared.table.TheConstants.{MOST_ZONES, MOST_RECORDS};

use crate::counts_below::CountsBelow;
use crate::fault::TableFault;
use crate::record_list::RecordList;
use crate::zone::Zone;
use crate::zone_type::ZoneType;
use crate::zones::{closest, has_no_room_for};
use crate::{records, zones};
use dns_name::Name;
use dns_text::Record;
use dns_text::types::CNAME;
use named_list::NamedList;

fn is_cname(kind: u16) -> bool
    ensures { result ≡ is_cname kind }
{
    kind == CNAME
}

fn is_redirect(kind: ZoneType) -> bool
    ensures { result ≡ is_redirect kind }
{
    matches!(kind, ZoneType::Redirect)
}

/// Whether a record would lie strictly below the name of the redirect zone. A lookup tells how many records are below the name, and
/// another how many of these lie in other zones.
fn has_data_below(records: &RecordList, zoned: &CountsBelow, new: &Zone) -> bool
    ensures { HoldsByCounts records.now zoned.now (λ t. result ≡ has_data_below new.now t) }
{
    is_redirect(new.kind) && zoned.of(&new.name) < records.count_below(&new.name)
}

/// Whether the owner lies strictly below the name of the redirect zone that it lies in.
fn is_below_redirect(zones: &NamedList<Zone>, owner: &Name) -> bool
    ensures { result ≡ redirects_below owner.now (closest zones.now owner.now) }
{
    match closest(zones, owner) {
        Some(zone) => is_redirect(zone.kind) && *owner != zone.name,
        None => false,
    }
}

/// Whether a CNAME would not be alone at the owner. Two numbers tell.
fn clashes(zones: &NamedList<Zone>, records: &RecordList, new: &Record) -> bool
    ensures { result ≡ clashes new.now (record { zones = zones.now; records = records.now }) }
{
    let aliases = records.set_of(&new.owner, CNAME).len() as u64;
    if is_cname(new.kind) {
        aliases < records.count_of(&new.owner)
    } else {
        aliases > 0
    }
}

/// The reason to refuse a zone, if there is one.
pub(crate) fn reason_of_set(
    zones: &NamedList<Zone>,
    records: &RecordList,
    zoned: &CountsBelow,
    new: &Zone,
) -> Option<TableFault>
    requires zoned { AreZoned zones.now records.now zoned.now }
    requires few_zones { length zones.now ≤ MOST_ZONES }
    requires few_records { length records.now ≤ MOST_RECORDS }
    ensures { result ≡ reason_of_set new.now (record { zones = zones.now; records = records.now }) }
{
    if has_data_below(records, zoned, new) {
        return Some(TableFault::DataBelow);
    }
    if zones::has_no_room(zones, new) {
        return Some(TableFault::TooMany);
    }
    None
}

/// The reason to refuse a record, if there is one.
pub(crate) fn reason_of_add(
    zones: &NamedList<Zone>,
    records: &RecordList,
    new: &Record,
) -> Option<TableFault>
    requires few_zones { length zones.now ≤ MOST_ZONES }
    requires few_records { length records.now ≤ MOST_RECORDS }
    ensures { result ≡ reason_of_add new.now (record { zones = zones.now; records = records.now }) }
{
    if is_below_redirect(zones, &new.owner) {
        return Some(TableFault::BelowRedirect);
    }
    if clashes(zones, records, new) {
        return Some(TableFault::CnameClash);
    }
    if has_no_room_for(zones, &new.owner) || records::has_no_room(records, new) {
        return Some(TableFault::TooMany);
    }
    None
}
