//! The changes of local zones and records.

ghost use Rattle.std.specs.Prelude.{◌≡◌, false, IfErr, IfOk, IsOk, OnErr, OnOk};
ghost use Rattle.change_law.specs.Effect.{IsFaultFor};
ghost use Rattle.local_zone.specs.Saved.{needs_memory, TakesBack, TurnsOver};
ghost use Rattle.local_zone.specs.Tables.{Tables};
ghost use Rattle.table_changes.specs.Zones.{zone_code, zones_after, zones_removed, FailsZoneChange, MakesZoneChange};

use change_law::{ChangeFault, Standing};
use dns_name::{Name, NoMemory};
use dns_text::{Record, Shared};
use local_zone::{SavedTables, TableFault, ZoneTable, ZoneType};

/// A change of the local zones and records.
#[derive(Drop)]
pub enum ZoneChange {
    /// Adds a zone, or gives the zone of this name another type.
    SetZone { name: Name, kind: ZoneType },
    /// Removes a zone and the records that lie in it, if there is one.
    DropZone(Name),
    /// Adds a record, with a zone for it if none covers its owner.
    AddRecord(Shared<Record>),
    /// Removes all records of an owner.
    DropName(Name),
}

// The fault of a change, from that of the table.
pub(crate) fn zone_fault(fault: TableFault) -> ChangeFault
    ensures { IsFaultFor (zone_code fault) result }
{
    match fault {
        TableFault::BelowRedirect => ChangeFault::Refused(1),
        TableFault::DataBelow => ChangeFault::Refused(2),
        TableFault::CnameClash => ChangeFault::Refused(3),
        TableFault::TooMany => ChangeFault::Refused(4),
        TableFault::NoMemory => ChangeFault::NoMemory,
    }
}

// Sets a zone.
pub(crate) fn set_zone(
    table: &mut ZoneTable,
    name: Name,
    kind: ZoneType,
) -> Result<SavedTables, ChangeFault>
    ensures ok { OnOk result (MakesZoneChange (ZoneChange.SetZone name kind) table.old table.new) }
    ensures saved { IfOk result (λ saved. TakesBack saved table.new table.old) }
    ensures frees { IfOk result (λ saved. zones_removed (ZoneChange.SetZone name kind) table.old ≡ false → needs_memory saved ≡ false) }
    ensures err { IfErr result (FailsZoneChange (ZoneChange.SetZone name kind) table.old table.new) }
{
    match table.set(name, kind) {
        Ok(saved) => Ok(saved),
        Err(fault) => Err(zone_fault(fault)),
    }
}

// Adds a record.
pub(crate) fn add_record(
    table: &mut ZoneTable,
    new: Shared<Record>,
) -> Result<SavedTables, ChangeFault>
    ensures ok { OnOk result (MakesZoneChange (ZoneChange.AddRecord new) table.old table.new) }
    ensures saved { IfOk result (λ saved. TakesBack saved table.new table.old) }
    ensures frees { IfOk result (λ saved. zones_removed (ZoneChange.AddRecord new) table.old ≡ false → needs_memory saved ≡ false) }
    ensures err { IfErr result (FailsZoneChange (ZoneChange.AddRecord new) table.old table.new) }
{
    match table.add_record(new) {
        Ok(saved) => Ok(saved),
        Err(fault) => Err(zone_fault(fault)),
    }
}

// Removes a zone and the records that lie in it.
pub(crate) fn drop_zone(table: &mut ZoneTable, name: Name) -> Result<SavedTables, ChangeFault>
    ensures ok { OnOk result (table.new ≡ zones_after (ZoneChange.DropZone name) table.old) }
    ensures saved { IfOk result (λ saved. TakesBack saved table.new table.old) }
    ensures frees { IfOk result (λ saved. zones_removed (ZoneChange.DropZone name) table.old ≡ false → needs_memory saved ≡ false) }
    ensures err { IfErr result (λ fault. (fault ≡ ChangeFault.NoMemory) × (table.new ≡ table.old)) }
{
    match table.drop_zone(&name) {
        Ok(saved) => Ok(saved),
        Err(_) => Err(ChangeFault::NoMemory),
    }
}

// Removes all records of an owner.
pub(crate) fn drop_name(table: &mut ZoneTable, name: Name) -> Result<SavedTables, ChangeFault>
    ensures ok { OnOk result (table.new ≡ zones_after (ZoneChange.DropName name) table.old) }
    ensures saved { IfOk result (λ saved. TakesBack saved table.new table.old) }
    ensures frees { IfOk result (λ saved. zones_removed (ZoneChange.DropName name) table.old ≡ false → needs_memory saved ≡ false) }
    ensures err { IfErr result (λ fault. (fault ≡ ChangeFault.NoMemory) × (table.new ≡ table.old)) }
{
    match table.drop_name(&name) {
        Ok(saved) => Ok(saved),
        Err(_) => Err(ChangeFault::NoMemory),
    }
}

// Makes a change of the zones and records.
pub(crate) fn make_zone_change(
    table: &mut ZoneTable,
    change: ZoneChange,
) -> Result<SavedTables, ChangeFault>
    ensures ok { OnOk result (MakesZoneChange change table.old table.new) }
    ensures saved { IfOk result (λ saved. TakesBack saved table.new table.old) }
    ensures frees { IfOk result (λ saved. zones_removed change table.old ≡ false → needs_memory saved ≡ false) }
    ensures err { IfErr result (FailsZoneChange change table.old table.new) }
{
    match change {
        ZoneChange::SetZone { name, kind } => set_zone(table, name, kind),
        ZoneChange::DropZone(name) => drop_zone(table, name),
        ZoneChange::AddRecord(new) => add_record(table, new),
        ZoneChange::DropName(name) => drop_name(table, name),
    }
}

// Takes a change back, or makes it again.
pub(crate) fn turn_zones(
    table: &mut ZoneTable,
    from: Standing,
    saved: &mut SavedTables,
) -> Result<(), NoMemory>
    requires { (other : Tables) × TakesBack saved.old table.old other }
    ensures turns { OnOk result (TurnsOver saved.old table.old saved.new table.new) }
    ensures err { OnErr result ((table.new ≡ table.old) × (saved.new ≡ saved.old)) }
    ensures free { needs_memory saved.old ≡ false → IsOk result }
{
    match from {
        Standing::Done => table.back(saved),
        _ => table.again(saved),
    }
}
