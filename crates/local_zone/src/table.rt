//! Local zones and local data.

ghost use Rattle.std.specs.Prelude.{◌≡◌, [], true, false, IfErr, IfOk, IsOk, OnErr, OnOk, None};

use crate::added::RecordTurn;
use crate::answer::answer;
use crate::answer_over::answer_over;
use crate::counts_below::CountsBelow;
use crate::fault::TableFault;
use crate::local_answer::{Local, LocalSet};
use crate::other_side::OtherSide;
use crate::reason::{reason_of_add, reason_of_set};
use crate::record::LocalRecord;
use crate::record_list::RecordList;
use crate::records::{put_record, take_back, take_in, take_of, turn_over};
use crate::saved::SavedTables;
use crate::shared_answer::SeenRecord;
use crate::zone::Zone;
use crate::zone_list::{put_zone, put_zone_in, turn_zone_out};
use crate::zone_type::ZoneType;
use crate::zones::put_implied;
use dns_name::{Name, NoMemory};
use dns_text::{Items, Question, Record, Shared};
use named_list::{NamedList, Turn};
use std::alloc::Global;
use std::marker::Model;

/// The greatest number of local zones.
pub const MOST_ZONES: usize = 4096;

/// The greatest number of local records.
pub const MOST_RECORDS: usize = 65536;

/// Local zones and local data, each a list in the order of arrival.
#[derive(Drop)]
pub struct ZoneTable {
    zones: NamedList<Zone>,
    records: RecordList,
    // For each name the number of records in zones strictly below it, so that no answer passes over records.
    zoned: CountsBelow,
    alloc: Global,
}

impl Model for ZoneTable {
    ghost use Rattle.local_zone.specs.CountsBelow.{AreZoned};
    ghost use Rattle.local_zone.specs.Tables.{Tables, AreTables};

    ghost Value = { Tables };

    ghost view = { λ t. record { zones = t.zones; records = t.records } };

    ghost invariant = { λ t. AreTables (record { zones = t.zones; records = t.records }) × AreZoned t.zones t.records t.zoned };
}

impl ZoneTable {
    ghost use Rattle.local_zone.specs.Tables.{Tables};
    ghost use Rattle.local_zone.specs.Answer.{carries_record, has_record, has_record_in, local_now, local_of};
    ghost use Rattle.local_zone.specs.Change.{after_drop, after_add, after_drop_name, has_zone};
    ghost use Rattle.local_zone.specs.Reason.{reason_of_add, IsFaultFor, RefusesZone, SetsZone};
    ghost use Rattle.local_zone.specs.Saved.{before_of, needs_memory, TakesBack, TurnsOver};
    ghost use Rattle.named_list.specs.Turn.{puts_in};

    /// A table of no zones and no records. It takes no memory.
    pub fn new(alloc: Global) -> ZoneTable
        ensures { result ≡ record { zones = []; records = [] } }
    {
        ZoneTable {
            zones: NamedList::new(alloc),
            records: RecordList::new(alloc),
            zoned: CountsBelow::new(alloc),
            alloc,
        }
    }

    /// The zones in order.
    pub fn zones(&self) -> &[Shared<Zone>]
        ensures { result.now ≡ self.now.zones }
    {
        self.zones.as_slice()
    }

    /// The records in order.
    pub fn records(&self) -> &[LocalRecord]
        ensures { result.now ≡ self.now.records }
    {
        self.records.as_slice()
    }

    /// The answer to a question. It takes no memory.
    pub fn answer<'a>(&'a self, question: &'a Question) -> Local<LocalSet<'a>, &'a LocalRecord>
        ensures { local_now result ≡ local_of self.now question.now }
    {
        answer(&self.zones, &self.records, &self.zoned, question)
    }

    /// Adds a zone, or gives the zone of this name another type. The only faults are `DataBelow`, `TooMany` and `NoMemory`.
    pub fn set(&mut self, name: Name, kind: ZoneType) -> Result<SavedTables, TableFault>
        ensures ok { OnOk result (SetsZone (record { name = name; kind = kind }) self.old self.new) }
        ensures err { IfErr result (RefusesZone (record { name = name; kind = kind }) self.old self.new) }
        ensures saved { IfOk result (λ saved. TakesBack saved self.new self.old) }
        ensures frees { IfOk result (λ saved. needs_memory saved ≡ false) }
    {
        let new = Zone { name, kind };
        if let Some(reason) = reason_of_set(&self.zones, &self.records, &self.zoned, &new) {
            return Err(reason);
        }
        let new = Shared::new(self.alloc, new)?;
        let zones = put_zone(
            self.alloc,
            &mut self.zones,
            &self.records,
            &mut self.zoned,
            new,
        )?;
        Ok(SavedTables {
            zones,
            records: RecordTurn::Nothing,
        })
    }

    /// Adds a record, and a transparent zone of its owner if no zone covers it. All records of its set take its TTL. The only
    /// faults are `BelowRedirect`, `CnameClash`, `TooMany` and `NoMemory`.
    pub fn add_record(&mut self, new: Shared<Record>) -> Result<SavedTables, TableFault>
        ensures ok { OnOk result ((reason_of_add new self.old ≡ None) × (self.new ≡ after_add new self.old)) }
        ensures err { IfErr result (λ fault. IsFaultFor (reason_of_add new self.old) fault × (self.new ≡ self.old)) }
        ensures saved { IfOk result (λ saved. TakesBack saved self.new self.old) }
        ensures frees { IfOk result (λ saved. needs_memory saved ≡ false) }
    {
        if let Some(reason) = reason_of_add(&self.zones, &self.records, new.get()) {
            return Err(reason);
        }
        let added = put_record(
            self.alloc,
            &self.zones,
            &mut self.records,
            &mut self.zoned,
            &new,
        )?;
        match put_implied(
            self.alloc,
            &mut self.zones,
            &self.records,
            &mut self.zoned,
            &new.get().owner,
        ) {
            Ok(zones) => Ok(SavedTables {
                zones,
                records: RecordTurn::Added(added),
            }),
            Err(_) => {
                take_back(&self.zones, &mut self.records, &mut self.zoned, &added);
                Err(TableFault::NoMemory)
            }
        }
    }

    /// Removes a zone and the records that lie in it, if there is one. The only fault is `NoMemory`, and only if there are records.
    pub fn drop_zone(&mut self, name: &Name) -> Result<SavedTables, TableFault>
        ensures ok { OnOk result (self.new ≡ after_drop name.now self.old) }
        ensures err { IfErr result (λ fault. (fault ≡ TableFault.NoMemory) × (self.new ≡ self.old)) }
        ensures saved { IfOk result (λ saved. TakesBack saved self.new self.old) }
        ensures free { has_record_in self.old.zones name.now self.old.records ≡ false → IsOk result }
        ensures frees { IfOk result (λ saved. has_zone self.old.zones name.now ≡ false → needs_memory saved ≡ false) }
    {
        let records = take_in(
            self.alloc,
            &self.zones,
            &mut self.records,
            &mut self.zoned,
            name,
        )?;
        let zones = self.zones.take(name);
        Ok(SavedTables { zones, records })
    }

    /// Removes all records of an owner, if there are any. The only fault is `NoMemory`, and only if there are records.
    pub fn drop_name(&mut self, name: &Name) -> Result<SavedTables, TableFault>
        ensures ok { OnOk result (self.new ≡ after_drop_name name.now self.old) }
        ensures err { IfErr result (λ fault. (fault ≡ TableFault.NoMemory) × (self.new ≡ self.old)) }
        ensures saved { IfOk result (λ saved. TakesBack saved self.new self.old) }
        ensures free { has_record name.now self.old.records ≡ false → IsOk result }
        ensures frees { IfOk result (λ saved. has_record name.now self.old.records ≡ false → needs_memory saved ≡ false) }
    {
        let records = take_of(
            self.alloc,
            &self.zones,
            &mut self.records,
            &mut self.zoned,
            name,
        )?;
        Ok(SavedTables {
            zones: Turn::Nothing,
            records,
        })
    }

    // Goes to the other side of a change that puts a zone in, and leaves the way back. The zone may need memory, and so may the records.
    // If the records get none, the zone is taken out again, which needs none.
    fn turn_in(&mut self, saved: &mut SavedTables) -> Result<(), NoMemory>
        requires takes { (other : Tables) × TakesBack saved.old self.old other }
        requires puts { puts_in saved.old.zones ≡ true }
        ensures turns { OnOk result (TurnsOver saved.old self.old saved.new self.new) }
        ensures err { OnErr result ((self.new ≡ self.old) × (saved.new ≡ saved.old)) }
    {
        put_zone_in(
            self.alloc,
            &mut self.zones,
            &self.records,
            &mut self.zoned,
            &mut saved.zones,
        )?;
        match turn_over(
            self.alloc,
            &self.zones,
            &mut self.records,
            &mut self.zoned,
            &mut saved.records,
        ) {
            Ok(()) => Ok(()),
            Err(e) => {
                turn_zone_out(
                    &mut self.zones,
                    &self.records,
                    &mut self.zoned,
                    &mut saved.zones,
                );
                Err(e)
            }
        }
    }

    // Goes to the other side of any other change, and leaves the way back. Only the records may need memory.
    fn turn_out(&mut self, saved: &mut SavedTables) -> Result<(), NoMemory>
        requires takes { (other : Tables) × TakesBack saved.old self.old other }
        requires puts { puts_in saved.old.zones ≡ false }
        ensures turns { OnOk result (TurnsOver saved.old self.old saved.new self.new) }
        ensures err { OnErr result ((self.new ≡ self.old) × (saved.new ≡ saved.old)) }
        ensures free { needs_memory saved.old ≡ false → IsOk result }
    {
        turn_over(
            self.alloc,
            &self.zones,
            &mut self.records,
            &mut self.zoned,
            &mut saved.records,
        )?;
        turn_zone_out(
            &mut self.zones,
            &self.records,
            &mut self.zoned,
            &mut saved.zones,
        );
        Ok(())
    }

    // Goes to the other side of a change, and leaves the way back.
    fn turn_over(&mut self, saved: &mut SavedTables) -> Result<(), NoMemory>
        requires { (other : Tables) × TakesBack saved.old self.old other }
        ensures turns { OnOk result (TurnsOver saved.old self.old saved.new self.new) }
        ensures err { OnErr result ((self.new ≡ self.old) × (saved.new ≡ saved.old)) }
        ensures free { needs_memory saved.old ≡ false → IsOk result }
    {
        if saved.zones.puts_in() {
            self.turn_in(saved)
        } else {
            self.turn_out(saved)
        }
    }

    /// Takes back the change that left these lists. The saved value then serves `again`. If memory is refused, nothing has changed. If
    /// the change removed nothing, no memory is needed.
    pub fn back(&mut self, saved: &mut SavedTables) -> Result<(), NoMemory>
        requires { (before : Tables) × TakesBack saved.old self.old before }
        ensures turns { OnOk result (TurnsOver saved.old self.old saved.new self.new) }
        ensures err { OnErr result ((self.new ≡ self.old) × (saved.new ≡ saved.old)) }
        ensures free { needs_memory saved.old ≡ false → IsOk result }
    {
        self.turn_over(saved)
    }

    /// Makes a change again that `back` took back. The saved value then serves `back`. If memory is refused, nothing has changed.
    pub fn again(&mut self, saved: &mut SavedTables) -> Result<(), NoMemory>
        requires { (left : Tables) × TakesBack saved.old self.old left }
        ensures turns { OnOk result (TurnsOver saved.old self.old saved.new self.new) }
        ensures err { OnErr result ((self.new ≡ self.old) × (saved.new ≡ saved.old)) }
        ensures free { needs_memory saved.old ≡ false → IsOk result }
    {
        self.turn_over(saved)
    }

    /// The answer to a question as `answer` would give it after `back`, or `again`, with this saved value. Nothing changes. It takes memory
    /// only for the records that it shares, so an answer without records needs none.
    pub fn answer_over(
        &self,
        saved: &SavedTables,
        question: &Question,
    ) -> Result<Local<Items<SeenRecord>, LocalRecord>, NoMemory>
        requires { (other : Tables) × TakesBack saved.now self.now other }
        ensures ok { IfOk result (λ answer. answer ≡ local_of (before_of saved.now self.now) question.now) }
        ensures free { carries_record (local_of (before_of saved.now self.now) question.now) ≡ false → IsOk result }
    {
        let side = OtherSide {
            zones: &self.zones,
            records: &self.records,
            zoned: &self.zoned,
            saved,
        };
        answer_over(self.alloc, &side, question)
    }

    /// Drops the way back of a change, which can then no longer be taken back or made again.
    pub fn settle(&mut self, saved: SavedTables)
        ensures { self.new ≡ self.old }
    {
        drop(saved);
    }
}

/// A table holds at most 4,096 zones and 65,536 records.
pub fn limits_law()
    ensures zones { MOST_ZONES ≡ 4096 }
    ensures records { MOST_RECORDS ≡ 65536 }
{}
