//! The changes of the list of records, each with its way back.

ghost use Rattle.std.specs.Prelude.{◌≡◌, ◌≤◌, ◌-◌, ◌++◌, ◌∷◌, [], false, filter, length, nat_lt, not, take, true, IfOk, IsOk, OnOk, OnErr};
ghost use Rattle.dns_name.specs.Order.{name_eq};
ghost use Rattle.local_zone.specs.Closest.{lies_in};
ghost use Rattle.local_zone.specs.Gaps.{at_gaps, gaps_of, gaps_where, put_back, rest_of, AreApart, AreWithin};
ghost use Rattle.std.specs.List.{Contains, list_any};
ghost use Rattle.dns_text.specs.declared.record.Record.{Record};
ghost use Rattle.local_zone.specs.Added.{ttl_of, records_before, records_need, GoesBack, PutsBack, TurnsRecords};
ghost use Rattle.local_zone.specs.Answer.{has_record, has_record_in};
ghost use Rattle.local_zone.specs.declared.added.RecordTurn.TheVariants as RecordTurn;
ghost use Rattle.local_zone.specs.Tables.{is_of_set};
ghost use Rattle.local_zone.specs.Change.{is_there, records_with, with_record};
ghost use Rattle.local_zone.specs.CountsBelow.{AreZoned, StayZoned};
ghost use Rattle.local_zone.specs.Together.{LieTogether, LieTogetherAt, MoveTogether};
ghost use Rattle.local_zone.specs.declared.table.TheConstants.{MOST_RECORDS};

use crate::added::{Added, RecordTurn};
use crate::counts_below::CountsBelow;
use crate::record::LocalRecord;
use crate::record_list::RecordList;
use crate::removed::Removed;
use crate::sought::Sought;
use crate::table::MOST_RECORDS;
use crate::tag::tag_of;
use crate::zone::Zone;
use crate::zoned::{count_zone, count_zones, uncount_zone, uncount_zones};
use crate::zones::lies_in;
use dns_name::{Name, NoMemory};
use dns_text::{Record, Shared, Ttl};
use named_list::NamedList;
use std::alloc::Global;
use std::mem;

/// Whether a record of the list says the same.
pub(crate) fn is_among(records: &[LocalRecord], new: &Record) -> bool
    ensures { result ≡ is_there records.now new.now }
{
    records.iter().any(|r| r.is_same(new))
}

/// Whether a record says the same. It reads only those of its set.
pub(crate) fn is_there(records: &RecordList, new: &Record) -> bool
    ensures { result ≡ is_there records.now new.now }
{
    is_among(records.set_of(&new.owner, new.kind), new)
}

/// Whether there would be too many records with the new one.
pub(crate) fn has_no_room(records: &RecordList, new: &Record) -> bool
    requires { length records.now ≤ MOST_RECORDS }
    ensures { result ≡ nat_lt MOST_RECORDS (length (records_with new.now records.now)) }
{
    records.as_slice().len() == MOST_RECORDS && !is_there(records, new)
}

/// The TTL of a record's set, or its own TTL if the set is empty.
fn ttl_of(records: &RecordList, new: &Record) -> Ttl
    ensures { result ≡ ttl_of new.now records.now }
{
    match records.set_of(&new.owner, new.kind).first() {
        Some(r) => r.ttl(),
        None => new.ttl,
    }
}

/// Puts a record last, and counts it. If memory is refused, nothing has changed.
fn push(
    alloc: Global,
    zones: &NamedList<Zone>,
    records: &mut RecordList,
    zoned: &mut CountsBelow,
    new: LocalRecord,
) -> Result<(), NoMemory>
    ensures ok { OnOk result (records.new ≡ records.old ++ new ∷ []) }
    ensures err { OnErr result (records.new ≡ records.old) }
    ensures zoned { AreZoned zones.now records.old zoned.old → AreZoned zones.now records.new zoned.new }
{
    let twin = new.share()?;
    count_zone(alloc, zones, zoned, twin.owner())?;
    match records.push(alloc, new) {
        Ok(()) => Ok(()),
        Err(e) => {
            uncount_zone(zones, zoned, twin.owner());
            Err(e)
        }
    }
}

/// Counts the last record no more, if there is one. It takes no memory.
fn uncount_last(zones: &NamedList<Zone>, records: &RecordList, zoned: &mut CountsBelow)
    ensures { AreZoned zones.now records.now zoned.old →
        AreZoned zones.now (take (length records.now - 1) records.now) zoned.new }
{
    if let Some(last) = records.as_slice().last() {
        uncount_zone(zones, zoned, last.owner());
    }
}

/// Takes the last record out, if there is one, and counts it no more. It takes no memory.
fn pop(zones: &NamedList<Zone>, records: &mut RecordList, zoned: &mut CountsBelow)
    ensures list { records.new ≡ take (length records.old - 1) records.old }
    ensures zoned { AreZoned zones.now records.old zoned.old → AreZoned zones.now records.new zoned.new }
{
    uncount_last(zones, records, zoned);
    records.pop();
}

/// Puts a record last unless it is there, and returns whether it did.
fn put_last(
    alloc: Global,
    zones: &NamedList<Zone>,
    records: &mut RecordList,
    zoned: &mut CountsBelow,
    new: &Shared<Record>,
) -> Result<bool, NoMemory>
    ensures ok { OnOk result (records.new ≡ with_record new.now records.old) }
    ensures put { IfOk result (λ put. put ≡ not (is_there records.old new.now)) }
    ensures err { OnErr result (records.new ≡ records.old) }
    ensures zoned { AreZoned zones.now records.old zoned.old → AreZoned zones.now records.new zoned.new }
{
    if is_there(records, new.get()) {
        return Ok(false);
    }
    push(alloc, zones, records, zoned, LocalRecord::new(new.share()?))?;
    Ok(true)
}

/// Puts a record last unless it is there, and gives its TTL to its set.
pub(crate) fn put_record(
    alloc: Global,
    zones: &NamedList<Zone>,
    records: &mut RecordList,
    zoned: &mut CountsBelow,
    new: &Shared<Record>,
) -> Result<Added, NoMemory>
    requires { (r s : Record) → Contains records.old r → Contains records.old s → is_of_set r s ≡ true → r.ttl ≡ s.ttl }
    ensures ok { OnOk result (records.new ≡ records_with new.now records.old) }
    ensures err { OnErr result (records.new ≡ records.old) }
    ensures saved { IfOk result (λ added. records_before added records.new ≡ records.old) }
    ensures said { IfOk result (λ added. added.said ≡ new.now) }
    ensures zoned { AreZoned zones.now records.old zoned.old → AreZoned zones.now records.new zoned.new }
{
    let said = new.share()?;
    let ttl = ttl_of(records, new.get());
    let is_new = put_last(alloc, zones, records, zoned, new)?;
    records.retime(new.get(), new.get().ttl);
    Ok(Added { said, ttl, is_new })
}

/// Takes back what `put_record` did. It takes no memory.
pub(crate) fn take_back(
    zones: &NamedList<Zone>,
    records: &mut RecordList,
    zoned: &mut CountsBelow,
    added: &Added,
)
    ensures list { records.new ≡ records_before added.now records.old }
    ensures zoned { AreZoned zones.now records.old zoned.old → AreZoned zones.now records.new zoned.new }
{
    if added.is_new {
        pop(zones, records, zoned);
    }
    records.retime(added.said.get(), added.ttl);
}

/// Takes back an addition, and returns the way to make it again. It takes no memory.
fn take_added(
    zones: &NamedList<Zone>,
    records: &mut RecordList,
    zoned: &mut CountsBelow,
    added: Added,
) -> RecordTurn
    requires { GoesBack (RecordTurn.Added added) records.old }
    ensures turns { TurnsRecords (RecordTurn.Added added) records.old result records.new }
    ensures zoned { AreZoned zones.now records.old zoned.old → AreZoned zones.now records.new zoned.new }
{
    take_back(zones, records, zoned, &added);
    let Added { said, .. } = added;
    RecordTurn::Adds(said)
}

/// Adds a record once more. If there is no memory, `turn` still leads to the other side.
fn add_again(
    alloc: Global,
    zones: &NamedList<Zone>,
    records: &mut RecordList,
    zoned: &mut CountsBelow,
    new: Shared<Record>,
    turn: &mut RecordTurn,
) -> Result<(), NoMemory>
    requires one_ttl { (r s : Record) → Contains records.old r → Contains records.old s → is_of_set r s ≡ true → r.ttl ≡ s.ttl }
    ensures turns { OnOk result (TurnsRecords (RecordTurn.Adds new) records.old turn.new records.new) }
    ensures err { OnErr result ((records.new ≡ records.old) × (turn.new ≡ RecordTurn.Adds new)) }
    ensures zoned { AreZoned zones.now records.old zoned.old → AreZoned zones.now records.new zoned.new }
{
    match put_record(alloc, zones, records, zoned, &new) {
        Ok(added) => {
            *turn = RecordTurn::Added(added);
            Ok(())
        }
        Err(e) => {
            *turn = RecordTurn::Adds(new);
            Err(e)
        }
    }
}

/// Puts records of one zone back in their places, and counts them. If memory is refused, nothing has changed.
fn put_in(
    alloc: Global,
    zones: &NamedList<Zone>,
    records: &mut RecordList,
    zoned: &mut CountsBelow,
    removed: &mut Removed,
) -> Result<Vec<usize>, NoMemory>
    requires { AreApart removed.old records.old }
    ensures ok { OnOk result (records.new ≡ put_back removed.old records.old) }
    ensures gaps { IfOk result (λ gaps. gaps.items ≡ gaps_of removed.old) }
    ensures err { OnErr result ((records.new ≡ records.old) × (removed.new ≡ removed.old)) }
    ensures zoned { LieTogether zones.now removed.old → StayZoned zones.now records.old zoned.old records.new zoned.new }
{
    count_zones(alloc, zones, zoned, removed.as_slice())?;
    let gaps = records.put_in(alloc, removed);
    if gaps.is_err() {
        uncount_zones(zones, zoned, removed.as_slice());
    }
    gaps
}

/// Puts records back in their places. If there is no memory, `turn` still leads to the other side.
fn put_again(
    alloc: Global,
    zones: &NamedList<Zone>,
    records: &mut RecordList,
    zoned: &mut CountsBelow,
    removed: Removed,
    turn: &mut RecordTurn,
) -> Result<(), NoMemory>
    requires { GoesBack (RecordTurn.Removed removed) records.old }
    ensures turns { OnOk result (TurnsRecords (RecordTurn.Removed removed) records.old turn.new records.new) }
    ensures err { OnErr result ((records.new ≡ records.old) × (turn.new ≡ RecordTurn.Removed removed)) }
    ensures zoned { LieTogether zones.now removed → StayZoned zones.now records.old zoned.old records.new zoned.new }
{
    let mut removed = removed;
    match put_in(alloc, zones, records, zoned, &mut removed) {
        Ok(gaps) => {
            *turn = RecordTurn::Removes(gaps);
            Ok(())
        }
        Err(e) => {
            *turn = RecordTurn::Removed(removed);
            Err(e)
        }
    }
}

/// Takes the records at the gaps, all of one zone, out, and counts them no more. If memory is refused, nothing has changed.
fn take_out(
    alloc: Global,
    zones: &NamedList<Zone>,
    records: &mut RecordList,
    zoned: &mut CountsBelow,
    gaps: &[usize],
) -> Result<Removed, NoMemory>
    requires within { AreWithin gaps.now records.old }
    requires apart { AreApart (at_gaps gaps.now records.old) (rest_of gaps.now records.old) }
    ensures ok { OnOk result (records.new ≡ rest_of gaps.now records.old) }
    ensures removed { IfOk result (λ removed. removed ≡ at_gaps gaps.now records.old) }
    ensures err { OnErr result (records.new ≡ records.old) }
    ensures zoned { LieTogetherAt zones.now gaps.now records.old → StayZoned zones.now records.old zoned.old records.new zoned.new }
{
    let removed = records.take_out(alloc, gaps)?;
    uncount_zones(zones, zoned, removed.as_slice());
    Ok(removed)
}

/// Takes the records at the gaps out. If there is no memory, `turn` still leads to the other side.
fn take_again(
    alloc: Global,
    zones: &NamedList<Zone>,
    records: &mut RecordList,
    zoned: &mut CountsBelow,
    gaps: Vec<usize>,
    turn: &mut RecordTurn,
) -> Result<(), NoMemory>
    requires { GoesBack (RecordTurn.Removes gaps) records.old }
    ensures turns { OnOk result (TurnsRecords (RecordTurn.Removes gaps) records.old turn.new records.new) }
    ensures err { OnErr result ((records.new ≡ records.old) × (turn.new ≡ RecordTurn.Removes gaps)) }
    ensures zoned { LieTogetherAt zones.now gaps.items records.old → StayZoned zones.now records.old zoned.old records.new zoned.new }
{
    match take_out(alloc, zones, records, zoned, gaps.as_slice()) {
        Ok(removed) => {
            *turn = RecordTurn::Removed(removed);
            Ok(())
        }
        Err(e) => {
            *turn = RecordTurn::Removes(gaps);
            Err(e)
        }
    }
}

/// Goes to the other side of a change, and leaves the way back in `turn`. To take a record back that was added takes no memory.
pub(crate) fn turn_over(
    alloc: Global,
    zones: &NamedList<Zone>,
    records: &mut RecordList,
    zoned: &mut CountsBelow,
    turn: &mut RecordTurn,
) -> Result<(), NoMemory>
    requires goes { GoesBack turn.old records.old }
    requires one_ttl { (r s : Record) → Contains records.old r → Contains records.old s → is_of_set r s ≡ true → r.ttl ≡ s.ttl }
    ensures turns { OnOk result (TurnsRecords turn.old records.old turn.new records.new) }
    ensures err { OnErr result ((records.new ≡ records.old) × (turn.new ≡ turn.old)) }
    ensures free { records_need turn.old ≡ false → IsOk result }
    ensures zoned { MoveTogether turn.old zones.now records.old → StayZoned zones.now records.old zoned.old records.new zoned.new }
{
    match mem::replace(turn, RecordTurn::Nothing) {
        RecordTurn::Nothing => Ok(()),
        RecordTurn::Added(added) => {
            *turn = take_added(zones, records, zoned, added);
            Ok(())
        }
        RecordTurn::Adds(new) => add_again(alloc, zones, records, zoned, new, turn),
        RecordTurn::Removed(removed) => put_again(alloc, zones, records, zoned, removed, turn),
        RecordTurn::Removes(gaps) => take_again(alloc, zones, records, zoned, gaps, turn),
    }
}

/// The gaps before the records that lie in a zone.
fn gaps_in(
    alloc: Global,
    records: &[LocalRecord],
    zones: &NamedList<Zone>,
    name: &Name,
) -> Result<Vec<usize>, NoMemory>
    ensures ok { IfOk result (λ gaps. gaps.items ≡ gaps_where (λ r. lies_in zones.now name.now r.owner) 0 records.now) }
    ensures free { list_any (λ r. lies_in zones.now name.now r.owner) records.now ≡ false → IsOk result }
{
    let zone = Sought::new(name);
    let mut gaps = Vec::new(alloc);
    let mut gap = 0;
    for r in records {
        if lies_in(zones, &zone, r) {
            gaps.push(gap)?;
            gap = 0;
        } else {
            gap += 1;
        }
    }
    Ok(gaps)
}

/// The gaps before the records of an owner.
fn gaps_of(alloc: Global, records: &[LocalRecord], owner: &Name) -> Result<Vec<usize>, NoMemory>
    ensures ok { IfOk result (λ gaps. gaps.items ≡ gaps_where (λ r. name_eq r.owner owner.now) 0 records.now) }
    ensures free { list_any (λ r. name_eq r.owner owner.now) records.now ≡ false → IsOk result }
{
    let tag = tag_of(owner);
    let mut gaps = Vec::new(alloc);
    let mut gap = 0;
    for r in records {
        if r.has_tagged_owner(tag, owner) {
            gaps.push(gap)?;
            gap = 0;
        } else {
            gap += 1;
        }
    }
    Ok(gaps)
}

/// Takes the records at the gaps out, and returns the way back. If there are none, it copies nothing.
fn take_gaps(
    alloc: Global,
    zones: &NamedList<Zone>,
    records: &mut RecordList,
    zoned: &mut CountsBelow,
    gaps: &[usize],
) -> Result<RecordTurn, NoMemory>
    requires within { AreWithin gaps.now records.old }
    requires apart { AreApart (at_gaps gaps.now records.old) (rest_of gaps.now records.old) }
    ensures ok { OnOk result (records.new ≡ rest_of gaps.now records.old) }
    ensures saved { IfOk result (λ turn. PutsBack turn records.new records.old) }
    ensures err { OnErr result (records.new ≡ records.old) }
    ensures free { gaps.now ≡ [] → IsOk result }
    ensures frees { IfOk result (λ turn. gaps.now ≡ [] → records_need turn ≡ false) }
    ensures zoned { LieTogetherAt zones.now gaps.now records.old → StayZoned zones.now records.old zoned.old records.new zoned.new }
{
    if gaps.is_empty() {
        return Ok(RecordTurn::Nothing);
    }
    let removed = take_out(alloc, zones, records, zoned, gaps)?;
    Ok(RecordTurn::Removed(removed))
}

/// Takes the records that lie in a zone out, and returns the way back. If memory is refused, nothing has changed. If there are
/// none, it takes no memory.
pub(crate) fn take_in(
    alloc: Global,
    zones: &NamedList<Zone>,
    records: &mut RecordList,
    zoned: &mut CountsBelow,
    name: &Name,
) -> Result<RecordTurn, NoMemory>
    ensures ok { OnOk result (records.new ≡ filter (λ r. not (lies_in zones.now name.now r.owner)) records.old) }
    ensures saved { IfOk result (λ turn. PutsBack turn records.new records.old) }
    ensures err { OnErr result (records.new ≡ records.old) }
    ensures free { has_record_in zones.now name.now records.old ≡ false → IsOk result }
    ensures frees { IfOk result (λ turn. has_record_in zones.now name.now records.old ≡ false → records_need turn ≡ false) }
    ensures zoned { AreZoned zones.now records.old zoned.old → AreZoned zones.now records.new zoned.new }
{
    let gaps = gaps_in(alloc, records.as_slice(), zones, name)?;
    let turn = take_gaps(alloc, zones, records, zoned, gaps.as_slice())?;
    Ok(turn)
}

/// Takes the records of an owner out, and returns the way back. If memory is refused, nothing has changed. If there are none, it
/// takes no memory.
pub(crate) fn take_of(
    alloc: Global,
    zones: &NamedList<Zone>,
    records: &mut RecordList,
    zoned: &mut CountsBelow,
    owner: &Name,
) -> Result<RecordTurn, NoMemory>
    ensures ok { OnOk result (records.new ≡ filter (λ r. not (name_eq r.owner owner.now)) records.old) }
    ensures saved { IfOk result (λ turn. PutsBack turn records.new records.old) }
    ensures err { OnErr result (records.new ≡ records.old) }
    ensures free { has_record owner.now records.old ≡ false → IsOk result }
    ensures frees { IfOk result (λ turn. has_record owner.now records.old ≡ false → records_need turn ≡ false) }
    ensures zoned { AreZoned zones.now records.old zoned.old → AreZoned zones.now records.new zoned.new }
{
    let gaps = gaps_of(alloc, records.as_slice(), owner)?;
    let turn = take_gaps(alloc, zones, records, zoned, gaps.as_slice())?;
    Ok(turn)
}
