//! The answer to a question from the table. Finding it takes no memory.

ghost use Rattle.std.specs.Prelude.{◌≡◌};
ghost use Rattle.local_zone.specs.CountsBelow.{AreZoned};
ghost use Rattle.std.specs.Option.{option_map};
ghost use Rattle.local_zone.specs.Answer.{absent_in, absent_or_pass, data_or, has_record, HoldsInZone, IsAnswerInZone, SaysIfRecordBelow};
ghost use Rattle.local_zone.specs.Answer.{in_redirect, in_static, in_transparent, local_now, local_of, soa_of};
ghost use Rattle.local_zone.specs.Show.{data_shown};

use crate::counts_below::CountsBelow;
use crate::local_answer::{Local, LocalSet};
use crate::record::LocalRecord;
use crate::record_list::RecordList;
use crate::zone::Zone;
use crate::zone_type::ZoneType;
use crate::zones::closest;
use dns_name::Name;
use dns_text::Question;
use dns_text::types::SOA;
use named_list::NamedList;

/// Whether a name, or one below it, has a record that lies in the zone that covers the name. A lookup tells whether the name has one
/// itself. Two more tell how many are below it, and how many of these lie in other zones.
fn has_record_below(records: &RecordList, zoned: &CountsBelow, name: &Name) -> bool
    ensures { SaysIfRecordBelow name.now records.now zoned.now result }
{
    has_owner(records, name) || zoned.of(name) < records.count_below(name)
}

/// The CNAME of an owner, else its set of the TYPE, shown with the QNAME as owner. None if there is neither.
fn data_of<'a>(
    records: &'a RecordList,
    asked: &'a Name,
    owner: &Name,
    kind: u16,
) -> Option<LocalSet<'a>>
    ensures { result ≡ data_shown asked.now owner.now kind records.now }
{
    let set = records.data_for(owner, kind);
    if set.is_empty() {
        return None;
    }
    Some(LocalSet {
        records: set,
        shown: asked,
    })
}

/// The first SOA record at a zone's name.
fn soa_at<'a>(records: &'a RecordList, name: &Name) -> Option<&'a LocalRecord>
    ensures { option_map (λ r. r.now) result ≡ soa_of name.now records.now }
{
    records.set_of(name, SOA).first()
}

/// Whether a name has a record.
fn has_owner(records: &RecordList, name: &Name) -> bool
    ensures { result ≡ has_record name.now records.now }
{
    records.count_of(name) > 0
}

/// The data, or another answer if there is none.
fn data_or<'a>(
    found: Option<LocalSet<'a>>,
    otherwise: Local<LocalSet<'a>, &'a LocalRecord>,
) -> Local<LocalSet<'a>, &'a LocalRecord>
    ensures { local_now result ≡ data_or (local_now otherwise.entry) found.entry }
{
    match found {
        Some(set) => Local::Data(set),
        None => otherwise,
    }
}

/// The negative answer of a static zone: no data of the type, or no such name.
fn absent<'a>(
    records: &'a RecordList,
    zoned: &CountsBelow,
    zone: &Zone,
    name: &Name,
) -> Local<LocalSet<'a>, &'a LocalRecord>
    ensures { HoldsInZone name.now zone.now records.now zoned.now (λ t. local_now result ≡ absent_in t name.now zone.now) }
{
    let soa = soa_at(records, &zone.name);
    if has_record_below(records, zoned, name) {
        Local::NoData(soa)
    } else {
        Local::NoName(soa)
    }
}

/// The answer of a transparent zone that has no data of the type.
fn absent_or_pass<'a>(
    records: &'a RecordList,
    zone: &Zone,
    name: &Name,
) -> Local<LocalSet<'a>, &'a LocalRecord>
    ensures { local_now result ≡ absent_or_pass records.now name.now zone.now }
{
    if has_owner(records, name) {
        Local::NoData(soa_at(records, &zone.name))
    } else {
        Local::Pass
    }
}

/// The answer of a static zone.
fn in_static<'a>(
    records: &'a RecordList,
    zoned: &CountsBelow,
    zone: &Zone,
    question: &'a Question,
) -> Local<LocalSet<'a>, &'a LocalRecord>
    ensures { HoldsInZone question.now.owner zone.now records.now zoned.now (λ t. local_now result ≡ in_static t question.now zone.now) }
{
    let name = &question.owner;
    match data_of(records, name, name, question.kind) {
        Some(set) => Local::Data(set),
        None => absent(records, zoned, zone, name),
    }
}

/// The answer of a transparent zone.
fn in_transparent<'a>(
    records: &'a RecordList,
    zone: &Zone,
    question: &'a Question,
) -> Local<LocalSet<'a>, &'a LocalRecord>
    ensures { local_now result ≡ in_transparent records.now question.now zone.now }
{
    let name = &question.owner;
    match data_of(records, name, name, question.kind) {
        Some(set) => Local::Data(set),
        None => absent_or_pass(records, zone, name),
    }
}

/// The answer of a redirect zone.
fn in_redirect<'a>(
    records: &'a RecordList,
    zone: &'a Zone,
    question: &'a Question,
) -> Local<LocalSet<'a>, &'a LocalRecord>
    ensures { local_now result ≡ in_redirect records.now question.now zone.now }
{
    match data_of(records, &question.owner, &zone.name, question.kind) {
        Some(set) => Local::Data(set),
        None => Local::NoData(soa_at(records, &zone.name)),
    }
}

/// The answer of a zone, by its type.
fn answer_in<'a>(
    records: &'a RecordList,
    zoned: &CountsBelow,
    zone: &'a Zone,
    question: &'a Question,
) -> Local<LocalSet<'a>, &'a LocalRecord>
    ensures { IsAnswerInZone question.now zone.now records.now zoned.now (local_now result) }
{
    let name = &question.owner;
    let kind = question.kind;
    match zone.kind {
        ZoneType::Deny => data_or(data_of(records, name, name, kind), Local::Drop),
        ZoneType::Refuse => data_or(data_of(records, name, name, kind), Local::Refuse),
        ZoneType::Static => in_static(records, zoned, zone, question),
        ZoneType::Transparent => in_transparent(records, zone, question),
        ZoneType::TypeTransparent => data_or(data_of(records, name, name, kind), Local::Pass),
        ZoneType::Redirect => in_redirect(records, zone, question),
        ZoneType::AlwaysTransparent => Local::Pass,
        ZoneType::AlwaysRefuse => Local::Refuse,
        ZoneType::AlwaysNxDomain => Local::NoName(None),
        ZoneType::AlwaysNoData => Local::NoData(None),
    }
}

/// The answer of the table.
pub(crate) fn answer<'a>(
    zones: &'a NamedList<Zone>,
    records: &'a RecordList,
    zoned: &CountsBelow,
    question: &'a Question,
) -> Local<LocalSet<'a>, &'a LocalRecord>
    requires { AreZoned zones.now records.now zoned.now }
    ensures { local_now result ≡ local_of (record { zones = zones.now; records = records.now }) question.now }
{
    match closest(zones, &question.owner) {
        Some(zone) => answer_in(records, zoned, zone, question),
        None => Local::Pass,
    }
}
