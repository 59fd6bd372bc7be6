//! The answer to a question on the other side of a change. It shares the records, since some have another TTL there. An answer without
//! records needs no memory.

ghost use Rattle.std.specs.Prelude.{◌≡◌, false, IfOk, IsOk, None, Some};
ghost use Rattle.local_zone.specs.Answer.{answer_in, carries_record, data_asked, data_or, in_redirect, in_static, in_transparent, local_of, soa_of};
ghost use Rattle.local_zone.specs.Closest.{closest};
ghost use Rattle.local_zone.specs.Show.{data_shown};

use crate::local_answer::Local;
use crate::other_side::OtherSide;
use crate::record::LocalRecord;
use crate::shared_answer::SeenRecord;
use crate::zone::Zone;
use crate::zone_type::ZoneType;
use dns_name::{Name, NoMemory};
use dns_text::types::SOA;
use dns_text::{Items, Question};
use std::alloc::Global;

/// An answer that shares records.
type Shares = Local<Items<SeenRecord>, LocalRecord>;

/// The CNAME of an owner, else its set of the TYPE, shown with the QNAME as owner. None if there is neither.
fn data_of(
    alloc: Global,
    side: &OtherSide<'_>,
    asked: &Question,
    owner: &Name,
) -> Result<Option<Items<SeenRecord>>, NoMemory>
    ensures ok { IfOk result (λ set. set ≡ data_shown asked.now.owner owner.now asked.now.kind side.now.records) }
    ensures free { data_shown asked.now.owner owner.now asked.now.kind side.now.records ≡ None → IsOk result }
{
    let set = side.data_for(owner, asked.kind);
    if set.is_empty() {
        return Ok(None);
    }
    Ok(Some(set.to_items(alloc, &asked.owner)?))
}

/// The first SOA record at a zone's name.
fn first_soa(side: &OtherSide<'_>, zone: &Zone) -> Result<Option<LocalRecord>, NoMemory>
    ensures ok { IfOk result (λ soa. soa ≡ soa_of zone.now.name side.now.records) }
    ensures free { soa_of zone.now.name side.now.records ≡ None → IsOk result }
{
    side.set_of(&zone.name, SOA).share_first()
}

/// The data at the name, or another answer if there is none.
fn data_or(
    alloc: Global,
    side: &OtherSide<'_>,
    asked: &Question,
    otherwise: Shares,
) -> Result<Shares, NoMemory>
    ensures ok { IfOk result (λ answer. answer ≡ data_or otherwise (data_asked asked.now side.now.records)) }
    ensures free { data_asked asked.now side.now.records ≡ None → IsOk result }
{
    match data_of(alloc, side, asked, &asked.owner)? {
        Some(set) => Ok(Local::Data(set)),
        None => Ok(otherwise),
    }
}

/// The answer of a static zone.
fn in_static(
    alloc: Global,
    side: &OtherSide<'_>,
    asked: &Question,
    zone: &Zone,
) -> Result<Shares, NoMemory>
    requires { closest side.now.zones asked.now.owner ≡ Some zone.now }
    ensures ok { IfOk result (λ answer. answer ≡ in_static side.now asked.now zone.now) }
    ensures free { carries_record (in_static side.now asked.now zone.now) ≡ false → IsOk result }
{
    if let Some(set) = data_of(alloc, side, asked, &asked.owner)? {
        return Ok(Local::Data(set));
    }
    let soa = first_soa(side, zone)?;
    if side.count_of(&asked.owner) > 0 {
        Ok(Local::NoData(soa))
    } else {
        Ok(Local::NoName(soa))
    }
}

/// The answer of a transparent zone.
fn in_transparent(
    alloc: Global,
    side: &OtherSide<'_>,
    asked: &Question,
    zone: &Zone,
) -> Result<Shares, NoMemory>
    ensures ok { IfOk result (λ answer. answer ≡ in_transparent side.now.records asked.now zone.now) }
    ensures free { carries_record (in_transparent side.now.records asked.now zone.now) ≡ false → IsOk result }
{
    if let Some(set) = data_of(alloc, side, asked, &asked.owner)? {
        return Ok(Local::Data(set));
    }
    if side.has(&asked.owner) {
        Ok(Local::NoData(first_soa(side, zone)?))
    } else {
        Ok(Local::Pass)
    }
}

/// The answer of a redirect zone.
fn in_redirect(
    alloc: Global,
    side: &OtherSide<'_>,
    asked: &Question,
    zone: &Zone,
) -> Result<Shares, NoMemory>
    ensures ok { IfOk result (λ answer. answer ≡ in_redirect side.now.records asked.now zone.now) }
    ensures free { carries_record (in_redirect side.now.records asked.now zone.now) ≡ false → IsOk result }
{
    match data_of(alloc, side, asked, &zone.name)? {
        Some(set) => Ok(Local::Data(set)),
        None => Ok(Local::NoData(first_soa(side, zone)?)),
    }
}

/// The answer of a zone, by its type.
fn answer_in(
    alloc: Global,
    side: &OtherSide<'_>,
    asked: &Question,
    zone: &Zone,
) -> Result<Shares, NoMemory>
    requires { closest side.now.zones asked.now.owner ≡ Some zone.now }
    ensures ok { IfOk result (λ answer. answer ≡ answer_in side.now asked.now zone.now zone.now.kind) }
    ensures free { carries_record (answer_in side.now asked.now zone.now zone.now.kind) ≡ false → IsOk result }
{
    match zone.kind {
        ZoneType::Deny => data_or(alloc, side, asked, Local::Drop),
        ZoneType::Refuse => data_or(alloc, side, asked, Local::Refuse),
        ZoneType::Static => in_static(alloc, side, asked, zone),
        ZoneType::Transparent => in_transparent(alloc, side, asked, zone),
        ZoneType::TypeTransparent => data_or(alloc, side, asked, Local::Pass),
        ZoneType::Redirect => in_redirect(alloc, side, asked, zone),
        ZoneType::AlwaysTransparent => Ok(Local::Pass),
        ZoneType::AlwaysRefuse => Ok(Local::Refuse),
        ZoneType::AlwaysNxDomain => Ok(Local::NoName(None)),
        ZoneType::AlwaysNoData => Ok(Local::NoData(None)),
    }
}

/// The answer to a question on the other side of a change.
pub(crate) fn answer_over(
    alloc: Global,
    side: &OtherSide<'_>,
    asked: &Question,
) -> Result<Shares, NoMemory>
    ensures ok { IfOk result (λ answer. answer ≡ local_of side.now asked.now) }
    ensures free { carries_record (local_of side.now asked.now) ≡ false → IsOk result }
{
    match side.closest(&asked.owner) {
        Some(zone) => answer_in(alloc, side, asked, zone),
        None => Ok(Local::Pass),
    }
}
