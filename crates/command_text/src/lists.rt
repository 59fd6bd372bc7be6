//! The text of the lists of local zones, local data and stubs.

ghost use Rattle.std.specs.Prelude.{◌≡◌, ◌++◌, ◌∷◌, IfOk, OnOk, codes, flat_map};
ghost use Rattle.streams.specs.Split.{with_end};
ghost use Rattle.command_text.specs.Text.{zone_line, record_line, stub_line};

use crate::addrs::push_addrs;
use dns_text::{Items, NoMemory, Shared, push_data, push_type};
use itoa::Buffer;
use local_zone::{LocalRecord, Zone};
use std::alloc::Global;
use stub_table::Stub;

fn push_zone(zone: &Zone, out: &mut Vec<u8>) -> Result<(), NoMemory>
    ensures { OnOk result (out.new.items ≡ out.old.items ++ zone_line zone.now) }
{
    zone.name.push_text(out)?;
    out.push(b' ')?;
    out.extend_from_slice(zone.kind.word())?;
    out.push(b'\n')?;
    Ok(())
}

fn push_zones(zones: &[Shared<Zone>], out: &mut Vec<u8>) -> Result<(), NoMemory>
    ensures { OnOk result (out.new.items ≡ out.old.items ++ flat_map zone_line zones.now) }
{
    for zone in zones {
        push_zone(zone.get(), out)?;
    }
    Ok(())
}

/// A line for each zone in order, and `end`.
pub(crate) fn zones_lines(alloc: Global, zones: &Items<Shared<Zone>>) -> Result<Vec<u8>, NoMemory>
    ensures { IfOk result (λ text. text.items ≡ with_end (flat_map zone_line zones.now ++ codes "end")) }
{
    let mut out = Vec::new(alloc);
    push_zones(zones.as_slice(), &mut out)?;
    out.extend_from_slice(b"end\n")?;
    Ok(out)
}

fn push_local_record(local: &LocalRecord, out: &mut Vec<u8>) -> Result<(), NoMemory>
    ensures { OnOk result (out.new.items ≡ out.old.items ++ record_line local.now) }
{
    let mut digits = Buffer::new();
    local.owner().push_text(out)?;
    out.push(b' ')?;
    out.extend_from_slice(digits.format(u64::from(local.ttl().seconds())).as_bytes())?;
    out.push(b' ')?;
    push_type(local.kind(), out)?;
    out.push(b' ')?;
    push_data(local.body(), out)?;
    out.push(b'\n')?;
    Ok(())
}

fn push_records(records: &[LocalRecord], out: &mut Vec<u8>) -> Result<(), NoMemory>
    ensures { OnOk result (out.new.items ≡ out.old.items ++ flat_map record_line records.now) }
{
    for local in records {
        push_local_record(local, out)?;
    }
    Ok(())
}

/// A line for each record in order, and `end`.
pub(crate) fn records_lines(
    alloc: Global,
    records: &Items<LocalRecord>,
) -> Result<Vec<u8>, NoMemory>
    ensures { IfOk result (λ text. text.items ≡ with_end (flat_map record_line records.now ++ codes "end")) }
{
    let mut out = Vec::new(alloc);
    push_records(records.as_slice(), &mut out)?;
    out.extend_from_slice(b"end\n")?;
    Ok(out)
}

fn push_stub(stub: &Stub, out: &mut Vec<u8>) -> Result<(), NoMemory>
    ensures { OnOk result (out.new.items ≡ out.old.items ++ stub_line stub.now) }
{
    stub.name.push_text(out)?;
    push_addrs(stub.addrs.as_slice(), out)?;
    out.push(b'\n')?;
    Ok(())
}

fn push_stubs(stubs: &[Shared<Stub>], out: &mut Vec<u8>) -> Result<(), NoMemory>
    ensures { OnOk result (out.new.items ≡ out.old.items ++ flat_map stub_line stubs.now) }
{
    for stub in stubs {
        push_stub(stub.get(), out)?;
    }
    Ok(())
}

/// A line for each stub in order, and `end`.
pub(crate) fn stubs_lines(alloc: Global, stubs: &Items<Shared<Stub>>) -> Result<Vec<u8>, NoMemory>
    ensures { IfOk result (λ text. text.items ≡ with_end (flat_map stub_line stubs.now ++ codes "end")) }
{
    let mut out = Vec::new(alloc);
    push_stubs(stubs.as_slice(), &mut out)?;
    out.extend_from_slice(b"end\n")?;
    Ok(out)
}
