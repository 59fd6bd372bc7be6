//! Tables and answers as text.

use crate::records::push_record;
use dns_name::NoMemory;
use dns_text::{Question, push_data};
use local_zone::{Local, LocalSet, ZoneTable};
use std::alloc::Global;

/// The zones and the records in order, a line each.
pub fn push_lists(alloc: Global, table: &ZoneTable, out: &mut Vec<u8>) -> Result<(), NoMemory> {
    for zone in table.zones() {
        let zone = zone.get();
        zone.name.push_text(out)?;
        out.push(b' ')?;
        out.extend_from_slice(zone.kind.word())?;
        out.push(b'\n')?;
    }
    for r in table.records() {
        push_record(alloc, r.owner(), r.ttl().seconds(), r.kind(), r.body(), out)?;
        out.push(b'\n')?;
    }
    Ok(())
}

fn push_set(set: LocalSet<'_>, out: &mut Vec<u8>) -> Result<(), NoMemory> {
    for r in set {
        r.owner.push_text(out)?;
        out.push(b' ')?;
        push_data(r.body, out)?;
        out.push(b'\n')?;
    }
    Ok(())
}

/// What a question is answered.
pub fn push_answer(
    table: &ZoneTable,
    question: &Question,
    out: &mut Vec<u8>,
) -> Result<(), NoMemory> {
    match table.answer(question) {
        Local::Data(set) => push_set(set, out),
        Local::NoData(None) => out.extend_from_slice(b"nodata\n"),
        Local::NoData(Some(_)) => out.extend_from_slice(b"nodata, soa\n"),
        Local::NoName(None) => out.extend_from_slice(b"noname\n"),
        Local::NoName(Some(_)) => out.extend_from_slice(b"noname, soa\n"),
        Local::Refuse => out.extend_from_slice(b"refuse\n"),
        Local::Drop => out.extend_from_slice(b"drop\n"),
        Local::Pass => out.extend_from_slice(b"pass\n"),
    }
}
