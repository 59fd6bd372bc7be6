//! Calls for replies with borrowed records.

ghost use Rattle.std.specs.Prelude.{IfOk};
ghost use Rattle.std.specs.List.{AllByRecursion};
ghost use Rattle.dns_text.specs.Data.{HasForm};

use crate::fault::CallFault;
use crate::messages::query_in;
use crate::names::digits;
use dns_name::Name;
use dns_text::{Data, Ttl, read_data, read_type};
use dns_wire::{Head, LentRecord, NoRecords, Opcode, Query, Rcode, Reserved, Section, encode_lent};
use std::alloc::Global;

/// An RRset: one owner, type and TTL.
#[derive(Drop)]
struct LentSet<'a> {
    owner: &'a Name,
    kind: u16,
    ttl: Ttl,
    data: &'a [Data],
}

impl<'a> Section for LentSet<'a> {
    ghost use Rattle.std.specs.Prelude.{[], ◌∷◌};
    ghost use Rattle.dns_wire.specs.Lent.{set_records};

    ghost parts = { λ s. set_records s.owner.now s.kind s.ttl s.data.now ∷ [] };

    fn part_count(&self) -> usize {
        1
    }

    fn record_count(&self, part: usize) -> usize {
        if part > 0 {
            return 0;
        }
        self.data.len()
    }

    fn record(&self, part: usize, place: usize) -> Option<LentRecord<'_>> {
        if part > 0 {
            return None;
        }
        match self.data.get(place) {
            Some(body) => Some(LentRecord::new(self.owner, self.kind, self.ttl, body)),
            None => None,
        }
    }
}

/// The data that texts stand for.
fn read_set(alloc: Global, kind: u16, texts: &[Vec<u8>]) -> Result<Vec<Data>, CallFault>
    ensures { IfOk result (λ found. AllByRecursion (HasForm kind) found.items) }
{
    let mut data = Vec::new(alloc);
    for text in texts {
        data.push(read_data(alloc, kind, text)?)?;
    }
    Ok(data)
}

/// A TTL of four octets.
fn ttl_of(octets: &[u8]) -> Result<Ttl, CallFault> {
    let [a, b, c, d] = octets else {
        return Err(CallFault::NoCall);
    };
    let seconds = u32::from_be_bytes([*a, *b, *c, *d]);
    Ttl::from_seconds(seconds).ok_or(CallFault::NoCall)
}

fn head_of(query: &Query) -> Head {
    Head {
        id: query.id,
        qr: true,
        opcode: Opcode::QUERY,
        aa: false,
        tc: false,
        rd: query.rd,
        ra: true,
        z: Reserved::ZERO,
        rcode: Rcode::NO_ERROR,
    }
}

/// The reply to a query whose answer is an RRset with this owner, type and TTL.
pub fn lent_octets(
    alloc: Global,
    query: &[u8],
    owner: &[u8],
    kind: &[u8],
    ttl: &[u8],
    texts: &[Vec<u8>],
) -> Result<Vec<u8>, CallFault> {
    let query = query_in(alloc, query)?;
    let owner = Name::from_text(alloc, owner)?;
    let kind = read_type(kind)?;
    let data = read_set(alloc, kind, texts)?;
    let set = LentSet {
        owner: &owner,
        kind,
        ttl: ttl_of(ttl)?,
        data: &data,
    };
    let octets = encode_lent(Vec::new(alloc), &query, &head_of(&query), &set, &NoRecords)?;
    Ok(digits(alloc, &octets)?)
}
