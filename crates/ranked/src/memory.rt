//! The octets of memory that the data of a find take.

ghost use Rattle.std.specs.Prelude.{◌≡◌, ◌-◌, ◌≤◌, ◌^◌, min};
ghost use Rattle.std.specs.List.{sum_by};
ghost use Rattle.ranked.specs.Memory.{body_memory, datum_memory, name_memory, parts_memory};

use crate::find::{Body, Find};
use dns_name::Name;
use dns_text::Data;
use std::mem::size_of;

/// The octets of a datum in a list.
pub(crate) const DATUM_OCTETS: usize = 96;

/// The octets that the allocator adds to a block, at most.
pub(crate) const BLOCK_OCTETS: usize = 32;

/// The most octets that a name without a block takes in a message.
pub(crate) const MOST_INLINE: usize = 31;

/// The octets of a longer name's block, at most: its 254 octets, where they start, the counts of its owners, and what the allocator adds.
pub(crate) const LONG_NAME_OCTETS: usize = 304;

const _: () = prove!(size_of::<Data>() == DATUM_OCTETS);

/// What a name takes beside its own place.
fn name_memory(name: &Name) -> usize
    ensures value { result ≡ name_memory name.now }
    ensures few { result ≤ LONG_NAME_OCTETS }
{
    if MOST_INLINE < name.wire_len() {
        LONG_NAME_OCTETS
    } else {
        0
    }
}

/// What the parts of a datum take beside it, up to 2^64 - 1.
fn parts_memory(datum: &Data) -> usize
    ensures { result ≡ min (parts_memory datum.now) (2 ^ 64 - 1) }
{
    match datum {
        Data::A(_) => 0,
        Data::Aaaa(_) => 0,
        Data::One(name) => name_memory(name),
        Data::Mx { exchange, .. } => name_memory(exchange),
        Data::Soa {
            primary,
            mailbox,
            ..
        } => name_memory(primary) + name_memory(mailbox),
        Data::Txt(strings) => BLOCK_OCTETS + strings.octets().len(),
        Data::Srv { target, .. } => name_memory(target),
        Data::Opaque(octets) => BLOCK_OCTETS + octets.as_slice().len(),
    }
}

/// What a datum takes, up to 2^64 - 1.
fn datum_memory(datum: &Data) -> usize
    ensures { result ≡ min (datum_memory datum.now) (2 ^ 64 - 1) }
{
    DATUM_OCTETS.saturating_add(parts_memory(datum))
}

/// What data take, up to 2^64 - 1.
fn data_memory(found: &[Data]) -> usize
    ensures { result ≡ min (sum_by datum_memory found.now) (2 ^ 64 - 1) }
{
    let mut total = 0usize;
    for datum in found {
        total = total.saturating_add(datum_memory(datum));
    }
    total
}

impl Find {
    /// The octets of memory that its data take, at most, and up to 2^64 - 1: those of its set, or of its SOA record. A block that
    /// several names share counts for each.
    pub fn memory(&self) -> usize
        ensures { result ≡ min (body_memory self.now.body) (2 ^ 64 - 1) }
    {
        match &self.body {
            Body::Set(found) => data_memory(found.as_slice()),
            Body::NoData(soa) => datum_memory(&soa.get().body),
            Body::NoName(soa) => datum_memory(&soa.get().body),
        }
    }
}
