//! Finds: the data of one record, for any name.

use anyhow::anyhow;
use dns_name::Name;
use dns_text::{Items, read_record};
use ranked::{Find, Rank, SharedFind};
use std::alloc::Global;

/// The record of an address.
pub const ADDRESS: &[u8] = b"a.test A 192.0.2.1";

/// The record of a longer address.
pub const LONG_ADDRESS: &[u8] = b"a.test AAAA 2001:db8::1";

/// The data of a record's text for a name. None if the TTL is 0.
pub fn find_of(
    alloc: Global,
    owner: Name,
    text: &[u8],
    rank: Rank,
    ttl: u32,
) -> anyhow::Result<Option<Find>> {
    let record = read_record(alloc, text)?;
    let data = Items::new(vec![in alloc; record.body]?);
    Ok(Find::new(owner, record.kind, rank, ttl, data))
}

/// The same with shared owners. A share is dropped in one step.
pub fn shared_find(
    alloc: Global,
    owner: Name,
    text: &[u8],
    rank: Rank,
    ttl: u32,
) -> anyhow::Result<SharedFind> {
    let find = find_of(alloc, owner, text, rank, ttl)?.ok_or(anyhow!("no find"))?;
    Ok(SharedFind::new(alloc, find)?)
}

/// The address 192.0.2.1 of a name.
pub fn address(alloc: Global, owner: &[u8], rank: Rank, ttl: u32) -> anyhow::Result<SharedFind> {
    shared_find(alloc, Name::from_text(alloc, owner)?, ADDRESS, rank, ttl)
}

/// The text of a name: two letters by its number.
pub fn letters(number: u16) -> [u8; 2] {
    [b'a' + (number / 26 % 26) as u8, b'a' + (number % 26) as u8]
}
