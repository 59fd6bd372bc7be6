//! A record, as it is written.

use dns_name::{Name, NoMemory};
use dns_text::{Data, push_data, push_type};
use std::alloc::Global;

/// Writes `NAME TTL TYPE DATA`.
pub fn push_record(
    alloc: Global,
    owner: &Name,
    ttl: u32,
    kind: u16,
    body: &Data,
    out: &mut Vec<u8>,
) -> Result<(), NoMemory> {
    owner.push_text(out)?;
    out.extend_from_slice(format!(in alloc; " {ttl} ")?.as_bytes())?;
    push_type(kind, out)?;
    out.push(b' ')?;
    push_data(body, out)
}
