//! A table of as many zones as there may be.

use dns_name::Name;
use local_zone::{MOST_ZONES, ZoneTable, ZoneType};
use std::alloc::Global;

/// A name of one label that no other number gives.
fn numbered(alloc: Global, n: u32) -> Option<Name> {
    let text = format!(in alloc; "{n}.").ok()?;
    Name::from_text(alloc, text.as_str().as_bytes()).ok()
}

fn is_set(table: &mut ZoneTable, name: Name) -> bool {
    match table.set(name, ZoneType::Deny) {
        Ok(saved) => {
            drop(saved);
            true
        }
        Err(_) => false,
    }
}

/// Sets as many zones as there may be; gives how many were refused.
pub fn fill_zones(alloc: Global, table: &mut ZoneTable) -> u32 {
    let mut refused = 0;
    for n in 0..MOST_ZONES as u32 {
        if let Some(name) = numbered(alloc, n) {
            if is_set(table, name) {
                continue;
            }
        }
        refused = n;
    }
    refused
}
