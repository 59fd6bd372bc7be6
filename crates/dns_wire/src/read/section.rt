//! A section: items one after another.

ghost use Rattle.std.specs.Prelude.{◌≤◌, ℕ, List, Result, length, IfOk};
ghost use Rattle.dns_wire.specs.declared.fault.WireFault.{WireFault};
ghost use Rattle.dns_wire.specs.Read.Section.{section_read};
ghost use Rattle.dns_wire.specs.Fault.{Gives};

use crate::fault::WireFault;
use crate::read::chains::Wire;
use dns_text::Items;
use std::alloc::Global;

/// What a section holds.
pub(crate) trait SectionItem: Drop {
    ghost read: { List ℕ → ℕ → Result (Self × ℕ) WireFault };

    /// The one at a place, and the place after it.
    fn read_at(alloc: Global, message: &Wire<'_>, at: usize) -> Result<(Self, usize), WireFault>
        requires { at ≤ length message.now }
        ensures exact { Gives result (read message.now at) }
        ensures within { IfOk result (λ r. r.1 ≤ length message.now) };
}

/// The most items for which a section has room before one of them is read.
const MOST_ROOM: usize = 64;

/// The room with which a section begins: for as many items as the header counts, but for 64 at most, and for no more than the shortest
/// questions that the octets left could hold. So a message that counts more items than it has gets little room.
fn first_room(count: u16, left: usize) -> usize {
    // A question takes five octets at least. A record takes eleven, so records may get room for up to 2.2 times as many as fit.
    usize::from(count).min(left / 5).min(MOST_ROOM)
}

/// So many items, and the place after them.
pub(crate) fn section_at<T: SectionItem>(
    alloc: Global,
    message: &Wire<'_>,
    count: u16,
    at: usize,
) -> Result<(Items<T>, usize), WireFault>
    requires { at ≤ length message.now }
    ensures exact { Gives result (section_read (λ i. T.read message.now i) count at) }
    ensures within { IfOk result (λ r. r.1 ≤ length message.now) }
{
    let left = message.as_slice().len() - at;
    let mut items = Vec::with_capacity(alloc, first_room(count, left))?;
    let mut at = at;
    for _ in 0..count {
        let (item, after) = T::read_at(alloc, message, at)?;
        items.push(item)?;
        at = after;
    }
    Ok((Items::new(items), at))
}
