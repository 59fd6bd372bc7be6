//! Unused versions: those of flushes that can no longer be undone.

ghost use Rattle.std.specs.Prelude.{◌≡◌, ◌<◌, ◌+◌, ℕ, length, drop, slice_index_or};
ghost use Rattle.std.specs.List.{list_any};
ghost use Rattle.cell_store.specs.Prune.{is_from, is_held_at, is_seen, kept_entry, pruned};

use crate::entry::{ColumnEntry, Entries};
use crate::version::{Place, Version};
use ranked::Cell;

// Whether a version has the content of an entry: the entry starts there or before, and no later one does.
fn is_held_at(versions: &[ColumnEntry], place: usize, number: u64) -> bool
    requires { place < length versions.now }
    ensures { (d : Version ℕ) → result ≡ is_held_at number (slice_index_or versions.now place d) (drop (place + 1) versions.now) }
{
    versions[place].is_from(number) && !any_from(&versions[place + 1..], number)
}

fn any_from(versions: &[ColumnEntry], number: u64) -> bool
    ensures { result ≡ list_any (is_from number) versions.now }
{
    versions.iter().any(|entry| entry.is_from(number))
}

// Whether a version in use has the content of an entry.
fn is_seen(versions: &[ColumnEntry], place: usize, numbers: &[u64], upto: u64) -> bool
    requires { place < length versions.now }
    ensures { (d : Version ℕ) →
        result ≡ is_seen numbers.now upto (slice_index_or versions.now place d) (drop (place + 1) versions.now) }
{
    let mut seen = is_held_at(versions, place, 0);
    for number in numbers {
        if *number <= upto && is_held_at(versions, place, *number) {
            seen = true;
        }
    }
    seen
}

// The entry, emptied if no version in use has its content.
fn kept_entry(versions: &[ColumnEntry], place: usize, numbers: &[u64], upto: u64) -> ColumnEntry
    requires { place < length versions.now }
    ensures { (d : Version ℕ) →
        result ≡ kept_entry numbers.now upto (slice_index_or versions.now place d) (drop (place + 1) versions.now) }
{
    let version = versions[place].version();
    if is_seen(versions, place, numbers, upto) {
        return ColumnEntry::new(version);
    }
    ColumnEntry::new(Version {
        from: version.from,
        place: Place {
            left: false,
            cell: Cell::empty(),
        },
    })
}

// Empties the entries whose content no version in use has. Version 0 and those of `numbers` are in use.
pub(crate) fn prune(versions: &mut Entries, numbers: &[u64], upto: u64)
    ensures { versions.new.items ≡ pruned numbers.now upto versions.old.items }
{
    let mut place = 0;
    while place < versions.len() {
        let entry = kept_entry(versions, place, numbers, upto);
        versions[place] = entry;
        place += 1;
    }
}
