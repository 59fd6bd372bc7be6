//! What a worker remembers, in tables of bounded size: a note under each key.

ghost use Rattle.std.specs.Prelude.{◌≡◌, ◌<◌, ◌≤◌, ℕ, true, IfSome};
ghost use Rattle.indexmap.specs.IndexMap.{index_map_len};
ghost use Rattle.outside.specs.Kept.{Adds, IsFree, MakesRoom};

use cell_store::NameSeed;
use indexmap::IndexMap;
use std::hash::Hash;

/// The most entries of a full table that are looked at for one that may go.
const MOST_LOOKED_AT: usize = 8;

/// A note that matters until a moment.
pub(crate) trait Expires: Drop {
    /// That moment.
    ghost until: { Self → ℕ };

    /// That moment.
    fn until(&self) -> u64
        ensures { result ≡ until self.now };
}

/// A table of notes. Strangers choose the keys, so their hashes are seeded.
pub type Notes<K, V> = IndexMap<K, V, NameSeed>;

/// The place of a note that has ended, among the next few behind the cursor. The cursor goes on, round and round.
fn free_place<K: Eq + Hash, V: Expires>(
    kept: &Notes<K, V>,
    cursor: &mut usize,
    now: u64,
) -> Option<usize>
    ensures { IfSome result (IsFree K.eq V.until now kept.now) }
{
    for _ in 0..MOST_LOOKED_AT {
        let place = *cursor;
        match kept.get_index(place) {
            Some((_, note)) => {
                *cursor = place.wrapping_add(1);
                if note.until() <= now {
                    return Some(place);
                }
            }
            None => *cursor = 0,
        }
    }
    None
}

/// Makes room for one more note in a full table: a note that has ended goes. Returns whether there is room.
fn make_room<K: Eq + Hash + Drop, V: Expires>(
    kept: &mut Notes<K, V>,
    cursor: &mut usize,
    most: usize,
    now: u64,
) -> bool
    requires { index_map_len kept.old ≤ most }
    ensures room { MakesRoom K.eq V.until most now kept.old kept.new }
    ensures made { result ≡ true → index_map_len kept.new < most }
    ensures bound { index_map_len kept.new ≤ most }
{
    if kept.len() < most {
        return true;
    }
    let Some(place) = free_place(kept, cursor, now) else {
        return false;
    };
    kept.swap_remove_index(place);
    true
}

/// Adds a note under a new key. If there is no room, or no memory, it is not remembered.
pub(crate) fn add<K: Eq + Hash + Drop, V: Expires>(
    kept: &mut Notes<K, V>,
    cursor: &mut usize,
    most: usize,
    key: K,
    note: V,
    now: u64,
)
    requires { index_map_len kept.old ≤ most }
    ensures adds { Adds K.eq V.until most now key note kept.old kept.new }
    ensures bound { index_map_len kept.new ≤ most }
{
    if !make_room(kept, cursor, most, now) {
        return;
    }
    let _ = kept.insert(key, note);
}
