//! One pass over the records that takes some out, or puts some back.

ghost use Rattle.std.specs.Prelude.{◌≡◌, ◌≤◌, ◌<◌, ◌+◌, ◌++◌, take, drop, length};
ghost use Rattle.std.specs.Vec.{vec_len, vec_capacity};
ghost use Rattle.std.specs.Vec.Iter.{into_iter_items, into_iter_len};
ghost use Rattle.local_zone.specs.Gaps.{at_gaps, first_at, gaps_of, put_back, rest_of};

use crate::record::LocalRecord;
use crate::taken::Taken;
use std::alloc::Global;
use std::vec::IntoIter;

/// Moves so many records, or all if there are fewer. It takes no memory.
fn move_some(from: &mut IntoIter<LocalRecord, Global>, to: &mut Vec<LocalRecord>, count: usize)
    requires { vec_len to.old + into_iter_len from.old ≤ vec_capacity to.old }
    ensures to { to.new.items ≡ to.old.items ++ take count (into_iter_items from.old) }
    ensures from { into_iter_items from.new ≡ drop count (into_iter_items from.old) }
    ensures room { vec_len to.new + into_iter_len from.new ≡ vec_len to.old + into_iter_len from.old }
    ensures capacity { vec_capacity to.new ≡ vec_capacity to.old }
{
    for _i in 0..count {
        match from.next() {
            Some(item) => to.push_reserved(item),
            None => return,
        }
    }
}

/// Moves all records that are left.
fn move_rest(from: &mut IntoIter<LocalRecord, Global>, to: &mut Vec<LocalRecord>)
    requires { vec_len to.old + into_iter_len from.old ≤ vec_capacity to.old }
    ensures { to.new.items ≡ to.old.items ++ into_iter_items from.old }
{
    let count = from.len();
    move_some(from, to, count);
}

/// Takes the first record, if there is one.
fn take_first(from: &mut IntoIter<LocalRecord, Global>, gap: usize, taken: &mut Vec<Taken>)
    requires { vec_len taken.old < vec_capacity taken.old }
    ensures taken { taken.new.items ≡ taken.old.items ++ first_at gap (into_iter_items from.old) }
    ensures from { into_iter_items from.new ≡ drop 1 (into_iter_items from.old) }
    ensures fewer { into_iter_len from.new ≤ into_iter_len from.old }
    ensures more { vec_len taken.new ≤ vec_len taken.old + 1 }
    ensures capacity { vec_capacity taken.new ≡ vec_capacity taken.old }
{
    if let Some(item) = from.next() {
        taken.push_reserved(Taken { gap, item });
    }
}

/// Moves the records at the gaps to `taken`, and the others to `to`. It takes no memory.
pub(crate) fn take_pass(
    from: &mut IntoIter<LocalRecord, Global>,
    gaps: &[usize],
    to: &mut Vec<LocalRecord>,
    taken: &mut Vec<Taken>,
)
    requires room { vec_len to.old + into_iter_len from.old ≤ vec_capacity to.old }
    requires places { vec_len taken.old + length gaps.now ≤ vec_capacity taken.old }
    ensures to { to.new.items ≡ to.old.items ++ rest_of gaps.now (into_iter_items from.old) }
    ensures taken { taken.new.items ≡ taken.old.items ++ at_gaps gaps.now (into_iter_items from.old) }
{
    for gap in gaps {
        move_some(from, to, *gap);
        take_first(from, *gap, taken);
    }
    move_rest(from, to);
}

/// Moves all records, and between them those that were taken. It takes no memory.
pub(crate) fn put_pass(
    from: &mut IntoIter<LocalRecord, Global>,
    taken: Vec<Taken>,
    to: &mut Vec<LocalRecord>,
)
    requires { vec_len to.old + into_iter_len from.old + vec_len taken ≤ vec_capacity to.old }
    ensures { to.new.items ≡ to.old.items ++ put_back taken.items (into_iter_items from.old) }
{
    for t in taken {
        let Taken { gap, item } = t;
        move_some(from, to, gap);
        to.push_reserved(item);
    }
    move_rest(from, to);
}

/// Notes the gaps before what was taken. There is room for them.
pub(crate) fn push_gaps(taken: &[Taken], gaps: &mut Vec<usize>)
    requires { vec_len gaps.old + length taken.now ≤ vec_capacity gaps.old }
    ensures { gaps.new.items ≡ gaps.old.items ++ gaps_of taken.now }
{
    for t in taken {
        gaps.push_reserved(t.gap);
    }
}
