//! Takes few records out of a long list, or puts few back, without a second list.

ghost use Rattle.std.specs.Prelude.{◌≡◌, ◌≤◌, ◌+◌, ◌-◌, ◌++◌, take, drop, length};
ghost use Rattle.std.specs.Vec.{vec_len, vec_capacity};
ghost use Rattle.local_zone.specs.Gaps.{at_gaps, gaps_of, put_back, records_of, rest_of, AreWithin};
ghost use Rattle.local_zone.specs.InPlace.{paired, MovesPast};

use crate::record::LocalRecord;
use crate::taken::Taken;

/// The most records that are taken out, or put back, without a second list. The work grows with the square of their number,
/// which this bounds.
const MOST_IN_PLACE: usize = 64;

/// How many records stay, at least, for each that is taken out, or put back, without a second list. Most moves clear the 4,096 octets
/// through which a rotation goes, so one pass over a shorter list can be quicker.
const STAY_FOR_EACH: usize = 32;

/// Whether `moved` records are taken out of a list, or put back, without a second list, where `stay` others are in it.
pub(crate) fn moves_in_place(room: usize, stay: usize, moved: usize) -> bool {
    // A list that has become much shorter than its room goes into a second one, which has less.
    moved <= MOST_IN_PLACE && moved <= stay / STAY_FOR_EACH && room / 4 <= stay
}

/// Moves `count` records, which begin at `front`, behind the `gap` records that follow them.
fn shift(list: &mut [LocalRecord], front: usize, count: usize, gap: usize)
    requires { front + count + gap ≤ length list.old }
    ensures { MovesPast front count gap list.old list.new }
{
    list[front..front + count + gap].rotate_left(count);
}

/// Moves the records at the gaps behind all others, in order.
fn gather(list: &mut [LocalRecord], gaps: &[usize])
    requires { AreWithin gaps.now list.old }
    ensures { list.new ≡ rest_of gaps.now list.old ++ records_of (at_gaps gaps.now list.old) }
{
    let mut front = 0;
    for (count, gap) in gaps.iter().enumerate() {
        shift(list, front, count, *gap);
        front += *gap;
    }
    let rest = list.len() - front - gaps.len();
    shift(list, front, gaps.len(), rest);
}

/// Moves the last records, one for each gap, to `taken`.
fn pop_taken(list: &mut Vec<LocalRecord>, gaps: &[usize], taken: &mut Vec<Taken>)
    requires enough { length gaps.now ≤ vec_len list.old }
    requires places { vec_len taken.old + length gaps.now ≤ vec_capacity taken.old }
    ensures list { list.new.items ≡ take (vec_len list.old - length gaps.now) list.old.items }
    ensures taken { taken.new.items ≡ taken.old.items
        ++ paired gaps.now (drop (vec_len list.old - length gaps.now) list.old.items) }
{
    let stay = list.len() - gaps.len();
    list[stay..].reverse();
    for gap in gaps {
        if let Some(item) = list.pop() {
            taken.push_reserved(Taken { gap: *gap, item });
        }
    }
}

/// Moves the records at the gaps to `taken`. It takes no memory.
pub(crate) fn take_few(list: &mut Vec<LocalRecord>, gaps: &[usize], taken: &mut Vec<Taken>)
    requires within { AreWithin gaps.now list.old.items }
    requires places { vec_len taken.old + length gaps.now ≤ vec_capacity taken.old }
    ensures list { list.new.items ≡ rest_of gaps.now list.old.items }
    ensures taken { taken.new.items ≡ taken.old.items ++ at_gaps gaps.now list.old.items }
{
    gather(list.as_mut_slice(), gaps);
    pop_taken(list, gaps, taken);
}

/// Moves the first records, one for each gap, to their places among the others.
fn spread(list: &mut [LocalRecord], gaps: &[usize])
    requires { length gaps.now ≤ length list.old }
    ensures { list.new ≡ put_back (paired gaps.now (take (length gaps.now) list.old)) (drop (length gaps.now) list.old) }
{
    let mut front = 0;
    for (done, gap) in gaps.iter().enumerate() {
        let count = gaps.len() - done;
        // Where fewer are left than the gap says, all of them.
        let passed = (*gap).min(list.len() - front - count);
        shift(list, front, count, passed);
        front += passed + 1;
    }
}

/// Moves the last records, one for each gap, to their places among the others.
fn restore(list: &mut [LocalRecord], left: usize, gaps: &[usize])
    requires { left + length gaps.now ≡ length list.old }
    ensures { list.new ≡ put_back (paired gaps.now (drop left list.old)) (take left list.old) }
{
    if let Some((first, more)) = gaps.split_first() {
        // Those before the first gap stay where they are.
        let front = (*first).min(left);
        shift(list, front, left - front, gaps.len());
        spread(&mut list[front + 1..], more);
    }
}

/// Puts records back in their places, before which are these gaps. It takes no memory.
pub(crate) fn put_few(list: &mut Vec<LocalRecord>, taken: Vec<Taken>, gaps: &[usize])
    requires room { vec_len list.old + vec_len taken ≤ vec_capacity list.old }
    requires gaps { gaps.now ≡ gaps_of taken.items }
    ensures { list.new.items ≡ put_back taken.items list.old.items }
{
    let left = list.len();
    for t in taken {
        list.push_reserved(t.item);
    }
    restore(list.as_mut_slice(), left, gaps);
}
