//! The undone changes leave the ring, wherever they are in it.

ghost use Rattle.std.specs.Prelude.{◌≡◌, ◌<◌, length};
ghost use Rattle.change_law.specs.Row.{IsNoMore};
ghost use Rattle.circular_buffer.specs.Buffer.{buffer};
ghost use Rattle.undo_journal.specs.Journal.{in_effect};
ghost use Rattle.undo_journal.specs.Moving.{SettlesUndone};
ghost use Rattle.undo_journal.specs.Settling.{TurnsFirst};

use crate::reach::is_done;
use change_law::{Change, KeptChange, World};
use circular_buffer::HeapCircularBuffer;

type Saved<C> = <<C as Change>::World as World>::Saved;

/// Settles the undone changes. Each change leaves the ring at the front, and those in effect come back at the end, so that their
/// order stays. It takes no memory.
pub(crate) fn settle_undone<C: Change>(
    ring: &mut HeapCircularBuffer<KeptChange<Saved<C>>>,
    world: &mut C::World,
)
    ensures ring { ring.new ≡ buffer (in_effect ring.old.items) ring.old.capacity }
    ensures row { SettlesUndone C.World.World world.old ring.old.items world.new (in_effect ring.old.items) }
    ensures counts { IsNoMore C.World.newest C.World.stored C.World.limit C.World.counts world.old world.new }
{
    for _round in 0..ring.len() {
        turn_first::<C>(ring, world);
    }
}

// The first change leaves the ring. If it is in effect it comes back at the end, else it is settled.
fn turn_first<C: Change>(ring: &mut HeapCircularBuffer<KeptChange<Saved<C>>>, world: &mut C::World)
    requires { 0 < length ring.old.items }
    ensures turned { TurnsFirst C.World.table C.World.keeps C.World.face world.old ring.old world.new ring.new }
    ensures counts { IsNoMore C.World.newest C.World.stored C.World.limit C.World.counts world.old world.new }
{
    let _len = ring.len();
    match ring.pop_front() {
        Some(first) => {
            if is_done(first.standing) {
                ring.push_back(first);
                return;
            }
            C::settle(world, first.saved);
            return;
        }
        None => return,
    }
}
