//! Admissions, sweeps and forgets of a world under its journal.

ghost use Rattle.std.specs.Prelude.{◌≡◌, ◌+◌, ◌<◌, ◌≤◌, ◌^◌, ◌∷◌, [], ℕ, true, false, IfOk, IfErr, IsOk, OnOk, OnErr};
ghost use Rattle.change_law.specs.Pairs.{AreNeeded, CountsNoneOf, IsAliveIn, pair_of};
ghost use Rattle.history.specs.declared.event.Event.TheVariants.{Admit, Sweep, Forget};
ghost use Rattle.world_book.specs.Step.{IsSound, IsSoundAfter, IsFaultOf, reply_of_fate};
ghost use Rattle.world_book.specs.Tied.{MakesRoom, RepliesAt, StaysTied, TakesInAt, TakesInAlways, TakesNothingIn};

use crate::world::BookChange;
use change_law::{World, WorldFault};
use dns_name::Name;
use history::{Reply, StepFault};
use ranked::{Fate, SharedFind};
use undo_journal::Journal;

/// Admits a find. `clock` is the clock after the admission.
pub(crate) fn admit<C: BookChange>(
    journal: &Journal<C>,
    world: &mut C::World,
    find: SharedFind,
    clock: u64,
) -> Result<Reply, StepFault>
    requires { IsSound C.World.World world.old journal.now }
    ensures told { IfOk result (RepliesAt C.World.World clock (λ moment. Admit moment find) world.old journal.now) }
    ensures tied { OnOk result (TakesInAt C.World.World clock (λ moment. Admit moment find)
        world.old journal.now world.new journal.now) }
    ensures same { OnErr result (TakesNothingIn C.World.World world.old journal.now world.new journal.now) }
    ensures faults { IfErr result (λ fault. (moment : ℕ) → IsFaultOf C.World.World world.old (Admit moment find) fault) }
    ensures free { IsAliveIn C.World.table C.World.face world.old journal.now.kept clock (pair_of find) → IsOk result }
    ensures sound { IsSoundAfter C.World.World 1 (pair_of find ∷ []) world.old journal.now world.new journal.now }
{
    // It is called for its clause `sound`: the kept commands are in order, and those that are undone are marked.
    let _undone = journal.undone();
    match world.admit(find, clock) {
        Ok(fate) => Ok(reply_of_fate(fate)),
        Err(WorldFault::Full { stored }) => Err(StepFault::Full { stored }),
        Err(WorldFault::NoMemory) => Err(StepFault::NoMemory),
    }
}

fn reply_of_fate(fate: Fate) -> Reply
    ensures { result ≡ reply_of_fate fate }
{
    match fate {
        Fate::Taken => Reply::Taken,
        Fate::Outranked => Reply::Outranked,
    }
}

/// Lets the world remove some of what has expired by the clock, and returns whether there may be more. If not, only what is needed counts.
pub(crate) fn sweep_some<C: BookChange>(
    journal: &Journal<C>,
    world: &mut C::World,
    clock: u64,
) -> bool
    requires { IsSound C.World.World world.old journal.now }
    ensures tied { StaysTied C.World.World clock world.old journal.now world.new }
    ensures sound { IsSoundAfter C.World.World 0 [] world.old journal.now world.new journal.now }
    ensures more { result ≡ true → C.World.unswept world.new clock < C.World.unswept world.old clock }
    ensures none { result ≡ false → C.World.unswept world.new clock ≡ 0 }
    ensures short { clock + 1 < 2 ^ 64 → C.World.unswept world.old clock ≤ C.World.unswept world.new clock + C.World.turn }
    ensures needed { result ≡ false → AreNeeded C.World.counts C.World.keeps C.World.face clock world.new }
{
    let _ = journal;
    world.sweep_some(clock)
}

/// Lets the world remove what has expired. `clock` is the clock after the sweep.
pub(crate) fn sweep<C: BookChange>(journal: &Journal<C>, world: &mut C::World, clock: u64)
    requires { IsSound C.World.World world.old journal.now }
    ensures tied { TakesInAt C.World.World clock Sweep world.old journal.now world.new journal.now }
    ensures sound { IsSoundAfter C.World.World 0 [] world.old journal.now world.new journal.now }
    ensures none { C.World.unswept world.new clock ≡ 0 }
{
    let _ = journal;
    world.sweep(clock);
}

/// Lets the world remove some of what has expired, at a sweep whose reply nobody reads. `clock` is the clock after the sweep.
pub(crate) fn sweep_unread<C: BookChange>(journal: &Journal<C>, world: &mut C::World, clock: u64)
    requires { IsSound C.World.World world.old journal.now }
    ensures tied { TakesInAt C.World.World clock Sweep world.old journal.now world.new journal.now }
    ensures sound { IsSoundAfter C.World.World 0 [] world.old journal.now world.new journal.now }
    ensures short { clock + 1 < 2 ^ 64 → C.World.unswept world.old clock ≤ C.World.unswept world.new clock + C.World.turn }
{
    let _ = journal;
    let _more = world.sweep_some(clock);
}

/// Lets the world forget a name.
pub(crate) fn forget<C: BookChange>(journal: &Journal<C>, world: &mut C::World, owner: &Name)
    requires { IsSound C.World.World world.old journal.now }
    ensures tied { TakesInAlways C.World.World (λ moment. Forget moment owner.now)
        world.old journal.now world.new journal.now }
    ensures gone { CountsNoneOf C.World.counts owner.now world.new }
    ensures room { (moment : ℕ) → MakesRoom C.World.World (Forget moment owner.now) world.old journal.now world.new }
    ensures sound { IsSoundAfter C.World.World 0 [] world.old journal.now world.new journal.now }
{
    // It is called for its clause `sound`: the kept commands are in order, and those that are undone are marked.
    let _undone = journal.undone();
    world.forget(owner);
}
