//! A change of a world, with its way back.

ghost use Rattle.std.specs.Prelude.{◌≡◌, ◌≤◌, ◌<◌, max, ℕ, Bool, false, Option, None, IfOk, IfErr, IsOk, OnOk, OnErr};
ghost use Rattle.dns_text.specs.declared.record.Question.{Question};
ghost use Rattle.change_law.specs.Made.{MakesChange, RefusesChange, RefusesTurn};
ghost use Rattle.change_law.specs.Effect.{effect, IsFaultFor};
ghost use Rattle.change_law.specs.Row.{CanTurn, IsSameKind, IsTurned, SettlesOldest, SettlesCleared, Turns};
ghost use Rattle.change_law.specs.Row.{IsNoMore, NeedsNoneUnless, StoresNoMoreCells};

use crate::fault::ChangeFault;
use crate::kept::Standing;
use crate::world::World;
use dns_name::NoMemory;

/// A change of a world. While the world keeps it, it can be undone and redone.
pub trait Change: Drop {
    type World: World;

    /// The code of the reason why these tables do not allow it, if they do not.
    ghost reason: { Self → Self.World.Tables → Option ℕ };

    /// The tables after it.
    ghost after: { Self → Self.World.Tables → Self.World.Tables };

    /// The questions whose cells it empties.
    ghost empties: { Self → Question → Bool };

    /// Whether it removes something from these tables.
    ghost removes: { Self → Self.World.Tables → Bool };

    /// The table that it changes, if it changes one.
    ghost table: { Self → Option ℕ };

    /// Its description.
    ghost told: { Self → Self.World.Told };

    /// The number of the table that it changes. A change of cells has none.
    fn table(&self) -> Option<u8>
        ensures { result ≡ table self.now };

    /// Makes the change under a new ticket. After that nothing can be redone.
    fn apply(
        self,
        world: &mut Self::World,
        ticket: u64,
    ) -> Result<<Self::World as World>::Saved, ChangeFault>
        requires { Self.World.newest world.old < ticket }
        ensures reason { OnOk result (reason self (Self.World.shown world.old).tables ≡ None) }
        ensures kind { IfOk result (λ saved. (Self.World.table saved ≡ table self) × (Self.World.told saved ≡ told self)) }

        // The world keeps it and clears the undone changes. In each choice with it, it has its effect.
        ensures row { IfOk result (MakesChange Self.World.World (effect (after self) (empties self)) ticket world.old world.new) }
        ensures newest { OnOk result (Self.World.newest world.new ≤ max (Self.World.newest world.old) ticket) }

        // Only if it removed something from the tables, its undo may need memory.
        ensures frees { IfOk result (NeedsNoneUnless (removes self (Self.World.shown world.old).tables) Self.World.needs_memory) }

        // If the tables allow it, the only fault is that there is no memory.
        ensures err { IfErr result (λ fault. IsFaultFor (reason self (Self.World.shown world.old).tables) fault) }
        ensures same { OnErr result (RefusesChange Self.World.World world.old world.new) }
        ensures store { StoresNoMoreCells Self.World.stored Self.World.limit Self.World.counts world.old world.new };

    /// Undoes a change that is in effect, or redoes one that is undone. No other change of its table that this goes past stands as it
    /// does: no later one if it is in effect, no earlier one if it is undone. No face changes.
    fn turn(
        world: &mut Self::World,
        from: Standing,
        saved: &mut <Self::World as World>::Saved,
    ) -> Result<(), NoMemory>
        requires { CanTurn Self.World.table Self.World.keeps from world.old saved.old }
        ensures row { OnOk result (Turns Self.World.table Self.World.keeps Self.World.face from world.old saved.old world.new saved.new) }
        ensures kind { OnOk result (IsSameKind Self.World.table Self.World.told saved.old saved.new) }
        ensures turned { OnOk result (IsTurned Self.World.needs_memory Self.World.needs_memory_after saved.old saved.new) }
        ensures free { Self.World.needs_memory saved.old ≡ false → IsOk result }
        ensures err { OnErr result (RefusesTurn Self.World.World world.old saved.old world.new saved.new) }
        ensures counts { IsNoMore Self.World.newest Self.World.stored Self.World.limit Self.World.counts world.old world.new };

    /// Stops keeping a change: the oldest, which stays in effect for good, or a cleared one, which never will be again.
    fn settle(world: &mut Self::World, saved: <Self::World as World>::Saved)
        ensures oldest { SettlesOldest Self.World.table Self.World.keeps Self.World.face world.old saved world.new }
        ensures cleared { SettlesCleared Self.World.table Self.World.keeps Self.World.face world.old saved world.new }
        ensures counts { IsNoMore Self.World.newest Self.World.stored Self.World.limit Self.World.counts world.old world.new };
}
