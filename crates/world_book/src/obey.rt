//! Events of a world under its journal.

ghost use Rattle.std.specs.Prelude.{◌<◌, ◌^◌, IfOk, IfErr, OnOk, OnErr};
ghost use Rattle.world_book.specs.Step.{IsSound, IsSoundAfterEvent, IsFaultOf};
ghost use Rattle.world_book.specs.Tied.{Discards, GainsNeeds, IsHistoryReply, IsTakenIfFree, TakesIn, TakesNothingIn};

use crate::admissions::{admit, forget, sweep};
use crate::obey_command::give;
use crate::seen::seen;
use crate::undo_redo::{turn, turn_of};
use crate::world::BookChange;
use change_law::Standing;
use history::{Event, Reply, Settings, StepFault};
use std::alloc::Global;
use undo_journal::Journal;

/// Obeys an event. `clock` is the clock after it.
pub(crate) fn obey<C: BookChange>(
    alloc: Global,
    settings: &Settings,
    journal: &mut Journal<C>,
    world: &mut C::World,
    event: Event,
    clock: u64,
) -> Result<Reply, StepFault>
    requires { IsSound C.World.World world.old journal.old × (journal.old.tickets < 2 ^ 62) }
    ensures told { IfOk result (λ reply. IsHistoryReply C.World.World settings.now clock event world.old journal.old reply) }
    ensures tied { OnOk result (TakesIn C.World.World clock event world.old journal.old world.new journal.new) }
    ensures same { OnErr result (TakesNothingIn C.World.World world.old journal.old world.new journal.new) }
    ensures faults { IfErr result (λ fault. IsFaultOf C.World.World world.old event fault) }
    ensures free { IsTakenIfFree C.World.World clock event world.old journal.old result }
    ensures sound { IsSoundAfterEvent C.World.World event world.old journal.old world.new journal.new }
    ensures gone { OnOk result (Discards C.World.World clock event world.old journal.old world.new) }
    ensures needs { OnOk result (GainsNeeds C.World.World event world.old journal.old journal.new) }
{
    // It is called for its clause `sound`: the kept commands are in order, and those that are undone are marked.
    let _undone = journal.undone();
    match event {
        Event::Admit { find, .. } => match admit(journal, world, find, clock) {
            Ok(reply) => Ok(reply),
            Err(fault) => Err(fault),
        },
        Event::Look { ask, .. } => Ok(Reply::Seen(seen(
            alloc, settings, journal, world, &ask, clock,
        )?)),
        Event::Sweep { .. } => {
            sweep(journal, world, clock);
            Ok(Reply::Swept)
        }
        Event::Forget { owner, .. } => {
            forget(journal, world, &owner);
            Ok(Reply::Forgotten)
        }
        Event::Do { command, .. } => Ok(give(journal, world, command)?),
        Event::Undo { .. } => Ok(turn(journal, world, Standing::Done)?),
        Event::Redo { .. } => Ok(turn(journal, world, Standing::Undone)?),
        Event::UndoOf { ticket, .. } => Ok(turn_of(journal, world, Standing::Done, ticket)?),
        Event::RedoOf { ticket, .. } => Ok(turn_of(journal, world, Standing::Undone, ticket)?),
    }
}
