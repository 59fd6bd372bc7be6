//! Lookups in a world under its journal.

ghost use Rattle.std.specs.Prelude.{IfOk};
ghost use Rattle.world_book.specs.Seen.{IsOldestIn, SeesHistory};
ghost use Rattle.world_book.specs.Step.{IsSound};

use crate::commands::{buried_commands, commands};
use crate::preview::{answer_after, next_undo};
use crate::world::{BookChange, BookWorld};
use change_law::World;
use dns_name::{Name, NoMemory};
use dns_text::{Items, Shared};
use history::{
    Ask, Seen, Settings, closest_servers, question_sight, share_records, share_stubs, share_zones,
};
use std::alloc::Global;
use undo_journal::Journal;

// The name to forget first at the clock, if any name has a find that is alive.
fn oldest<C: BookChange>(
    journal: &Journal<C>,
    world: &C::World,
    clock: u64,
) -> Result<Option<Name>, NoMemory>
    ensures { IfOk result (IsOldestIn C.World.World clock world.now journal.now) }
{
    // It is called for its clause `sound`: the kept commands are in order, and those that are undone are marked.
    let _undone = journal.undone();
    match world.oldest(clock) {
        Some(name) => Ok(Some(name.clone()?)),
        None => Ok(None),
    }
}

/// The result of a lookup. `clock` is the clock at the lookup.
pub(crate) fn seen<C: BookChange>(
    alloc: Global,
    settings: &Settings,
    journal: &Journal<C>,
    world: &C::World,
    ask: &Ask,
    clock: u64,
) -> Result<Seen, NoMemory>
    requires { IsSound C.World.World world.now journal.now }
    ensures { IfOk result (SeesHistory C.World.World settings.now clock ask.now world.now journal.now) }
{
    // It is called for its clause `sound`: the kept commands are in order, and those that are undone are marked.
    let _undone = journal.undone();
    let tables = world.tables();
    match ask {
        Ask::Answer(question) => {
            let seen = question_sight(world, &tables.local, question, clock).to_seen(alloc)?;
            Ok(seen)
        }
        Ask::Zones => Ok(Seen::Zones(Items::new(share_zones(alloc, tables.local.zones())?))),
        Ask::Records => Ok(Seen::Records(Items::new(share_records(
            alloc,
            tables.local.records(),
        )?))),
        Ask::Stubs => Ok(Seen::Stubs(Items::new(share_stubs(alloc, tables.stubs.stubs())?))),
        Ask::Commands => Ok(Seen::Commands(Items::new(commands(alloc, journal)?))),
        Ask::Buried => Ok(Seen::Buried(Items::new(buried_commands(alloc, journal)?))),
        Ask::Servers(name) => {
            let found = closest_servers(alloc, settings, world, &tables.stubs, name, clock)?;
            Ok(Seen::Servers(Shared::new(alloc, found)?))
        }
        Ask::Oldest => Ok(Seen::Oldest(oldest(journal, world, clock)?)),
        Ask::After { step, question } => {
            answer_after(alloc, journal, world, *step, question, clock)
        }
        Ask::NextUndo => next_undo(journal),
    }
}
