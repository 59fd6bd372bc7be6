//! The commands of a journal, the oldest first.

ghost use Rattle.std.specs.Prelude.{◌≡◌, ◌++◌, take, drop, IfOk, OnOk};
ghost use Rattle.history.specs.Journal.{buried_in};
ghost use Rattle.world_book.specs.Held.{held_in, held_one};

use crate::world::{BookChange, BookWorld};
use change_law::{Change, KeptChange, Standing, World};
use dns_name::NoMemory;
use history::{BuriedCommand, Journalled, buried};
use std::alloc::Global;
use undo_journal::Journal;

/// A copy of each command that can be undone or redone.
pub(crate) fn commands<C: BookChange>(
    alloc: Global,
    journal: &Journal<C>,
) -> Result<Vec<Journalled>, NoMemory>
    ensures { IfOk result (λ v. v.items ≡ held_in C.World.told journal.now.kept) }
{
    let mut commands = Vec::new(alloc);
    for place in 0..journal.len() {
        push_held(journal, place, &mut commands)?;
    }
    Ok(commands)
}

/// Those of them that another must be undone, or redone, before.
pub(crate) fn buried_commands<C: BookChange>(
    alloc: Global,
    journal: &Journal<C>,
) -> Result<Vec<BuriedCommand>, NoMemory>
    ensures { IfOk result (λ v. v.items ≡ buried_in (held_in C.World.told journal.now.kept)) }
{
    let commands = commands(alloc, journal)?;
    buried(alloc, commands.as_slice())
}

/// Adds the command at a place, if there is one.
fn push_held<C: BookChange>(
    journal: &Journal<C>,
    place: usize,
    commands: &mut Vec<Journalled>,
) -> Result<(), NoMemory>
    ensures { OnOk result (commands.new.items ≡ commands.old.items ++ held_in C.World.told (take 1 (drop place journal.now.kept))) }
{
    match journal.kept(place) {
        Some(kept) => {
            commands.push(held_one::<C>(kept)?)?;
            Ok(())
        }
        None => Ok(()),
    }
}

/// The command of a kept change.
pub(crate) fn held_one<C: BookChange>(
    kept: &KeptChange<<<C as Change>::World as World>::Saved>,
) -> Result<Journalled, NoMemory>
    ensures { IfOk result (λ held. held ≡ held_one C.World.told kept.now) }
{
    Ok(Journalled {
        ticket: kept.ticket,
        done: kept.standing == Standing::Done,
        command: <C::World as BookWorld>::command(&kept.saved).copy()?,
    })
}
