//! What a lookup would see right after an undo or a redo, of a world under its journal. Nothing is done and taken back.

ghost use Rattle.std.specs.Prelude.{◌⊎◌, IfOk};
ghost use Rattle.change_law.specs.declared.kept.Standing.TheVariants.{Done, Undone};
ghost use Rattle.undo_journal.specs.Journal.{CanBeTurned};
ghost use Rattle.world_book.specs.Held.{held_one};
ghost use Rattle.world_book.specs.Seen.{AnswersAfter, AnswersOverPlace, ShowsNextUndo};

use crate::commands::held_one;
use crate::world::{BookChange, BookWorld};
use dns_name::NoMemory;
use dns_text::Question;
use history::{Hidden, Move, Refusal, Seen};
use std::alloc::Global;
use undo_journal::{Journal, TicketReach};

/// The answer to a question right after an undo or a redo, or why that would be refused. `clock` is the clock at the lookup.
pub(crate) fn answer_after<C: BookChange>(
    alloc: Global,
    journal: &Journal<C>,
    world: &C::World,
    step: Move,
    question: &Question,
    clock: u64,
) -> Result<Seen, NoMemory>
    requires { C.World.keeps world.now journal.now.kept }
    ensures { IfOk result (AnswersAfter C.World.World step question.now clock world.now journal.now) }
{
    // It is called for its clause `sound`: the kept commands are in order, and those that are undone are marked.
    let _undone = journal.undone();
    match step {
        Move::Undo => match journal.last_done() {
            Some(place) => answer_at(alloc, journal, world, place, question, clock),
            None => Ok(Seen::Refused(Refusal::NothingToUndo)),
        },
        Move::Redo => match journal.last_undone() {
            Some(place) => answer_at(alloc, journal, world, place, question, clock),
            None => Ok(Seen::Refused(Refusal::NothingToRedo)),
        },
        Move::UndoOf { ticket } => match journal.reach(ticket) {
            TicketReach::At { place } => answer_at(alloc, journal, world, place, question, clock),
            TicketReach::NotKept => Ok(Seen::Refused(Refusal::NotKept)),
            TicketReach::Buried { ticket } => Ok(Seen::Refused(Refusal::Buried { ticket })),
        },
    }
}

/// The answer to a question, if the change at a place were undone, or redone.
fn answer_at<C: BookChange>(
    alloc: Global,
    journal: &Journal<C>,
    world: &C::World,
    place: usize,
    question: &Question,
    clock: u64,
) -> Result<Seen, NoMemory>
    requires keeps { C.World.keeps world.now journal.now.kept }
    requires turns { CanBeTurned C.World.table Done journal.now.kept place ⊎ CanBeTurned C.World.table Undone journal.now.kept place }
    ensures { IfOk result (AnswersOverPlace C.World.World world.now journal.now place question.now clock) }
{
    match journal.kept(place) {
        Some(kept) => world.answer_over(alloc, &kept.saved, question, clock),
        None => unreachable!(),
    }
}

/// Counts of how many names the flush of a ticket hides a cell, some names from a place on.
pub(crate) fn hidden_some<C: BookChange>(
    journal: &Journal<C>,
    world: &C::World,
    ticket: u64,
    from: u64,
    clock: u64,
) -> Hidden {
    match journal.reach(ticket) {
        TicketReach::At { place } => match journal.kept(place) {
            Some(kept) => world.hidden_some(&kept.saved, from, clock),
            None => Hidden::none(),
        },
        _ => Hidden::none(),
    }
}

/// The command that an undo would take back.
pub(crate) fn next_undo<C: BookChange>(journal: &Journal<C>) -> Result<Seen, NoMemory>
    ensures { IfOk result (ShowsNextUndo C.World.World journal.now) }
{
    // It is called for its clause `sound`: the kept commands are in order, and those that are undone are marked.
    let _undone = journal.undone();
    let Some(place) = journal.last_done() else {
        return Ok(Seen::Refused(Refusal::NothingToUndo));
    };
    match journal.kept(place) {
        Some(kept) => Ok(Seen::Command(held_one::<C>(kept)?)),
        None => unreachable!(),
    }
}
