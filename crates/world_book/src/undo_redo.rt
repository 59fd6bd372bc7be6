//! Undos and redos of a world under its journal.

ghost use Rattle.std.specs.Prelude.{◌≡◌, ◌≢◌, [], ℕ, IfOk, IsOk, OnOk, OnErr};
ghost use Rattle.change_law.specs.declared.kept.Standing.TheVariants.{Cleared};
ghost use Rattle.undo_journal.specs.Needs.{HaveNeeds};
ghost use Rattle.world_book.specs.Step.{IsSound, IsSoundAfter, IsFree};
ghost use Rattle.world_book.specs.Tied.{RepliesAlways, TakesInAlways, TakesNothingIn};
ghost use Rattle.world_book.specs.Turned.{reply_to_turn, turn_event, turn_of_event, turn_told};

use crate::world::BookChange;
use change_law::Standing;
use dns_name::NoMemory;
use history::Reply;
use undo_journal::{Journal, Outcome};

/// Takes back the newest command that can be undone, or puts back the command that was undone last.
pub(crate) fn turn<C: BookChange>(
    journal: &mut Journal<C>,
    world: &mut C::World,
    from: Standing,
) -> Result<Reply, NoMemory>
    requires sound { IsSound C.World.World world.old journal.old }
    requires live { from ≢ Cleared }
    ensures told { IfOk result (RepliesAlways C.World.World (turn_event from) world.old journal.old) }
    ensures tied { OnOk result (TakesInAlways C.World.World (turn_event from) world.old journal.old world.new journal.new) }
    ensures same { OnErr result (TakesNothingIn C.World.World world.old journal.old world.new journal.new) }
    ensures free { (moment : ℕ) → IsFree C.World.needs_memory journal.old (turn_event from moment) → IsOk result }
    ensures sound { IsSoundAfter C.World.World 0 [] world.old journal.old world.new journal.new }
    ensures needs { OnOk result (HaveNeeds C.World.needs_memory C.World.needs_memory_after journal.old journal.new) }
{
    // It is called for its clause `sound`: the kept commands are in order, and those that are undone are marked.
    let _undone = journal.undone();
    let ticket = journal.turn(world, from)?;
    Ok(reply_to_turn(from, ticket))
}

/// Takes back or puts back the command of a ticket, if it can be undone, or redone.
pub(crate) fn turn_of<C: BookChange>(
    journal: &mut Journal<C>,
    world: &mut C::World,
    from: Standing,
    ticket: u64,
) -> Result<Reply, NoMemory>
    requires sound { IsSound C.World.World world.old journal.old }
    requires live { from ≢ Cleared }
    ensures told { IfOk result (RepliesAlways C.World.World (turn_of_event from ticket) world.old journal.old) }
    ensures tied { OnOk result (TakesInAlways C.World.World (turn_of_event from ticket) world.old journal.old world.new journal.new) }
    ensures same { OnErr result (TakesNothingIn C.World.World world.old journal.old world.new journal.new) }
    ensures free { (moment : ℕ) → IsFree C.World.needs_memory journal.old (turn_of_event from ticket moment) → IsOk result }
    ensures sound { IsSoundAfter C.World.World 0 [] world.old journal.old world.new journal.new }
    ensures needs { OnOk result (HaveNeeds C.World.needs_memory C.World.needs_memory_after journal.old journal.new) }
{
    // It is called for its clause `sound`: the kept commands are in order, and those that are undone are marked.
    let _undone = journal.undone();
    let outcome = journal.turn_of(world, from, ticket)?;
    Ok(turn_told(from, outcome, ticket))
}

fn turn_told(from: Standing, outcome: Outcome, ticket: u64) -> Reply
    ensures { result ≡ turn_told from outcome ticket }
{
    match outcome {
        Outcome::Moved => reply_to_turn(from, Some(ticket)),
        Outcome::NotKept => Reply::NotKept,
        Outcome::Buried { ticket } => Reply::Buried { ticket },
    }
}

fn reply_to_turn(from: Standing, ticket: Option<u64>) -> Reply
    ensures { result ≡ reply_to_turn from ticket }
{
    match from {
        Standing::Done => match ticket {
            Some(ticket) => Reply::Undone { ticket },
            None => Reply::NothingToUndo,
        },
        _ => match ticket {
            Some(ticket) => Reply::Redone { ticket },
            None => Reply::NothingToRedo,
        },
    }
}
