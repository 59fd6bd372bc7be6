//! Commands to a world under its journal.

ghost use Rattle.std.specs.Prelude.{◌≡◌, ◌<◌, ◌^◌, [], ℕ, IfOk, OnOk, OnErr};
ghost use Rattle.history.specs.declared.event.Event.TheVariants.{Do};
ghost use Rattle.history.specs.declared.event.Reason.{Reason};
ghost use Rattle.world_book.specs.Step.{IsSound, IsSoundAfter, code_of};
ghost use Rattle.world_book.specs.Tied.{GainsNeeds, RepliesAlways, TakesInAlways, TakesNothingIn};

use crate::world::BookChange;
use change_law::ChangeFault;
use dns_name::NoMemory;
use history::{Command, Reason, Reply};
use std::alloc::AllocError;
use undo_journal::Journal;

/// Makes the change of a command, or returns why it is refused.
pub(crate) fn give<C: BookChange>(
    journal: &mut Journal<C>,
    world: &mut C::World,
    command: Command,
) -> Result<Reply, NoMemory>
    requires sound { IsSound C.World.World world.old journal.old }
    requires few { journal.old.tickets < 2 ^ 62 }
    ensures told { IfOk result (RepliesAlways C.World.World (λ moment. Do moment command) world.old journal.old) }
    ensures tied { OnOk result (TakesInAlways C.World.World (λ moment. Do moment command)
        world.old journal.old world.new journal.new) }
    ensures same { OnErr result (TakesNothingIn C.World.World world.old journal.old world.new journal.new) }
    ensures sound { IsSoundAfter C.World.World 0 [] world.old journal.old world.new journal.new }
    ensures needs { OnOk result ((moment : ℕ) →
        GainsNeeds C.World.World (Do moment command) world.old journal.old journal.new) }
{
    // It is called for its clause `sound`: the kept commands are in order, and those that are undone are marked.
    let _undone = journal.undone();
    let change = C::of(command)?;
    match journal.apply(world, change) {
        Ok(ticket) => Ok(Reply::Done { ticket }),
        Err(ChangeFault::Refused(code)) => Ok(Reply::Refused(reason_coded(code))),
        Err(ChangeFault::NoMemory) => Err(AllocError),
    }
}

/// The reason that a change returns as this number.
fn reason_coded(code: u8) -> Reason
    ensures { (reason : Reason) → code ≡ code_of reason → result ≡ reason }
{
    match code {
        1 => Reason::BelowRedirect,
        2 => Reason::DataBelow,
        3 => Reason::CnameClash,
        _ => Reason::TooMany,
    }
}
