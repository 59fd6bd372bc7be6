//! The turn of a kept change under its journal: where it stands, and where its ticket is.

ghost use Rattle.std.specs.Prelude.{◌≡◌, ◌<◌, length, vec_capacity};
ghost use Rattle.change_law.specs.declared.kept.Standing.TheVariants.{Done};
ghost use Rattle.change_law.specs.Choice.{turned};
ghost use Rattle.undo_journal.specs.Journal.{undone_with, without};

use change_law::Standing;

/// The standing of a change after its turn.
pub(crate) fn turned(from: Standing) -> Standing
    ensures { result ≡ turned from }
{
    match from {
        Standing::Done => Standing::Undone,
        _ => Standing::Done,
    }
}

/// Puts the ticket of an undone change at the end of the list of the undone, or leaves that of a redone one out.
pub(crate) fn turn_undone(undone: &mut Vec<u64>, from: Standing, ticket: u64)
    requires { from ≡ Done → length undone.old.items < vec_capacity undone.old }
    ensures undone { undone.new.items ≡ undone_with from ticket undone.old.items }
    ensures capacity { vec_capacity undone.new ≡ vec_capacity undone.old }
{
    match from {
        Standing::Done => {
            undone.push_reserved(ticket);
            return;
        }
        _ => {
            leave_out(undone, ticket);
            return;
        }
    }
}

// Leaves one ticket out of a list.
fn leave_out(tickets: &mut Vec<u64>, ticket: u64)
    ensures left { tickets.new.items ≡ without ticket tickets.old.items }
    ensures capacity { vec_capacity tickets.new ≡ vec_capacity tickets.old }
{
    tickets.retain(|t| *t != ticket);
}
