//! The changes in the way of an undo or a redo of a ticket.

ghost use Rattle.std.specs.Prelude.{◌≡◌};
ghost use Rattle.change_law.specs.Choice.{is_done};
ghost use Rattle.undo_journal.specs.Journal.{farther, is_from, is_one_table, is_passed, lies_in_way};

use change_law::{Change, KeptChange, Standing, World};

type Saved<C> = <<C as Change>::World as World>::Saved;

/// Whether a change of this table is in the way of the turn of a ticket: a later one in effect, or an earlier one that is undone.
pub(crate) fn lies_in_way<C: Change>(
    kept: &KeptChange<Saved<C>>,
    from: Standing,
    ticket: u64,
    table: Option<u8>,
) -> bool
    ensures { result ≡ lies_in_way C.World.table from ticket table kept.now }
{
    is_from(from, kept.standing)
        && is_passed(from, ticket, kept.ticket)
        && is_one_table(table, <C::World as World>::table(&kept.saved))
}

/// Whether a change stands as those that are turned from here.
pub(crate) fn is_from(from: Standing, standing: Standing) -> bool
    ensures { result ≡ is_from from standing }
{
    match from {
        Standing::Done => is_done(standing),
        _ => !is_done(standing),
    }
}

fn is_passed(from: Standing, ticket: u64, other: u64) -> bool
    ensures { result ≡ is_passed from ticket other }
{
    match from {
        Standing::Done => ticket < other,
        _ => other < ticket,
    }
}

/// The farthest ticket in the way of a turn, by the farthest so far: the last for an undo, the first for a redo.
pub(crate) fn farther(from: Standing, found: Option<u64>, ticket: u64) -> Option<u64>
    ensures { result ≡ farther from found ticket }
{
    match from {
        Standing::Done => Some(ticket),
        _ => match found {
            Some(first) => Some(first),
            None => Some(ticket),
        },
    }
}

/// Whether a change of this standing is in effect.
pub(crate) fn is_done(standing: Standing) -> bool
    ensures { result ≡ is_done standing }
{
    match standing {
        Standing::Done => true,
        Standing::Undone => false,
        Standing::Cleared => false,
    }
}

fn is_one_table(a: Option<u8>, b: Option<u8>) -> bool
    ensures { result ≡ is_one_table a b }
{
    match (a, b) {
        (Some(a), Some(b)) => a == b,
        _ => false,
    }
}
