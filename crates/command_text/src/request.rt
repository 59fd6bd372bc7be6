//! Requests, and the events that they become.

ghost use Rattle.std.specs.Prelude.{◌≡◌};
ghost use Rattle.command_text.specs.Request.{event_at};

use dns_name::Name;
use history::{Ask, Command, Event};

/// A request: an event without its moment.
#[derive(Drop)]
pub enum Request {
    /// A lookup or a list.
    Look(Ask),
    /// Frees what has expired.
    Sweep,
    /// Empties the cells of a name, whichever commands are in force. Scripts only.
    Forget { owner: Name },
    /// A command of the operator.
    Do(Command),
    /// Undoes the newest command.
    Undo,
    /// Redoes the command that was undone last.
    Redo,
    /// Undoes the command of a ticket.
    UndoOf { ticket: u64 },
    /// Redoes the command of a ticket.
    RedoOf { ticket: u64 },
}

/// The event of a request at a moment.
pub(crate) fn event_at(moment: u64, request: Request) -> Event
    ensures { result ≡ event_at moment request }
{
    match request {
        Request::Look(ask) => Event::Look { moment, ask },
        Request::Sweep => Event::Sweep { moment },
        Request::Forget { owner } => Event::Forget { moment, owner },
        Request::Do(command) => Event::Do { moment, command },
        Request::Undo => Event::Undo { moment },
        Request::Redo => Event::Redo { moment },
        Request::UndoOf { ticket } => Event::UndoOf { moment, ticket },
        Request::RedoOf { ticket } => Event::RedoOf { moment, ticket },
    }
}
