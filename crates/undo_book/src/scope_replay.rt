//! The cell of a name for finds of one scope, by a replay with none of the commands of the journal in force, or with one alone.

ghost use Rattle.std.specs.Prelude.{◌≡◌};
ghost use Rattle.history.specs.Journal.{commands_of, is_among, tickets_of};
ghost use Rattle.history.specs.OldestFound.{end_at, scope_covers, scope_end, scope_touches};
ghost use Rattle.undo_book.specs.Ends.{choice_of, has_chosen, replayed_after, replayed_after_indexed};
ghost use Rattle.undo_book.specs.Index.{tag_of};
ghost use Rattle.undo_book.specs.Plain.{content_of};
ghost use Rattle.undo_book.specs.PlainPast.{past_in};

use crate::index::{Indexed, tag};
use crate::log::Logged;
use crate::plain_history::PlainPast;
use dns_name::Name;
use history::{Command, Event, Journalled};
use ranked::{Cell, Find, Scope, SharedFind};

/// The finds of one scope of a name, and the command of the journal that is in force, if one is.
#[derive(Clone, Copy, Drop)]
struct Replay<'b> {
    owner: &'b Name,
    scope: Scope,
    journal: &'b [Journalled],
    own: Option<u64>,
}

impl Replay<'_> {
    /// Whether a command took a ticket and is in force.
    fn has(&self, logged: &Logged) -> bool
        ensures { result ≡ has_chosen (tickets_of self.now.journal.now) self.now.own logged.now }
    {
        match logged.entry.ticket {
            Some(ticket) => self.own == Some(ticket) || !logged.struck && !self.is_held(ticket),
            None => false,
        }
    }

    /// Whether the journal holds the command of a ticket.
    fn is_held(&self, ticket: u64) -> bool
        ensures { result ≡ is_among (tickets_of self.now.journal.now) ticket }
    {
        for command in self.journal {
            if command.ticket == ticket {
                return true;
            }
        }
        false
    }

    /// Whether a find is one of these.
    fn is_of(&self, find: &Find) -> bool
        ensures { result ≡ scope_touches self.now.owner.now self.now.scope find.now }
    {
        match self.scope {
            Scope::One(kind) => find.touches(self.owner, kind),
            Scope::Whole => find.scope == Scope::Whole && find.owner == *self.owner,
        }
    }

    /// Whether a command empties their cell.
    fn is_covered(&self, command: &Command) -> bool
        ensures { result ≡ scope_covers self.now.owner.now self.now.scope command.now }
    {
        match self.scope {
            Scope::One(kind) => command.covers(self.owner, kind),
            Scope::Whole => match command {
                Command::FlushZone { name } => self.owner.at_or_below(name),
                _ => false,
            },
        }
    }

    /// Their cell after an entry, if that is in force.
    fn after<'a>(&self, mut cell: Cell<&'a SharedFind>, logged: &'a Logged) -> Cell<&'a SharedFind>
        ensures { content_of result.held ≡ replayed_after self.now (content_of cell.entry.held) logged.now }
    {
        match &logged.entry.event {
            Event::Admit { find, .. } => {
                if self.is_of(find.find()) {
                    let _ = cell.admit(find.find(), find, logged.entry.moment);
                }
                cell
            }
            Event::Forget { owner, .. } => {
                if owner == self.owner {
                    Cell::empty()
                } else {
                    cell
                }
            }
            Event::Do { command, .. } => {
                if self.is_covered(command) && self.has(logged) {
                    Cell::empty()
                } else {
                    cell
                }
            }
            _ => cell,
        }
    }

    /// Their cell after the entry that the index names, if that is in force and about their name, which has this tag.
    fn after_indexed<'a>(
        &self,
        log: &'a [Logged],
        tag: u64,
        cell: Cell<&'a SharedFind>,
        indexed: &Indexed,
    ) -> Cell<&'a SharedFind>
        requires { tag ≡ tag_of self.now.owner.now }
        ensures { content_of result.held ≡ replayed_after_indexed self.now log.now (content_of cell.entry.held) indexed.now }
    {
        if !indexed.concerns(tag) {
            return cell;
        }
        match log.get(indexed.at) {
            Some(logged) => self.after(cell, logged),
            None => cell,
        }
    }
}

/// The second in which the life of a cell's find ends, if that is alive at a moment; else 0. Of the commands of the journal none is
/// in force, or this one alone.
pub(crate) fn scope_end(
    past: &PlainPast,
    journal: &[Journalled],
    own: Option<u64>,
    owner: &Name,
    scope: Scope,
    moment: u64,
) -> u128
    requires journal { journal.now ≡ commands_of (past_in past.now) }
    ensures { result ≡ scope_end (past_in past.now) moment owner.now scope (choice_of (past_in past.now) own) }
{
    let tag = tag(owner);
    let replay = Replay {
        owner,
        scope,
        journal,
        own,
    };
    let mut cell = Cell::empty();
    for indexed in &past.index {
        cell = replay.after_indexed(&past.log, tag, cell, indexed);
    }
    end_at(&cell, moment)
}

/// The second in which the life of a cell's find ends, if that is alive at a moment; else 0.
fn end_at(cell: &Cell<&SharedFind>, moment: u64) -> u128
    ensures { result ≡ end_at moment (content_of cell.now.held) }
{
    match &cell.held {
        Some(held) => {
            if held.is_alive(moment) {
                u128::from(held.since) + u128::from(held.ttl)
            } else {
                0
            }
        }
        None => 0,
    }
}
