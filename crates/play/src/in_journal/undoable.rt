//! A world under a journal of its changes, so that they can be undone.

ghost use Rattle.std.specs.Prelude.{◌≡◌, ◌≤◌, []};

use change_law::{Change, ChangeFault};
use dns_name::NoMemory;
use std::alloc::Global;
use std::marker::Model;
use undo_journal::{Journal, Outcome};

/// So many changes are made at most.
const MOST_CHANGES: u64 = 1_000_000_000;

/// A world, and the journal of its changes. Contracts see the world alone.
#[derive(Drop)]
pub struct Undoable<C: Change> {
    world: C::World,
    journal: Journal<C>,
    // No ticket is greater.
    tickets: u64,
}

impl<C: Change> Model for Undoable<C> {
    ghost use Rattle.std.specs.Prelude.{◌≤◌};

    ghost Value = { C.World };

    ghost view = { λ u. u.world };

    ghost invariant = { λ u. C.World.keeps u.world u.journal.kept
        × ((C.World.newest u.world ≤ u.journal.tickets) × (u.journal.tickets ≤ u.tickets)) };
}

impl<C: Change> Undoable<C> {
    /// A world to which nothing has happened, and a journal that keeps so many changes.
    pub fn new(alloc: Global, world: C::World, limit: usize) -> Result<Undoable<C>, NoMemory>
        requires keeps { C.World.keeps world [] }
        requires newest { C.World.newest world ≡ 0 }
        requires limit { 1 ≤ limit }
    {
        let journal = Journal::new(alloc, limit)?;
        Ok(Undoable {
            world,
            journal,
            tickets: 0,
        })
    }

    /// The world as it is.
    pub fn world(&self) -> &C::World
        ensures { result.now ≡ self.now }
    {
        &self.world
    }

    /// Makes a change, and returns its ticket.
    pub fn make(&mut self, change: C) -> Result<u64, ChangeFault> {
        if self.tickets >= MOST_CHANGES {
            return Err(ChangeFault::NoMemory);
        }
        match self.journal.apply(&mut self.world, change) {
            Ok(ticket) => {
                self.tickets = ticket;
                Ok(ticket)
            }
            Err(fault) => Err(fault),
        }
    }

    /// Undoes the newest change, and returns its ticket. None if there is no such change.
    pub fn undo(&mut self) -> Result<Option<u64>, NoMemory> {
        match self.journal.undo(&mut self.world) {
            Ok(Some(ticket)) => Ok(Some(ticket)),
            Ok(None) => Ok(None),
            Err(e) => Err(e),
        }
    }

    /// Redoes the change that was undone last, and returns its ticket. None if there is no such change.
    pub fn redo(&mut self) -> Result<Option<u64>, NoMemory> {
        match self.journal.redo(&mut self.world) {
            Ok(Some(ticket)) => Ok(Some(ticket)),
            Ok(None) => Ok(None),
            Err(e) => Err(e),
        }
    }

    /// Undoes the change of a ticket, if it can be undone.
    pub fn undo_of(&mut self, ticket: u64) -> Result<Outcome, NoMemory> {
        match self.journal.undo_of(&mut self.world, ticket) {
            Ok(outcome) => Ok(outcome),
            Err(e) => Err(e),
        }
    }

    /// Redoes the change of a ticket, if it can be redone.
    pub fn redo_of(&mut self, ticket: u64) -> Result<Outcome, NoMemory> {
        match self.journal.redo_of(&mut self.world, ticket) {
            Ok(outcome) => Ok(outcome),
            Err(e) => Err(e),
        }
    }
}
