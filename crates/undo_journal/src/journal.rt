//! The journal: a bounded ring of changes, for undo and redo.

ghost use Rattle.std.specs.Prelude.{◌≡◌, ◌≢◌, ◌≤◌, ◌<◌, ◌^◌, [], false, length, filter, slice_get, vec_capacity, option_map, None, Some, IfOk, IfErr, IfSome, IfNone, IsOk, OnErr, OnOk};
ghost use Rattle.change_law.specs.declared.kept.Standing.TheVariants.{Cleared};
ghost use Rattle.change_law.specs.Effect.{IsFaultFor};
ghost use Rattle.change_law.specs.Row.{IsNoMore};

use crate::outcome::{Outcome, TicketReach};
use crate::reach::{farther, is_from, lies_in_way};
use crate::settling::settle_undone;
use crate::turning::{turn_undone, turned};
use change_law::{Change, ChangeFault, KeptChange, Standing, World};
use circular_buffer::HeapCircularBuffer;
use dns_name::NoMemory;
use std::alloc::Global;
use std::marker::Model;

type Saved<C> = <<C as Change>::World as World>::Saved;

/// The newest changes of a world, the oldest first, in effect or undone.
///
/// An undo takes the last change in effect, a redo the one that was undone last, and either may name another by its ticket.
/// The ring and the list of the undone take all their memory when the journal is made.
#[derive(Drop)]
pub struct Journal<C: Change> {
    ring: HeapCircularBuffer<KeptChange<Saved<C>>>,
    // The tickets of the undone changes, the one that was undone last at the end.
    undone: Vec<u64>,
    tickets: u64,
}

impl<C: Change> Model for Journal<C> {
    ghost use Rattle.std.specs.Prelude.{◌≤◌, vec_capacity};
    ghost use Rattle.undo_journal.specs.Journal.{Changes, AreChanges};

    ghost Value = { Changes C.World.Saved };

    ghost view = { λ j. record { kept = j.ring.items; undone = j.undone.items; tickets = j.tickets; limit = j.ring.capacity } };

    ghost invariant = { λ j. AreChanges C.World.table
        (record { kept = j.ring.items; undone = j.undone.items; tickets = j.tickets; limit = j.ring.capacity })
        × (j.ring.capacity ≤ vec_capacity j.undone) };
}

impl<C: Change> Journal<C> {
    ghost use Rattle.undo_journal.specs.Journal.{AreChanges, CanBeTurned, HasTurned, IsForgotten, IsNextRedo, IsNextTurn, IsNextUndo, IsPlaceOf, IsReach, IsReachFrom, IsRedo, IsRedoOf, IsTurn, IsTurnOf, IsUndo, IsUndoOf, NeedsNone};
    ghost use Rattle.undo_journal.specs.Journal.{done_of, farthest, in_effect, is_among, is_from, lies_in_way, ticket_at, tickets_of, turnable, with_done};
    ghost use Rattle.undo_journal.specs.Moving.{ChangesNothing, MovesStandings, SettlesForOneMore, SettlesUndone, ShowsChange, StoresNoMore, Takes};
    ghost use Rattle.undo_journal.specs.Needs.{HoldsIfRedoIsFree, HoldsIfTurnIsFree, HoldsIfUndoIsFree, TurnNeedsNone, UndoNeedsNone};

    /// An empty journal, which keeps at most `limit` changes. It takes all its memory here.
    pub fn new(alloc: Global, limit: usize) -> Result<Journal<C>, NoMemory>
        requires { 1 ≤ limit }
        ensures { IfOk result (λ j. j ≡ record { kept = []; undone = []; tickets = 0; limit = limit }) }
    {
        Ok(Journal {
            ring: HeapCircularBuffer::with_capacity(alloc, limit)?,
            undone: Vec::with_capacity(alloc, limit)?,
            tickets: 0,
        })
    }

    /// Undoes the newest change in effect, and returns its ticket. None if there is no such change. On an error nothing changes.
    pub fn undo(&mut self, world: &mut C::World) -> Result<Option<u64>, NoMemory>
        requires { C.World.keeps world.old self.old.kept }
        ensures ticket { IfOk result (λ ticket. IsUndo self.old ticket self.new) }
        ensures free { HoldsIfUndoIsFree C.World.needs_memory self.old (IsOk result) }
        ensures moved { OnOk result (MovesStandings C.World.World world.old self.old world.new self.new) }
        ensures err { OnErr result (ChangesNothing C.World.World world.old self.old world.new self.new) }
        ensures counts { IsNoMore C.World.newest C.World.stored C.World.limit C.World.counts world.old world.new }
    {
        self.turn(world, Standing::Done)
    }

    /// Redoes the change that was undone last, and returns its ticket. None if there is no such change. On an error nothing changes.
    pub fn redo(&mut self, world: &mut C::World) -> Result<Option<u64>, NoMemory>
        requires { C.World.keeps world.old self.old.kept }
        ensures ticket { IfOk result (λ ticket. IsRedo self.old ticket self.new) }
        ensures free { HoldsIfRedoIsFree C.World.needs_memory self.old (IsOk result) }
        ensures moved { OnOk result (MovesStandings C.World.World world.old self.old world.new self.new) }
        ensures err { OnErr result (ChangesNothing C.World.World world.old self.old world.new self.new) }
        ensures counts { IsNoMore C.World.newest C.World.stored C.World.limit C.World.counts world.old world.new }
    {
        self.turn(world, Standing::Undone)
    }

    /// Undoes the newest change in effect, or redoes the change that was undone last, and returns its ticket. None if there is no
    /// such change. On an error nothing changes.
    pub fn turn(&mut self, world: &mut C::World, from: Standing) -> Result<Option<u64>, NoMemory>
        requires keeps { C.World.keeps world.old self.old.kept }
        requires live { from ≢ Cleared }
        ensures ticket { IfOk result (λ ticket. IsTurn from self.old ticket self.new) }
        ensures free { HoldsIfTurnIsFree C.World.needs_memory from self.old (IsOk result) }
        ensures moved { OnOk result (MovesStandings C.World.World world.old self.old world.new self.new) }
        ensures err { OnErr result (ChangesNothing C.World.World world.old self.old world.new self.new) }
        ensures counts { IsNoMore C.World.newest C.World.stored C.World.limit C.World.counts world.old world.new }
    {
        match self.next(from) {
            Some(place) => {
                let ticket = self.turn_at(world, from, place)?;
                Ok(Some(ticket))
            }
            None => Ok(None),
        }
    }

    /// Undoes the change of a ticket, if it is in effect and no later one of its table is. On an error nothing changes.
    pub fn undo_of(&mut self, world: &mut C::World, ticket: u64) -> Result<Outcome, NoMemory>
        requires { C.World.keeps world.old self.old.kept }
        ensures outcome { IfOk result (λ outcome. IsUndoOf C.World.table self.old ticket outcome self.new) }
        ensures free { UndoNeedsNone C.World.needs_memory self.old.kept ticket → IsOk result }
        ensures moved { OnOk result (MovesStandings C.World.World world.old self.old world.new self.new) }
        ensures err { OnErr result (ChangesNothing C.World.World world.old self.old world.new self.new) }
        ensures counts { IsNoMore C.World.newest C.World.stored C.World.limit C.World.counts world.old world.new }
    {
        self.turn_of(world, Standing::Done, ticket)
    }

    /// Redoes the change of a ticket, if it is undone and no earlier one of its table is. On an error nothing changes.
    pub fn redo_of(&mut self, world: &mut C::World, ticket: u64) -> Result<Outcome, NoMemory>
        requires { C.World.keeps world.old self.old.kept }
        ensures outcome { IfOk result (λ outcome. IsRedoOf C.World.table self.old ticket outcome self.new) }
        ensures free { NeedsNone C.World.needs_memory self.old.kept ticket → IsOk result }
        ensures moved { OnOk result (MovesStandings C.World.World world.old self.old world.new self.new) }
        ensures err { OnErr result (ChangesNothing C.World.World world.old self.old world.new self.new) }
        ensures counts { IsNoMore C.World.newest C.World.stored C.World.limit C.World.counts world.old world.new }
    {
        self.turn_of(world, Standing::Undone, ticket)
    }

    /// Undoes or redoes the change of a ticket, if it stands so and no other one of its table is in the way. On an error nothing changes.
    pub fn turn_of(
        &mut self,
        world: &mut C::World,
        from: Standing,
        ticket: u64,
    ) -> Result<Outcome, NoMemory>
        requires keeps { C.World.keeps world.old self.old.kept }
        requires live { from ≢ Cleared }
        ensures outcome { IfOk result (λ outcome. IsTurnOf C.World.table from self.old ticket outcome self.new) }
        ensures free { TurnNeedsNone C.World.needs_memory from self.old.kept ticket → IsOk result }
        ensures moved { OnOk result (MovesStandings C.World.World world.old self.old world.new self.new) }
        ensures err { OnErr result (ChangesNothing C.World.World world.old self.old world.new self.new) }
        ensures counts { IsNoMore C.World.newest C.World.stored C.World.limit C.World.counts world.old world.new }
    {
        match self.reach_from(from, ticket) {
            TicketReach::At { place } => {
                self.turn_at(world, from, place)?;
                Ok(Outcome::Moved)
            }
            TicketReach::Buried { ticket: other } => Ok(Outcome::Buried { ticket: other }),
            TicketReach::NotKept => Ok(Outcome::NotKept),
        }
    }

    /// Makes a change. If the world accepts it, it takes the next ticket, and the undone changes cannot be redone any more.
    /// On an error nothing changes.
    pub fn apply(&mut self, world: &mut C::World, change: C) -> Result<u64, ChangeFault>
        requires keeps { C.World.keeps world.old self.old.kept }
        requires tickets { (C.World.newest world.old ≤ self.old.tickets) × (self.old.tickets < 2 ^ 62) }
        ensures reason { OnOk result (C.reason change (C.World.shown world.old).tables ≡ None) }
        ensures ticket { IfOk result (Takes C.World.World (C.told change) (C.table change) (C.removes change)
            world.old self.old self.new) }
        ensures row { IfOk result (ShowsChange C.World.World (C.after change) (C.empties change)
            world.old self.old world.new self.new) }
        ensures err { IfErr result (λ fault. IsFaultFor (C.reason change (C.World.shown world.old).tables) fault) }
        ensures same { OnErr result (ChangesNothing C.World.World world.old self.old world.new self.new) }
        ensures counts { StoresNoMore C.World.World self.new.tickets world.old world.new }
    {
        let ticket = self.tickets + 1;
        let saved = change.apply(world, ticket)?;
        self.clear(world);
        self.forget(world);
        self.keep(ticket, saved);
        Ok(ticket)
    }

    /// The number of undone changes.
    pub fn undone(&self) -> usize
        ensures count { result ≡ length self.now.undone }
        ensures sound { AreChanges C.World.table self.now }
    {
        self.undone.len()
    }

    /// The number of kept changes.
    pub fn len(&self) -> usize
        ensures { result ≡ length self.now.kept }
    {
        self.ring.len()
    }

    /// The kept change at a place, counted from the oldest.
    pub fn kept(&self, place: usize) -> Option<&KeptChange<Saved<C>>>
        ensures { option_map (λ k. k.now) result ≡ slice_get self.now.kept place }
    {
        self.ring.get(place)
    }

    /// What an undo of a ticket would do. Nothing changes.
    pub fn reach(&self, ticket: u64) -> TicketReach
        ensures { IsReach C.World.table self.now ticket result }
    {
        self.reach_from(Standing::Done, ticket)
    }

    // What a turn of a ticket would do.
    fn reach_from(&self, from: Standing, ticket: u64) -> TicketReach
        requires { from ≢ Cleared }
        ensures { IsReachFrom C.World.table from self.now ticket result }
    {
        match self.place_of(ticket) {
            Some(place) => {
                if self.is_from_at(from, place) {
                    match self.in_way(from, ticket, self.table_at(place)) {
                        Some(other) => TicketReach::Buried { ticket: other },
                        None => TicketReach::At { place },
                    }
                } else {
                    TicketReach::NotKept
                }
            }
            None => TicketReach::NotKept,
        }
    }

    // Undoes or redoes the change at a place, and returns its ticket.
    fn turn_at(
        &mut self,
        world: &mut C::World,
        from: Standing,
        place: usize,
    ) -> Result<u64, NoMemory>
        requires keeps { C.World.keeps world.old self.old.kept }
        requires turns { CanBeTurned C.World.table from self.old.kept place }
        requires live { from ≢ Cleared }
        ensures ticket { IfOk result (λ ticket. HasTurned from self.old ticket self.new × (ticket_at self.old.kept place ≡ Some ticket)) }
        ensures free { IfSome (slice_get self.old.kept place) (λ k. C.World.needs_memory k.saved ≡ false) → IsOk result }
        ensures moved { OnOk result (MovesStandings C.World.World world.old self.old world.new self.new) }
        ensures err { OnErr result (ChangesNothing C.World.World world.old self.old world.new self.new) }
        ensures counts { IsNoMore C.World.newest C.World.stored C.World.limit C.World.counts world.old world.new }
    {
        match self.ring.get_mut(place) {
            Some(kept) => {
                C::turn(world, from, &mut kept.saved)?;
                kept.standing = turned(from);
                let ticket = kept.ticket;
                turn_undone(&mut self.undone, from, ticket);
                Ok(ticket)
            }
            None => unreachable!(),
        }
    }

    // The place of the last change that can be turned.
    fn next(&self, from: Standing) -> Option<usize>
        requires { from ≢ Cleared }
        ensures none { IfNone result (turnable from self.now ≡ []) }
        ensures some { IfSome result (IsNextTurn C.World.table from self.now) }
    {
        match from {
            Standing::Done => self.last_done(),
            _ => self.last_undone(),
        }
    }

    /// The place of the newest change in effect: the one that `undo` takes back.
    pub fn last_done(&self) -> Option<usize>
        ensures none { IfNone result (done_of self.now ≡ []) }
        ensures some { IfSome result (IsNextUndo C.World.table self.now) }
    {
        let len = self.ring.len();
        for back in 0..len {
            let place = len - 1 - back;
            if self.is_from_at(Standing::Done, place) {
                return Some(place);
            }
        }
        None
    }

    /// The place of the change that was undone last: the one that `redo` puts back.
    pub fn last_undone(&self) -> Option<usize>
        ensures none { IfNone result (self.now.undone ≡ []) }
        ensures some { IfSome result (IsNextRedo C.World.table self.now) }
    {
        match self.undone.last() {
            Some(ticket) => match self.place_of(*ticket) {
                Some(place) => Some(place),
                None => None,
            },
            None => None,
        }
    }

    // Whether the change at a place stands as those that are turned from here.
    fn is_from_at(&self, from: Standing, place: usize) -> bool
        ensures { IfSome (slice_get self.now.kept place) (λ k. result ≡ is_from from k.standing) }
    {
        match self.ring.get(place) {
            Some(kept) => is_from(from, kept.standing),
            None => false,
        }
    }

    // The table of the change at a place.
    fn table_at(&self, place: usize) -> Option<u8>
        ensures { IfSome (slice_get self.now.kept place) (λ k. result ≡ C.World.table k.saved) }
    {
        match self.ring.get(place) {
            Some(kept) => <C::World as World>::table(&kept.saved),
            None => None,
        }
    }

    // The place of the kept change of a ticket.
    fn place_of(&self, ticket: u64) -> Option<usize>
        ensures none { IfNone result (is_among (tickets_of self.now.kept) ticket ≡ false) }
        ensures some { IfSome result (λ place. IsPlaceOf C.World.table self.now.kept ticket place) }
        ensures sound { AreChanges C.World.table self.now }
    {
        for place in 0..self.ring.len() {
            if let Some(kept) = self.ring.get(place) {
                if kept.ticket == ticket {
                    return Some(place);
                }
            }
        }
        None
    }

    // The farthest ticket of this table in the way of the turn of a ticket: the greatest later one in effect, or the least earlier one
    // that is undone.
    fn in_way(&self, from: Standing, ticket: u64, table: Option<u8>) -> Option<u64>
        ensures { result ≡ farthest from (tickets_of (filter (lies_in_way C.World.table from ticket table) self.now.kept)) }
    {
        let mut found = None;
        for place in 0..self.ring.len() {
            if let Some(kept) = self.ring.get(place) {
                if lies_in_way::<C>(kept, from, ticket, table) {
                    found = farther(from, found, kept.ticket);
                }
            }
        }
        found
    }

    // Settles the undone changes.
    fn clear(&mut self, world: &mut C::World)
        ensures kept { self.new ≡ record self.old { kept = in_effect self.old.kept; undone = [] } }
        ensures row { SettlesUndone C.World.World world.old self.old.kept world.new self.new.kept }
        ensures counts { IsNoMore C.World.newest C.World.stored C.World.limit C.World.counts world.old world.new }
        ensures sound { AreChanges C.World.table self.old }
    {
        if self.undone.is_empty() {
            return;
        }
        settle_undone::<C>(&mut self.ring, world);
        self.undone.clear();
    }

    // Settles the oldest change, if the ring is full.
    fn forget(&mut self, world: &mut C::World)
        requires { self.old.undone ≡ [] }
        ensures kept { IsForgotten self.old self.new }
        ensures row { SettlesForOneMore C.World.World self.old.limit world.old self.old.kept world.new self.new.kept }
        ensures counts { IsNoMore C.World.newest C.World.stored C.World.limit C.World.counts world.old world.new }
    {
        if self.ring.is_full() {
            if let Some(oldest) = self.ring.pop_front() {
                C::settle(world, oldest.saved);
            }
        }
    }

    // Keeps one more change.
    fn keep(&mut self, ticket: u64, saved: Saved<C>)
        requires room { length self.old.kept < self.old.limit }
        requires undone { self.old.undone ≡ [] }
        requires next { self.old.tickets < ticket }
        ensures { self.new ≡ with_done ticket saved self.old }
    {
        self.ring.push_back(KeptChange {
            ticket,
            standing: Standing::Done,
            saved,
        });
        self.tickets = ticket;
    }
}
