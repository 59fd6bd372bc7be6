//! The cache as a world, and flushes as its changes.

ghost use Rattle.std.specs.Prelude.{◌≡◌, None, Some, IfOk};
ghost use Rattle.shelf.specs.declared.fault.StoreFault.{StoreFault};
ghost use Rattle.change_law.specs.Choice.{is_done, turned};
ghost use Rattle.shelf.specs.Told.{IsShelf, TurnsFlush};
ghost use Rattle.store.specs.World.{fault_told};

use cell_store::NameSeed;
use change_law::{Change, ChangeFault, Standing, World, WorldFault};
use dns_name::{Name, NoMemory};
use dns_text::Question;
use history::Hidden;
use ranked::{Fate, Flush, Held, SharedFind};
use shelf::{Shelf, StoreFault, admitted_law};
use std::alloc::Global;
use std::marker::Model;

/// A flush that the cache keeps: its number there.
#[derive(Drop)]
pub struct SavedFlush {
    pub number: u64,
}

/// A flush that is to be made.
#[derive(Drop)]
pub struct FlushChange {
    pub flush: Flush,
}

/// A cache of which each kept flush can be undone.
#[derive(Drop)]
pub struct ShelfWorld {
    shelf: Shelf,
}

impl Model for ShelfWorld {
    ghost use Rattle.std.specs.Coded.{codes};
    ghost use Rattle.ranked.specs.contracts.find.Find as find_type;
    ghost use Rattle.shelf.specs.Told.{IsShelf};
    ghost use Rattle.store.specs.World.{Shelved, shelved};

    ghost Value = { Shelved };

    ghost coded = { Prim.hlevel (codes, find_type.the_row.coded) };

    ghost view = { λ w. shelved w.shelf };

    ghost invariant = { λ w. IsShelf w.shelf };
}

fn fault_told(fault: StoreFault) -> WorldFault
    ensures { result ≡ fault_told fault }
{
    match fault {
        StoreFault::Full { stored } => WorldFault::Full {
            stored: stored as usize,
        },
        StoreFault::NoMemory => WorldFault::NoMemory,
    }
}

impl ShelfWorld {
    ghost use Rattle.std.specs.Prelude.{◌≤◌, ◌+◌, ◌^◌, List, length};
    ghost use Rattle.change_law.specs.declared.kept.KeptChange.{KeptChange};
    ghost use Rattle.store.specs.declared.world.SavedFlush.{SavedFlush};
    ghost use Rattle.cell_store.specs.Owner.{held_now};
    ghost use Rattle.store.specs.World.{empty_cells, shows_over};
    ghost use Rattle.world_book.specs.Book.{IsUntouched};
    ghost use Rattle.store.specs.Kept.{kept_in};
    ghost use Rattle.store.specs.Shown.{ShowsOver, StoresEachAlive, StoresOnlyCounted, shown_of};

    /// An empty cache that may store so many cells. It keeps no flushes, and its index hashes with the fixed seed.
    pub fn new(alloc: Global, limit: u64) -> ShelfWorld
        requires { limit ≤ 2 ^ 62 }
        ensures { IsUntouched ⟦<ShelfWorld as World>⟧ empty_cells limit result }
    {
        ShelfWorld::seeded(alloc, limit, 0, NameSeed::fixed())
    }

    /// The same, but its index hashes with a seed that the program drew, since strangers choose the names. If there is memory, it has room
    /// for so many names from the start.
    pub fn seeded(alloc: Global, limit: u64, room: usize, seed: NameSeed) -> ShelfWorld
        requires { limit ≤ 2 ^ 62 }
        ensures untouched { IsUntouched ⟦<ShelfWorld as World>⟧ empty_cells limit result }
        ensures seed { result.seed ≡ seed }
    {
        let shelf = Shelf::seeded(alloc, limit, room, seed);
        // It is called for its clause `none`: no place counts yet.
        admitted_law();
        ShelfWorld { shelf }
    }

    /// What is shown of a question at a moment. It takes no memory.
    pub fn show(&self, owner: &Name, kind: u16, moment: u64) -> Option<Held<'_>>
        ensures { held_now result ≡ shown_of ⟦<ShelfWorld as World>⟧ self.now owner.now kind moment }
    {
        self.shelf.show(owner, kind, moment)
    }

    /// What is shown of two types of a name, each as `show` gives it. It looks the name up once.
    pub fn show_both(
        &self,
        owner: &Name,
        first: u16,
        second: u16,
        moment: u64,
    ) -> (Option<Held<'_>>, Option<Held<'_>>)
        ensures first { held_now result.0 ≡ shown_of ⟦<ShelfWorld as World>⟧ self.now owner.now first moment }
        ensures second { held_now result.1 ≡ shown_of ⟦<ShelfWorld as World>⟧ self.now owner.now second moment }
    {
        self.shelf.show_both(owner, first, second, moment)
    }

    /// What would be shown of a question, if a flush that is kept were undone, or redone. It takes no memory.
    pub fn show_over(
        &self,
        saved: &SavedFlush,
        owner: &Name,
        kind: u16,
        moment: u64,
    ) -> Option<Held<'_>>
        ensures { held_now result ≡ shows_over self.now saved.now moment (record { owner = owner.now; kind = kind }) }
    {
        self.shelf.show_over(saved.number, owner, kind, moment)
    }

    /// That is what the face shows of the choice in which the flush alone stands the other way.
    pub(crate) fn over_law(&self, saved: &SavedFlush)
        ensures { ShowsOver ⟦<ShelfWorld as World>⟧ self.now saved.now }
    {
        // It is read for its invariant: the numbers of the kept flushes ascend.
        let _shelf = &self.shelf;
    }

    /// Counts of how many names a flush hides a cell, some names from a place on. No clause says what is counted.
    pub fn hidden_some(&self, saved: &SavedFlush, from: u64, moment: u64) -> Hidden {
        let (names, visited, next) = self.shelf.hidden_some(saved.number, from as usize, moment);
        Hidden {
            names,
            visited,
            next: match next {
                Some(next) => Some(next as u64),
                None => None,
            },
        }
    }

    /// How many places count. They are never more than the limit, nor more than the different pairs that count. They are never
    /// fewer than the different pairs of the finds that are alive at a moment, whatever choice of the kept flushes is in force.
    pub fn stored(&self) -> u64
        ensures stored { result ≡ ⟦<ShelfWorld as World>⟧.stored self.now }
        ensures within { ⟦<ShelfWorld as World>⟧.stored self.now ≤ ⟦<ShelfWorld as World>⟧.limit self.now }
        ensures most { StoresOnlyCounted ⟦<ShelfWorld as World>⟧ self.now }
        ensures least { StoresEachAlive ⟦<ShelfWorld as World>⟧ self.now }
    {
        self.shelf.stored()
    }

    /// How many names its index has. Some place of each counts.
    pub fn names(&self) -> usize
        ensures names { result ≡ length self.now.names }
        ensures few { result ≤ ⟦<ShelfWorld as World>⟧.stored self.now }
    {
        self.shelf.names()
    }

    /// How many entries the list of permanent flushes has: the flushes of zones that have names left to reach, and at most one more.
    /// After a flush has gone, that one ends the names whose moments are in doubt, a few at a time. Each lookup reads the list.
    pub fn reaching(&self) -> usize
        ensures { result ≡ length self.now.settlings }
    {
        self.shelf.reaching()
    }

    /// How many versions a place may have: one for each flush that can be undone or redone, and one without them.
    pub fn versions(&self) -> usize
        ensures versions { result ≡ length self.now.flushes + 1 }
        ensures few { (kept : List (KeptChange SavedFlush)) → ⟦<ShelfWorld as World>⟧.keeps self.now kept → result ≡ length kept + 1 }
    {
        self.shelf.kept.len() + 1
    }

    /// How many cells are kept for a question, as `Shelf::kept` counts them: no more than versions.
    pub fn kept(&self, question: &Question) -> usize
        ensures value { result ≡ length (kept_in self.now question.now) }
        ensures few { result ≤ length self.now.flushes + 1 }
    {
        self.shelf.kept(question)
    }
}

impl World for ShelfWorld {
    ghost use Rattle.std.specs.Prelude.{true, false, None};
    ghost use Rattle.store.specs.World.{KeepsFlushes, counts_in, face_by, shown_face, unswept_in};
    ghost use Rattle.store.specs.Sweep.{turn_of_sweep, unswept_later};
    ghost use Rattle.store.specs.WorldLaws.{shows_present, clears_by_word};
    ghost use Rattle.store.specs.ReadLaws.{reads_flushes};

    type Tables = ();

    type Saved = SavedFlush;

    type Told = ();

    ghost has_cells = { true };

    ghost table = { λ saved. None };

    ghost told = { λ saved. tt };

    ghost needs_memory = { λ saved. false };

    ghost needs_memory_after = { λ saved. false };

    ghost keeps = { KeepsFlushes };

    ghost face = { face_by };

    ghost newest = { λ shelf. shelf.top };

    ghost shown = { shown_face };

    ghost stored = { λ shelf. shelf.stored };

    ghost limit = { λ shelf. shelf.limit };

    ghost counts = { counts_in };

    ghost unswept = { unswept_in };

    ghost turn = { turn_of_sweep };

    ghost shows = { λ world kept chosen h p. shows_present world kept chosen h p };

    ghost later = { unswept_later };

    ghost reads = { λ world kept chosen other h same q. reads_flushes world kept chosen other h same q };

    ghost clears = { λ world kept h. clears_by_word world kept h };

    fn table(_saved: &SavedFlush) -> Option<u8> {
        None
    }

    fn admit(&mut self, find: SharedFind, moment: u64) -> Result<Fate, WorldFault> {
        // The name is hashed once for both.
        let place = self.shelf.place_of(&find.find().owner);
        let fate = self.shelf.fate_at(find.find(), place, moment);
        match self.shelf.admit_at(find, place, moment) {
            Ok(()) => return Ok(fate),
            Err(fault) => return Err(fault_told(fault)),
        }
    }

    fn sweep(&mut self, moment: u64) {
        self.shelf.sweep(moment);
    }

    fn sweep_some(&mut self, moment: u64) -> bool {
        self.shelf.sweep_some(moment)
    }

    fn forget(&mut self, owner: &Name) {
        self.shelf.forget(owner);
    }

    fn oldest(&self, moment: u64) -> Option<&Name> {
        match self.shelf.oldest(moment) {
            Some(name) => Some(name),
            None => None,
        }
    }
}

impl Change for FlushChange {
    ghost use Rattle.std.specs.Prelude.{false, None};
    ghost use Rattle.ranked.specs.Flush.{covers};

    type World = ShelfWorld;

    ghost reason = { λ change tables. None };

    ghost after = { λ change tables. tables };

    ghost empties = { λ change. covers change.flush };

    ghost removes = { λ change tables. false };

    ghost table = { λ change. None };

    ghost told = { λ change. tt };

    fn table(&self) -> Option<u8> {
        None
    }

    fn apply(self, world: &mut ShelfWorld, ticket: u64) -> Result<SavedFlush, ChangeFault> {
        world.shelf.open_flush(self.flush, ticket)?;
        Ok(SavedFlush { number: ticket })
    }

    fn turn(
        world: &mut ShelfWorld,
        from: Standing,
        saved: &mut SavedFlush,
    ) -> Result<(), NoMemory> {
        turn_flush(&mut world.shelf, from, saved.number);
        Ok(())
    }

    fn settle(world: &mut ShelfWorld, saved: SavedFlush) {
        world.shelf.settle(saved.number);
    }
}

// Undoes a flush that is in effect, or redoes one that is undone.
fn turn_flush(shelf: &mut Shelf, from: Standing, number: u64)
    ensures turns { TurnsFlush number (is_done (turned from)) shelf.old shelf.new }
    ensures whole { IsShelf shelf.old → IsShelf shelf.new }
{
    match from {
        Standing::Done => {
            shelf.hide(number);
            return;
        }
        _ => {
            shelf.unhide(number);
            return;
        }
    }
}
