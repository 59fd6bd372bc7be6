//! The book that keeps no history: the tables and the cache under a journal of their changes.

ghost use Rattle.std.specs.Prelude.{◌≡◌, ◌≤◌, ◌+◌, ◌^◌, ◌↔◌, length, IfOk, IsErr, IsErrOf};
ghost use Rattle.history.specs.Event.{AreSettings, lagging_of};
ghost use Rattle.history.specs.Fresh.{FreshBook};
ghost use Rattle.store.specs.Calls.{FitsJournal, FitsVersions};
ghost use Rattle.store.specs.ShelfBook.{CountsOnlyNeeded, cells_of, commands_of, names_of, reaching_of, seed_of, versions_of};

use crate::store::{Store, StoreChange};
use cell_store::NameSeed;
use dns_name::{Name, NoMemory};
use dns_text::Question;
use history::{
    Ask, Book, Event, Hidden, Look, MakeFault, Reply, Seen, Servers, Settings, StepFault,
    are_settings,
};
use local_zone::ZoneTable;
use std::alloc::Global;
use stub_table::StubTable;
use world_book::WorldBook;

/// A book that keeps what its commands need for their way back, and no history.
#[derive(Drop)]
pub struct ShelfBook {
    book: WorldBook<StoreChange>,
}

impl ShelfBook {
    /// A book of no events, whose cache hashes names with the fixed seed. Its index grows as names come. It is for scripts and tests.
    pub fn new(alloc: Global, settings: Settings) -> Result<ShelfBook, MakeFault>
        ensures fresh { IfOk result (FreshBook ⟦<ShelfBook as Book>⟧.stands_for ⟦<ShelfBook as Book>⟧.settings settings) }
        ensures refused { IsErrOf result MakeFault.BadSettings ↔ ¬ (AreSettings settings) }
    {
        let book = ShelfBook::with_room(alloc, settings, 0, NameSeed::fixed())?;
        Ok(book)
    }

    /// The same, but its cache hashes names with a seed that the program drew, since strangers choose the names. If there is memory, its
    /// index has room for a name in each cell from the start: callers would wait for the one at whose call it grows.
    pub fn seeded(alloc: Global, settings: Settings, seed: NameSeed) -> Result<ShelfBook, MakeFault>
        ensures fresh { IfOk result (FreshBook ⟦<ShelfBook as Book>⟧.stands_for ⟦<ShelfBook as Book>⟧.settings settings) }
        ensures refused { IsErrOf result MakeFault.BadSettings ↔ ¬ (AreSettings settings) }
        ensures seed { IfOk result (λ b. seed_of b ≡ seed) }
    {
        let room = settings.cells;
        let book = ShelfBook::with_room(alloc, settings, room, seed)?;
        Ok(book)
    }

    /// A book of no events, to lag behind one that has these settings. It is never full. Its cache hashes names with the fixed seed.
    pub fn lagging(alloc: Global, settings: &Settings) -> Result<ShelfBook, MakeFault>
        ensures fresh { IfOk result (FreshBook ⟦<ShelfBook as Book>⟧.stands_for ⟦<ShelfBook as Book>⟧.settings (lagging_of settings.now)) }
        ensures refused { IsErrOf result MakeFault.BadSettings ↔ ¬ (AreSettings settings.now) }
    {
        let book = ShelfBook::lagging_with_room(alloc, settings, 0, NameSeed::fixed())?;
        Ok(book)
    }

    /// The same, but its cache hashes names with a seed that the program drew. If there is memory, its index has room for a name in each
    /// cell of the other book from the start: its own limit is 2^62 cells.
    pub fn lagging_seeded(
        alloc: Global,
        settings: &Settings,
        seed: NameSeed,
    ) -> Result<ShelfBook, MakeFault>
        ensures fresh { IfOk result (FreshBook ⟦<ShelfBook as Book>⟧.stands_for ⟦<ShelfBook as Book>⟧.settings (lagging_of settings.now)) }
        ensures refused { IsErrOf result MakeFault.BadSettings ↔ ¬ (AreSettings settings.now) }
        ensures seed { IfOk result (λ b. seed_of b ≡ seed) }
    {
        let book = ShelfBook::lagging_with_room(alloc, settings, settings.cells, seed)?;
        Ok(book)
    }

    /// How many names its cache has: at most as many as the cells that are stored, whether or not it was swept.
    pub fn names(&self) -> usize
        ensures names { result ≡ names_of self.now }
        ensures few { names_of self.now ≤ ⟦<ShelfBook as Book>⟧.stored self.now }
    {
        self.book.world().cells.names()
    }

    /// How many entries its cache's list of permanent flushes has: the flushes of zones that have names left to reach, and at most one
    /// more. After a flush has gone, that one ends the names whose moments are in doubt, a few at a time. Each lookup reads the list.
    pub fn reaching(&self) -> usize
        ensures { result ≡ reaching_of self.now }
    {
        self.book.world().cells.reaching()
    }

    /// How many commands its journal keeps: those that can be undone or redone.
    pub fn commands(&self) -> usize
        ensures commands { result ≡ commands_of self.now }
        ensures few { FitsJournal ⟦<ShelfBook as Book>⟧ self.now (commands_of self.now) }
    {
        self.book.commands()
    }

    /// How many versions a place of its cache may have: one for each flush of the journal, and one without them.
    pub fn versions(&self) -> usize
        ensures versions { result ≡ versions_of self.now }
        ensures commands { versions_of self.now ≤ commands_of self.now + 1 }
        ensures few { FitsVersions ⟦<ShelfBook as Book>⟧ self.now (versions_of self.now) }
    {
        // It is called for its clauses on the journal.
        let _commands = self.book.commands();
        self.book.world().versions()
    }

    /// How many cells its cache keeps for a question: one for each version that differs from the one before.
    pub fn kept(&self, question: &Question) -> usize
        ensures value { result ≡ length (cells_of self.now question.now) }
        ensures few { result ≤ versions_of self.now }
    {
        self.book.world().cells.kept(question)
    }

    // A book with these settings, if they are in range.
    fn with_room(
        alloc: Global,
        settings: Settings,
        room: usize,
        seed: NameSeed,
    ) -> Result<ShelfBook, MakeFault>
        ensures fresh { IfOk result (FreshBook ⟦<ShelfBook as Book>⟧.stands_for ⟦<ShelfBook as Book>⟧.settings settings) }
        ensures refused { IsErrOf result MakeFault.BadSettings ↔ ¬ (AreSettings settings) }
        ensures seed { IfOk result (λ b. seed_of b ≡ seed) }
    {
        if !are_settings(&settings) {
            return Err(MakeFault::BadSettings);
        }
        let book = ShelfBook::with_settings(alloc, settings, room, seed)?;
        Ok(book)
    }

    // A book to lag behind one with these settings, if they are in range.
    fn lagging_with_room(
        alloc: Global,
        settings: &Settings,
        room: usize,
        seed: NameSeed,
    ) -> Result<ShelfBook, MakeFault>
        ensures fresh { IfOk result (FreshBook ⟦<ShelfBook as Book>⟧.stands_for ⟦<ShelfBook as Book>⟧.settings (lagging_of settings.now)) }
        ensures refused { IsErrOf result MakeFault.BadSettings ↔ ¬ (AreSettings settings.now) }
        ensures seed { IfOk result (λ b. seed_of b ≡ seed) }
    {
        if !are_settings(settings) {
            return Err(MakeFault::BadSettings);
        }
        let Ok(lagging) = settings.lagging(alloc) else {
            return Err(MakeFault::NoMemory);
        };
        let book = ShelfBook::with_settings(alloc, lagging, room, seed)?;
        Ok(book)
    }

    // A book with these settings. If there is memory, the index of its cache has room for so many names from the start.
    fn with_settings(
        alloc: Global,
        settings: Settings,
        room: usize,
        seed: NameSeed,
    ) -> Result<ShelfBook, MakeFault>
        requires journal { 1 ≤ settings.journal }
        requires cells { settings.cells ≤ 2 ^ 62 }
        ensures fresh { IfOk result (FreshBook ⟦<ShelfBook as Book>⟧.stands_for ⟦<ShelfBook as Book>⟧.settings settings) }
        ensures no_memory { IsErr result → IsErrOf result MakeFault.NoMemory }
        ensures seed { IfOk result (λ b. seed_of b ≡ seed) }
    {
        let store = Store::new(alloc, settings.cells as u64, room, seed);
        match WorldBook::new(alloc, settings, store) {
            Ok(book) => Ok(ShelfBook { book }),
            Err(_) => Err(MakeFault::NoMemory),
        }
    }
}

impl Book for ShelfBook {
    ghost use Rattle.std.proofs.Common.{◌≡◌, ◌≤◌, sym, ◌∙◌};
    ghost use Rattle.std.specs.Prelude.{ℕ, true, false, OnOk, OnErr, IfErr, IsErrOf};
    ghost use Rattle.store.specs.Calls.{AnswersEach, FollowsEach, StandsAfter, IsByLimitAt, IsUntimelyIfFree, MakesRoomAt, SweepsIfTaken};
    ghost use Rattle.store.specs.Calls.{StandsStill, StoresAsMany, HasSettingsOf};
    ghost use Rattle.store.specs.Calls.{HasLessToSweep, SweepsOneTurn, IsShortSweep};
    ghost use Rattle.store.specs.Calls.{FitsLimit, FitsAdmitted, CoversAlive};

    ghost stands_for = { λ book history. ⟦<WorldBook<StoreChange> as Book>⟧.stands_for book.book history };

    ghost settings = { λ book. ⟦<WorldBook<StoreChange> as Book>⟧.settings book.book };

    ghost stored = { λ book. ⟦<WorldBook<StoreChange> as Book>⟧.stored book.book };

    ghost unswept = { λ book. ⟦<WorldBook<StoreChange> as Book>⟧.unswept book.book };

    ghost is_free = { λ book event. ⟦<WorldBook<StoreChange> as Book>⟧.is_free book.book event };

    ghost has_journal = { λ book history is. is.some_commands };

    ghost stores_few = { λ book history is. is.few };

    ghost one_count = { λ book h k is also. sym is.count ∙ also.count };

    fn step(&mut self, event: Event) -> Result<Reply, StepFault>
        ensures answers { AnswersEach ⟦<WorldBook<StoreChange> as Book>⟧ self.old.book event result }
        ensures stands { StandsAfter ⟦<WorldBook<StoreChange> as Book>⟧ self.old.book event result self.new.book }
        ensures full { (n : ℕ) → IsErrOf result (StepFault.Full n) → ⟦<WorldBook<StoreChange> as Book>⟧.stored self.old.book ≡ n }
        ensures same_store { OnErr result (StoresAsMany ⟦<WorldBook<StoreChange> as Book>⟧ self.new.book self.old.book) }
        ensures settings { HasSettingsOf ⟦<WorldBook<StoreChange> as Book>⟧ self.new.book self.old.book }

        // It is full only if as many finds as there may be cells differ in owner or scope. If it stores as many cells as there may be, it
        // refuses no admission for want of memory.
        ensures by_limit { IfErr result (IsByLimitAt ⟦<WorldBook<StoreChange> as Book>⟧ self.old.book event) }

        // A sweep, a forget, an undo or a redo that reaches a flush, an undo of a command that removed nothing, and an admission whose
        // pair is alive in some version need no memory.
        ensures free { IsUntimelyIfFree ⟦<WorldBook<StoreChange> as Book>⟧ self.old.book event result }

        // A sweep that is taken leaves nothing to sweep.
        ensures swept { SweepsIfTaken ⟦<WorldBook<StoreChange> as Book>⟧ event result self.new.book }

        // A forget of the name to forget first at its moment makes room: fewer cells are stored after it.
        ensures room { OnOk result (MakesRoomAt ⟦<WorldBook<StoreChange> as Book>⟧ self.old.book event self.new.book) }
    {
        match self.book.step(event) {
            Ok(reply) => Ok(reply),
            Err(fault) => Err(fault),
        }
    }

    fn follow(&mut self, event: Event) -> Result<(), StepFault>
        ensures answers { FollowsEach ⟦<WorldBook<StoreChange> as Book>⟧ self.old.book event result }
        ensures stands { StandsAfter ⟦<WorldBook<StoreChange> as Book>⟧ self.old.book event result self.new.book }
        ensures full { (n : ℕ) → IsErrOf result (StepFault.Full n) → ⟦<WorldBook<StoreChange> as Book>⟧.stored self.old.book ≡ n }
        ensures same_store { OnErr result (StoresAsMany ⟦<WorldBook<StoreChange> as Book>⟧ self.new.book self.old.book) }
        ensures settings { HasSettingsOf ⟦<WorldBook<StoreChange> as Book>⟧ self.new.book self.old.book }

        // A sweep, a forget, an undo or a redo that reaches a flush, an undo of a command that removed nothing, and an admission whose
        // pair is alive in some version need no memory.
        ensures free { IsUntimelyIfFree ⟦<WorldBook<StoreChange> as Book>⟧ self.old.book event result }

        // A fault comes from the limit of cells as in `step`.
        ensures by_limit { IfErr result (IsByLimitAt ⟦<WorldBook<StoreChange> as Book>⟧ self.old.book event) }

        // A sweep is one turn, so it is short, however much has expired.
        ensures short { IsShortSweep ⟦<WorldBook<StoreChange> as Book>⟧ self.old.book event self.new.book }
    {
        match self.book.follow(event) {
            Ok(()) => Ok(()),
            Err(fault) => Err(fault),
        }
    }

    fn sweep_some(&mut self) -> bool
        ensures stands { StandsStill ⟦<WorldBook<StoreChange> as Book>⟧ self.old.book self.new.book }
        ensures stored { ⟦<WorldBook<StoreChange> as Book>⟧.stored self.new.book
            ≤ ⟦<WorldBook<StoreChange> as Book>⟧.stored self.old.book }
        ensures settings { HasSettingsOf ⟦<WorldBook<StoreChange> as Book>⟧ self.new.book self.old.book }
        ensures more { result ≡ true → HasLessToSweep ⟦<WorldBook<StoreChange> as Book>⟧ self.new.book self.old.book }
        ensures none { result ≡ false → ⟦<WorldBook<StoreChange> as Book>⟧.unswept self.new.book ≡ 0 }

        // It is one turn, so it is short, however much has expired.
        ensures short { SweepsOneTurn ⟦<WorldBook<StoreChange> as Book>⟧ self.old.book self.new.book }

        // If nothing is left, each cell that counts is needed: a find about it is alive by some choice of the kept commands.
        ensures needed { result ≡ false → CountsOnlyNeeded self.new }
    {
        self.book.sweep_some()
    }

    fn seen(&self, ask: &Ask, moment: u64) -> Result<Seen, NoMemory> {
        let seen = self.book.seen(ask, moment)?;
        Ok(seen)
    }

    fn look<'a>(&'a self, question: &'a Question, moment: u64) -> Look<'a> {
        self.book.look(question, moment)
    }

    fn zones(&self) -> &ZoneTable {
        self.book.zones()
    }

    fn stubs(&self) -> &StubTable {
        self.book.stubs()
    }

    fn servers(&self, name: &Name, moment: u64) -> Result<Servers, NoMemory> {
        let servers = self.book.servers(name, moment)?;
        Ok(servers)
    }

    fn hidden_some(&self, ticket: u64, from: u64, moment: u64) -> Hidden {
        self.book.hidden_some(ticket, from, moment)
    }

    fn stored(&self) -> usize
        ensures stored { result ≡ ⟦<WorldBook<StoreChange> as Book>⟧.stored self.now.book }
        ensures within { FitsLimit ⟦<WorldBook<StoreChange> as Book>⟧ self.now.book result }

        // No more than the different pairs of owner and scope that were admitted, and whose owner was not forgotten since.
        ensures most { FitsAdmitted ⟦<WorldBook<StoreChange> as Book>⟧ self.now.book result }

        // No fewer than the different pairs of the finds that are alive now in some version.
        ensures least { CoversAlive ⟦<WorldBook<StoreChange> as Book>⟧ self.now.book result }
    {
        self.book.stored()
    }

    fn limit(&self) -> usize {
        self.book.limit()
    }
}
