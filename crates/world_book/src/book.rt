//! A book of a world under a journal of its changes. It keeps no history.

ghost use Rattle.std.specs.Prelude.{◌≡◌, ◌≤◌, List, length, IfOk};
ghost use Rattle.history.specs.declared.event.Event.{Event};
ghost use Rattle.history.specs.Fresh.{FreshBook};
ghost use Rattle.world_book.specs.Book.{IsPassed, IsUntouched, SweepsOneTurn};
ghost use Rattle.world_book.specs.Deeds.{empty_face};

use crate::admissions::{sweep_some, sweep_unread};
use crate::obey::obey;
use crate::preview::hidden_some;
use crate::seen::seen;
use crate::world::{BookChange, BookWorld};
use dns_name::{Name, NoMemory};
use dns_text::Question;
use history::{
    Ask, Book, Event, Hidden, Look, MOMENT_END, MOST_EVENTS, Reply, Seen, Servers, Settings,
    StepFault, closest_servers, question_sight,
};
use local_zone::ZoneTable;
use std::alloc::Global;
use std::marker::Model;
use stub_table::StubTable;
use undo_journal::Journal;

/// A world under a journal of its changes.
#[derive(Drop)]
pub struct WorldBook<C: BookChange> {
    world: C::World,
    journal: Journal<C>,
    settings: Settings,
    moment: u64,
    count: usize,
    alloc: Global,
}

impl<C: BookChange> Model for WorldBook<C> {
    ghost use Rattle.world_book.specs.Book.{BookState, IsWell};

    ghost Value = { BookState C.World C.World.Saved };

    ghost view = { λ b. record { world = b.world; changes = b.journal; settings = b.settings; moment = b.moment; count = b.count } };

    ghost invariant = { λ b. IsWell C.World.World
        (record { world = b.world; changes = b.journal; settings = b.settings; moment = b.moment; count = b.count }) };
}

impl<C: BookChange> WorldBook<C> {
    /// A book of no events, over a world to which nothing has happened.
    pub fn new(alloc: Global, settings: Settings, world: C::World) -> Result<WorldBook<C>, NoMemory>
        requires journal { 1 ≤ settings.journal }
        requires untouched { IsUntouched C.World.World empty_face settings.cells world }
        ensures fresh { IfOk result (FreshBook ⟦<WorldBook<C> as Book>⟧.stands_for ⟦<WorldBook<C> as Book>⟧.settings settings) }
        ensures world { IfOk result (λ b. b.world ≡ world) }
    {
        let journal = Journal::new(alloc, settings.journal)?;
        Ok(WorldBook {
            world,
            journal,
            settings,
            moment: 0,
            count: 0,
            alloc,
        })
    }

    /// The world as it is now.
    pub fn world(&self) -> &C::World
        ensures { result.now ≡ self.now.world }
    {
        &self.world
    }

    /// How many commands can be undone or redone. The world keeps what each needs for its way back.
    pub fn commands(&self) -> usize
        ensures commands { result ≡ length self.now.changes.kept }
        ensures few { (h : List Event) → ⟦<WorldBook<C> as Book>⟧.stands_for self.now h → result ≤ self.now.settings.journal }
        ensures kept { C.World.keeps self.now.world self.now.changes.kept }
    {
        // It is called for its clause `sound`: the journal keeps no more changes than its limit.
        let _undone = self.journal.undone();
        self.journal.len()
    }

    /// Takes a lookup whose reply nobody reads. Nothing but the clock changes.
    fn pass_look(&mut self, moment: u64, ask: &Ask) -> Result<(), StepFault>
        ensures { IsPassed C.World.World self.old (Event.Look moment ask.now) result self.new }
    {
        let _ = ask;
        if moment >= MOMENT_END {
            return Err(StepFault::BadMoment);
        }
        if self.count >= MOST_EVENTS {
            return Err(StepFault::CountEnded);
        }
        let clock = self.moment.max(moment);
        self.moment = clock;
        self.count += 1;
        Ok(())
    }

    /// Takes a sweep whose reply nobody reads. It removes only some of what has expired, so that it is short.
    fn pass_sweep(&mut self, moment: u64) -> Result<(), StepFault>
        ensures passed { IsPassed C.World.World self.old (Event.Sweep moment) result self.new }
        ensures short { SweepsOneTurn C.World.World self.old self.new }
    {
        if moment >= MOMENT_END {
            return Err(StepFault::BadMoment);
        }
        if self.count >= MOST_EVENTS {
            return Err(StepFault::CountEnded);
        }
        let clock = self.moment.max(moment);
        sweep_unread(&self.journal, &mut self.world, clock);
        self.moment = clock;
        self.count += 1;
        Ok(())
    }
}

impl<C: BookChange> Book for WorldBook<C> {
    ghost use Rattle.std.proofs.Common.{◌≡◌, ◌<◌, ◌≤◌, List, sym, ◌∙◌};
    ghost use Rattle.std.specs.Prelude.{ℕ, true, false, OnOk, OnErr, IfErr, IsErrOf};
    ghost use Rattle.change_law.specs.Pairs.{count_pairs, AreNeeded};
    ghost use Rattle.history.specs.declared.event.Event.{Event};
    ghost use Rattle.history.specs.Answers.{Answers, Follows, SweepsAll};
    ghost use Rattle.world_book.specs.Book.{CoversAlive, IsBookOf, IsByLimitAt, IsFreeAt, IsUntimely, MakesRoomAt, StandsAfter};
    ghost use Rattle.world_book.specs.Versions.{pairs_left};

    ghost stands_for = { IsBookOf C.World.World };

    ghost settings = { λ book. book.settings };

    ghost stored = { λ book. C.World.stored book.world };

    ghost unswept = { λ book. C.World.unswept book.world book.moment };

    // A sweep, a forget, an undo or a redo that reaches a flush, an undo of a command that removed nothing, and an admission whose pair
    // is alive in some version need no memory.
    ghost is_free = { λ book event. IsFreeAt C.World.World book event };

    ghost has_journal = { λ book history is. is.some_commands };

    ghost stores_few = { λ book history is. is.few };

    ghost one_count = { λ book h k is also. sym is.count ∙ also.count };

    fn step(&mut self, event: Event) -> Result<Reply, StepFault>
        ensures answers { (h : List Event) → IsBookOf C.World.World self.old h → Answers self.old.settings h event result }
        ensures stands { StandsAfter C.World.World self.old event result self.new }
        ensures full { (n : ℕ) → IsErrOf result (StepFault.Full n) → C.World.stored self.old.world ≡ n }
        ensures same_store { OnErr result (C.World.stored self.new.world ≡ C.World.stored self.old.world) }
        ensures settings { self.new.settings ≡ self.old.settings }

        // It is full only if as many finds as there may be cells differ in owner or scope. If it stores as many cells as there may be, it
        // refuses no admission for want of memory.
        ensures by_limit { IfErr result (IsByLimitAt C.World.World self.old event) }

        // An event that needs no memory is refused only by the clock and the count of events.
        ensures free { IsFreeAt C.World.World self.old event → IfErr result IsUntimely }

        // A sweep that is taken leaves nothing to sweep.
        ensures swept { OnOk result (SweepsAll event (C.World.unswept self.new.world self.new.moment)) }

        // A forget of the name to forget first at its moment makes room: fewer cells are stored after it.
        ensures room { OnOk result (MakesRoomAt C.World.World self.old event self.new) }
    {
        if event.moment() >= MOMENT_END {
            return Err(StepFault::BadMoment);
        }
        if self.count >= MOST_EVENTS {
            return Err(StepFault::CountEnded);
        }
        let clock = self.moment.max(event.moment());
        // It is called for its clause `most`, which the proof of `many` cites.
        let _stored = self.world.stored();
        match obey(
            self.alloc,
            &self.settings,
            &mut self.journal,
            &mut self.world,
            event,
            clock,
        ) {
            Ok(reply) => {
                self.moment = clock;
                self.count += 1;
                Ok(reply)
            }
            Err(fault) => Err(fault),
        }
    }

    fn follow(&mut self, event: Event) -> Result<(), StepFault>
        ensures answers { (h : List Event) → IsBookOf C.World.World self.old h → Follows self.old.settings h event result }
        ensures stands { StandsAfter C.World.World self.old event result self.new }
        ensures full { (n : ℕ) → IsErrOf result (StepFault.Full n) → C.World.stored self.old.world ≡ n }
        ensures same_store { OnErr result (C.World.stored self.new.world ≡ C.World.stored self.old.world) }
        ensures settings { self.new.settings ≡ self.old.settings }

        // An event that needs no memory is refused only by the clock and the count of events.
        ensures free { IsFreeAt C.World.World self.old event → IfErr result IsUntimely }

        // A fault comes from the limit of cells as in `step`.
        ensures by_limit { IfErr result (IsByLimitAt C.World.World self.old event) }

        // A sweep is one turn, so it is short, however much has expired.
        ensures short { (moment : ℕ) → event ≡ Event.Sweep moment → SweepsOneTurn C.World.World self.old self.new }
    {
        match event {
            Event::Look { moment, ask } => self.pass_look(moment, &ask),
            Event::Sweep { moment } => self.pass_sweep(moment),
            event => match self.step(event) {
                Ok(reply) => {
                    drop(reply);
                    Ok(())
                }
                Err(fault) => Err(fault),
            },
        }
    }

    fn sweep_some(&mut self) -> bool
        ensures stands { (h : List Event) → IsBookOf C.World.World self.old h → IsBookOf C.World.World self.new h }
        ensures stored { C.World.stored self.new.world ≤ C.World.stored self.old.world }
        ensures settings { self.new.settings ≡ self.old.settings }
        ensures more { result ≡ true →
            C.World.unswept self.new.world self.new.moment < C.World.unswept self.old.world self.old.moment }
        ensures none { result ≡ false → C.World.unswept self.new.world self.new.moment ≡ 0 }

        // It is one turn, so it is short, however much has expired.
        ensures short { SweepsOneTurn C.World.World self.old self.new }

        // If nothing is left, each cell that counts is needed: a find about it is alive by some choice of the kept commands.
        ensures needed { result ≡ false →
            AreNeeded C.World.counts C.World.keeps C.World.face self.new.moment self.new.world }
    {
        sweep_some(&self.journal, &mut self.world, self.moment)
    }

    fn seen(&self, ask: &Ask, moment: u64) -> Result<Seen, NoMemory> {
        let clock = self.moment.max(moment);
        let seen = seen(
            self.alloc,
            &self.settings,
            &self.journal,
            &self.world,
            ask,
            clock,
        )?;
        Ok(seen)
    }

    fn look<'a>(&'a self, question: &'a Question, moment: u64) -> Look<'a> {
        // It is called for its clause `sound`: the kept commands are in order, and those that are undone are marked.
        let _undone = self.journal.undone();
        let clock = self.moment.max(moment);
        question_sight(&self.world, &self.world.tables().local, question, clock)
    }

    fn zones(&self) -> &ZoneTable {
        // It is called for its clause `sound`: the kept commands are in order, and those that are undone are marked.
        let _undone = self.journal.undone();
        &self.world.tables().local
    }

    fn stubs(&self) -> &StubTable {
        // It is called for its clause `sound`: the kept commands are in order, and those that are undone are marked.
        let _undone = self.journal.undone();
        &self.world.tables().stubs
    }

    fn servers(&self, name: &Name, moment: u64) -> Result<Servers, NoMemory> {
        // It is called for its clause `sound`: the kept commands are in order, and those that are undone are marked.
        let _undone = self.journal.undone();
        let clock = self.moment.max(moment);
        let tables = self.world.tables();
        let found = closest_servers(
            self.alloc,
            &self.settings,
            &self.world,
            &tables.stubs,
            name,
            clock,
        )?;
        Ok(found)
    }

    fn hidden_some(&self, ticket: u64, from: u64, moment: u64) -> Hidden {
        hidden_some(
            &self.journal,
            &self.world,
            ticket,
            from,
            self.moment.max(moment),
        )
    }

    fn stored(&self) -> usize
        ensures stored { result ≡ C.World.stored self.now.world }
        ensures within { (h : List Event) → IsBookOf C.World.World self.now h → result ≤ self.now.settings.cells }

        // No more than the different pairs of owner and scope that were admitted, and whose owner was not forgotten since.
        ensures most { (h : List Event) → IsBookOf C.World.World self.now h → result ≤ count_pairs (pairs_left h) }

        // No fewer than the different pairs of the finds that are alive now in some version.
        ensures least { CoversAlive C.World.World self.now result }
    {
        // It is called for its clause `sound`: the kept commands are in order, and those that are undone are marked.
        let _undone = self.journal.undone();
        self.world.stored()
    }

    fn limit(&self) -> usize {
        self.settings.cells
    }
}
