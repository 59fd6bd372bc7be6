//! The book that keeps its history and replays it.

ghost use Rattle.std.specs.Prelude.{◌≡◌, ◌≤◌, ◌↔◌, ℕ, IfOk, IfErr, OnOk, OnErr, IsOk, IsErrOf};
ghost use Rattle.history.specs.Event.{AreSettings, lagging_of};
ghost use Rattle.history.specs.Fresh.{FreshBook};
ghost use Rattle.history.specs.History.{tables_of};
ghost use Rattle.undo_book.specs.PlainPast.{past_in};

use crate::lookup_result::seen;
use crate::plain_history::PlainPast;
use crate::replies::reply;
use dns_name::{Name, NoMemory};
use dns_text::Question;
use history::{
    Ask, Book, Event, Look, MOMENT_END, MOST_EVENTS, MakeFault, Reply, Seen, Servers, Settings,
    StepFault, Tables, are_settings, closest_servers, question_sight,
};
use local_zone::ZoneTable;
use std::alloc::Global;
use stub_table::StubTable;

/// A book that keeps its whole history, and answers by a replay. It also keeps the tables that the history gives.
#[derive(Drop)]
pub struct PlainBook {
    past: PlainPast,
    tables: Tables,
    alloc: Global,
    ghost tabled: { tables ≡ tables_of (past_in past) },
}

impl PlainBook {
    ghost use Rattle.history.specs.Answers.{TellsLimit};
    ghost use Rattle.history.specs.History.{followed_by};
    ghost use Rattle.undo_book.specs.PlainPast.{AnswersAfter, IsFullAtTheLimit};

    /// A book of no events. It takes no memory.
    pub fn new(alloc: Global, settings: Settings) -> Result<PlainBook, MakeFault>
        ensures fresh { IfOk result (FreshBook ⟦<PlainBook as Book>⟧.stands_for ⟦<PlainBook as Book>⟧.settings settings) }
        ensures refused { IsErrOf result MakeFault.BadSettings ↔ ¬ (AreSettings settings) }
        ensures made { AreSettings settings → IsOk result }
    {
        if !are_settings(&settings) {
            return Err(MakeFault::BadSettings);
        }
        Ok(PlainBook::with_settings(alloc, settings))
    }

    /// A book of no events, to lag behind one that has these settings. It is never full.
    pub fn lagging(alloc: Global, settings: &Settings) -> Result<PlainBook, MakeFault>
        ensures fresh { IfOk result (FreshBook ⟦<PlainBook as Book>⟧.stands_for ⟦<PlainBook as Book>⟧.settings (lagging_of settings.now)) }
        ensures refused { IsErrOf result MakeFault.BadSettings ↔ ¬ (AreSettings settings.now) }
    {
        if !are_settings(settings) {
            return Err(MakeFault::BadSettings);
        }
        match settings.lagging(alloc) {
            Ok(lagging) => Ok(PlainBook::with_settings(alloc, lagging)),
            Err(_) => Err(MakeFault::NoMemory),
        }
    }

    fn with_settings(alloc: Global, settings: Settings) -> PlainBook
        requires { 1 ≤ settings.journal }
        ensures { FreshBook ⟦<PlainBook as Book>⟧.stands_for ⟦<PlainBook as Book>⟧.settings settings result }
    {
        PlainBook {
            past: PlainPast::new(alloc, settings),
            tables: Tables::new(alloc),
            alloc,
        }
    }

    /// Takes an event. What can fail comes before anything changes.
    fn take_event(&mut self, event: Event) -> Result<Reply, StepFault>
        ensures answers { AnswersAfter self.old.past event result }
        ensures taken { OnOk result (past_in self.new.past ≡ followed_by self.old.past.settings.journal (past_in self.old.past) event) }
        ensures unchanged { OnErr result (past_in self.new.past ≡ past_in self.old.past) }
        ensures settings { self.new.past.settings ≡ self.old.past.settings }
        ensures full { (n : ℕ) → IsErrOf result (StepFault.Full n) → self.old.past.stored ≡ n }
        ensures same_store { OnErr result (self.new.past.stored ≡ self.old.past.stored) }
        ensures full_at_the_limit { IsFullAtTheLimit self.old.past event result }
        ensures by_limit { IfErr result (λ fault. TellsLimit self.old.past.stored self.old.past.settings.cells event fault) }
    {
        if event.moment() >= MOMENT_END {
            return Err(StepFault::BadMoment);
        }
        if self.past.log.len() >= MOST_EVENTS {
            return Err(StepFault::CountEnded);
        }
        if event.is_admission() && self.past.stored == self.past.settings.cells {
            return Err(StepFault::Full {
                stored: self.past.stored,
            });
        }
        self.past.make_room()?;
        let reply = reply(self.alloc, &self.past, &mut self.tables, &event)?;
        self.past.add(event, &reply);
        Ok(reply)
    }
}

impl Book for PlainBook {
    ghost use Rattle.std.specs.Prelude.{◌≡◌, ◌⊎◌, ◌<◌, ◌↔◌, ℕ, List, length, count_by, IsTrue, IfErr, OnOk, OnErr, IsErrOf};
    ghost use Rattle.history.specs.declared.event.Event.{Event};
    ghost use Rattle.history.specs.Event.{is_admission};
    ghost use Rattle.history.specs.Counts.{counted_of, stores_counted, same_count};
    ghost use Rattle.history.specs.Answers.{IsTimely, Answers, SweepsAll, TellsLimit, history_after};
    ghost use Rattle.history.specs.History.{past_of};
    ghost use Rattle.undo_book.specs.PlainBook.{settings_in, stored_in, IsFullAtItsLimit, MakesRoom, StandsFor, TellsItsLimit};
    ghost use Rattle.world_book.specs.Versions.{ForgetsOldest};

    ghost stands_for = { StandsFor };

    ghost settings = { settings_in };

    ghost stored = { stored_in };

    // It frees nothing before an event says so.
    ghost unswept = { λ book. 0 };

    // It keeps each event, so it promises none without memory.
    ghost is_free = { λ book event. ⊥ };

    ghost has_journal = { λ book history is. book.past.has_journal };

    ghost stores_few = { λ book history is.
        stores_counted (settings_in book).journal (past_in book.past) history (stored_in book) book.past.counted is };

    ghost one_count = { λ book h k is also. same_count (settings_in book).journal (past_in book.past) h k is also };

    fn step(&mut self, event: Event) -> Result<Reply, StepFault>
        ensures answers { (h : List Event) → StandsFor self.old h → Answers (settings_in self.old) h event result }
        ensures stands { (h : List Event) → StandsFor self.old h → StandsFor self.new (history_after h event result) }
        ensures full { (n : ℕ) → IsErrOf result (StepFault.Full n) → stored_in self.old ≡ n }
        ensures same_store { OnErr result (stored_in self.new ≡ stored_in self.old) }
        ensures settings { settings_in self.new ≡ settings_in self.old }
        ensures by_limit { IfErr result (TellsItsLimit self.old event) }

        // It stores each admission until its owner is forgotten, so it is full exactly where there are as many of these as there may be cells.
        ensures full_at_the_limit { IsFullAtItsLimit self.old event result }

        // There is never anything to sweep.
        ensures swept { OnOk result (SweepsAll event 0) }

        // A forget of the name to forget first at its moment makes room: fewer cells are stored after it.
        ensures room { OnOk result (MakesRoom self.old event self.new) }
    {
        self.take_event(event)
    }

    fn sweep_some(&mut self) -> bool {
        false
    }

    fn seen(&self, ask: &Ask, moment: u64) -> Result<Seen, NoMemory> {
        seen(self.alloc, &self.past, &self.tables, ask, moment)
    }

    fn look<'a>(&'a self, question: &'a Question, moment: u64) -> Look<'a> {
        question_sight(&self.past, &self.tables.local, question, moment)
    }

    fn zones(&self) -> &ZoneTable {
        &self.tables.local
    }

    fn stubs(&self) -> &StubTable {
        &self.tables.stubs
    }

    fn servers(&self, name: &Name, moment: u64) -> Result<Servers, NoMemory> {
        closest_servers(
            self.alloc,
            &self.past.settings,
            &self.past,
            &self.tables.stubs,
            name,
            moment,
        )
    }

    fn stored(&self) -> usize
        ensures stored { result ≡ stored_in self.now }
        ensures counted { (h : List Event) → StandsFor self.now h → result ≡ counted_of h }
    {
        self.past.stored
    }

    fn limit(&self) -> usize {
        self.past.settings.cells
    }
}
