//! The history of a plain book: its log and its marks.

ghost use Rattle.std.specs.Prelude.{◌≡◌, ℕ, ◌+◌, ◌<◌, ◌≤◌, ◌^◌, [], length, OnOk};
ghost use Rattle.history.specs.Counts.{counted_in};
ghost use Rattle.history.specs.Tickets.{InOne};
ghost use Rattle.undo_book.specs.Index.{index_from};
ghost use Rattle.undo_book.specs.Plain.{marks_in, marks_by, entries_in, AreFlagged, AreFlagged-prop, HasRoom, content_of, question_of};

use crate::index::{Indexed, add_to_index, tag};
use crate::log::{Logged, set_flags};
use crate::marks::PlainMarks;
use crate::stored::stored_after;
use dns_name::{Name, NoMemory};
use history::{CellSource, Entry, Event, Reply, Settings};
use ranked::{Cell, Fate, Held, Scope, SharedFind};
use std::alloc::Global;

/// The events so far. Every admission counts as a cell until its owner is forgotten, an outranked one too. The index has a replay read what can change a
/// cell, and pass over the looks and the owners that are not asked about.
#[derive(Drop)]
pub struct PlainPast {
    pub settings: Settings,
    pub moment: u64,
    pub marks: PlainMarks,
    pub log: Vec<Logged>,
    pub index: Vec<Indexed>,
    pub stored: usize,
    pub ghost has_journal: { 1 ≤ settings.journal },
    pub ghost few_tickets: { marks.tickets ≤ length log.items },
    pub ghost counted: { stored ≡ counted_in (entries_in log.items) },
    pub ghost indexed: { index.items ≡ index_from 0 log.items },
    pub ghost in_one: { (ticket : ℕ) → InOne (marks_in marks) ticket },
    pub ghost flagged: { AreFlagged marks.struck.items log.items } by { AreFlagged-prop marks.struck.items log.items },
}

impl PlainPast {
    ghost use Rattle.history.specs.History.{nothing, followed_by};
    ghost use Rattle.history.specs.Cells.{cell_of};
    ghost use Rattle.history.specs.Reply.{reply_of, reply_to_admission};
    ghost use Rattle.undo_book.specs.PlainPast.{past_in, IsReady};

    /// The history of no events. It takes no memory.
    pub fn new(alloc: Global, settings: Settings) -> PlainPast
        requires { 1 ≤ settings.journal }
        ensures nothing { past_in result ≡ nothing }
        ensures settings { result.settings ≡ settings }
    {
        PlainPast {
            settings,
            moment: 0,
            marks: PlainMarks::new(alloc),
            log: Vec::new(alloc),
            index: Vec::new(alloc),
            stored: 0,
        }
    }

    /// Makes room for one more event.
    pub fn make_room(&mut self) -> Result<(), NoMemory>
        ensures past { past_in self.new ≡ past_in self.old }
        ensures log { self.new.log.items ≡ self.old.log.items }
        ensures stored { self.new.stored ≡ self.old.stored }
        ensures settings { self.new.settings ≡ self.old.settings }
        ensures ready { OnOk result (IsReady self.new) }
    {
        self.marks.make_room()?;
        self.log.reserve(1)?;
        self.index.reserve(1)?;
        Ok(())
    }

    /// The cell of a question, by a replay from nothing.
    fn cell<'a>(&'a self, owner: &Name, kind: u16) -> Cell<&'a SharedFind>
        ensures { content_of result.held ≡ cell_of (past_in self.now) (question_of owner.now kind) }
    {
        let tag = tag(owner);
        let mut cell = Cell::empty();
        for indexed in &self.index {
            cell = indexed.replay(&self.log, tag, owner, kind, cell);
        }
        cell
    }

    /// What becomes of an admission.
    pub fn fate(&self, find: &SharedFind, moment: u64) -> Reply
        ensures { result ≡ reply_to_admission (past_in self.now) find.now moment find.now.scope }
    {
        match find.find().scope {
            Scope::One(kind) => {
                let mut cell = self.cell(&find.find().owner, kind);
                match cell.admit(find.find(), find, self.moment.max(moment)) {
                    Fate::Taken => Reply::Taken,
                    Fate::Outranked => Reply::Outranked,
                }
            }
            Scope::Whole => Reply::Taken,
        }
    }

    /// Adds an event to the history, with its reply.
    pub fn add(&mut self, event: Event, reply: &Reply)
        requires reply { reply.now ≡ reply_of self.old.settings (past_in self.old) event }
        requires ready { IsReady self.old }
        requires few { length self.old.log.items < 2 ^ 62 }
        ensures past { past_in self.new ≡ followed_by self.old.settings.journal (past_in self.old) event }
        ensures settings { self.new.settings ≡ self.old.settings }
    {
        let moment = self.moment.max(event.moment());
        let ticket = reply.ticket_taken();
        mark(&mut self.marks, self.settings.journal, reply);
        self.moment = moment;
        self.stored = stored_after(self.stored, &self.log, &event);
        add_to_index(&mut self.index, self.log.len(), &event);
        self.log.push_reserved(Logged {
            entry: Entry {
                event,
                moment,
                ticket,
            },
            struck: false,
        });
        set_flags(&mut self.log, reply);
    }
}

impl CellSource for PlainPast {
    ghost use Rattle.history.specs.Cells.{shows};
    ghost use Rattle.undo_book.specs.PlainPast.{past_in};

    ghost shows_at = { λ past moment question. shows (past_in past) question moment };

    fn shows<'a>(&'a self, owner: &Name, kind: u16, moment: u64) -> Option<Held<'a>> {
        self.cell(owner, kind).at(self.moment.max(moment))
    }
}

/// Sets the marks after an event that got this reply.
fn mark(marks: &mut PlainMarks, bound: usize, reply: &Reply)
    requires room { HasRoom marks.old }
    requires few { marks.old.tickets + 1 < 2 ^ 64 }
    ensures marks { marks_in marks.new ≡ marks_by bound (marks_in marks.old) reply.now }
    ensures few { marks.new.tickets ≤ marks.old.tickets + 1 }
{
    match reply {
        Reply::Done { .. } => marks.command(bound),
        Reply::Undone { ticket } => marks.strike(*ticket),
        Reply::Redone { ticket } => marks.restore(*ticket),
        _ => {}
    }
}
