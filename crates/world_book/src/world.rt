//! The traits that a book needs of a world and of its changes.

ghost use Rattle.std.specs.Prelude.{◌≡◌, ◌≤◌, ℕ, true, false, None, IfOk};
ghost use Rattle.std.specs.Option.{option_map};
ghost use Rattle.dns_text.specs.declared.record.Question.{Question};
ghost use Rattle.history.specs.declared.tables.Tables.{Tables};
ghost use Rattle.history.specs.Changes.{after_command_on, reason_on};
ghost use Rattle.history.specs.Event.{covers};
ghost use Rattle.change_law.specs.Turn.{CanTurnOver};
ghost use Rattle.world_book.specs.Deeds.{shown_in};
ghost use Rattle.world_book.specs.Removals.{removes};
ghost use Rattle.world_book.specs.Seen.{AnswersOver};
ghost use Rattle.world_book.specs.Step.{code_of};
ghost use Rattle.world_book.specs.Stored.{StoresEachAlive, StoresOnlyCounted};
ghost use Rattle.world_book.specs.Versions.{table_of};

use change_law::{Change, World};
use dns_name::NoMemory;
use dns_text::Question;
use history::{CellSource, Command, Hidden, Seen, Tables};
use std::alloc::Global;

/// A world of tables and cells.
pub trait BookWorld: World<Tables = Tables, Told = Command> + CellSource {
    /// Local zones, records and stubs.
    fn tables(&self) -> &Tables
        ensures { result.now ≡ (Self.shown self.now).tables };

    /// How many cells are stored. They are never more than the limit, nor more than the different pairs that count. They are never
    /// fewer than the different pairs of the finds that are alive at a moment, by whichever choice of the kept changes.
    fn stored(&self) -> usize
        ensures stored { result ≡ Self.stored self.now }
        ensures within { Self.stored self.now ≤ Self.limit self.now }
        ensures most { StoresOnlyCounted Self.counts Self.stored self.now }
        ensures least { StoresEachAlive Self.table Self.keeps Self.face Self.stored self.now };

    /// The command of a change that is kept.
    fn command(saved: &Self::Saved) -> &Command
        ensures { result.now ≡ Self.told saved.now };

    /// The reply to a lookup of a question, if this kept change were undone, or redone. Nothing changes. It takes memory for the reply
    /// only.
    fn answer_over(
        &self,
        alloc: Global,
        saved: &Self::Saved,
        question: &Question,
        moment: u64,
    ) -> Result<Seen, NoMemory>
        requires { CanTurnOver Self.table Self.keeps self.now saved.now }
        ensures { IfOk result (AnswersOver Self.table Self.keeps Self.face self.now saved.now question.now moment) };

    /// Counts of how many names a kept change hides a cell, some names from a place on. No clause says what is counted.
    fn hidden_some(&self, saved: &Self::Saved, from: u64, moment: u64) -> Hidden;

    /// A change of no table takes no memory to undo or redo.
    ghost needs_none: { (saved : Self.Saved) → Self.table saved ≡ None → Self.needs_memory saved ≡ false };

    /// It has cells.
    ghost with_cells: { Self.has_cells ≡ true };

    /// It shows what the cells of its face do.
    ghost as_shown: { (world : Self) (moment : ℕ) (q : Question) → Self.shows_at world moment q ≡ shown_in (Self.shown world) q moment };
}

/// A change that a command makes.
pub trait BookChange: Change<World: BookWorld> {
    /// The change of a command.
    fn of(command: Command) -> Result<Self, NoMemory>
        ensures after { IfOk result (λ change. (t : Tables) → Self.after change t ≡ after_command_on command t) }
        ensures empties { IfOk result (λ change. (q : Question) → Self.empties change q ≡ covers command q) }
        ensures reason { IfOk result (λ change. (t : Tables) → Self.reason change t ≡ option_map code_of (reason_on t command)) }
        ensures told { IfOk result (λ change. Self.told change ≡ command) }
        ensures table { IfOk result (λ change. Self.table change ≡ table_of command) }
        ensures removes { IfOk result (λ change. (t : Tables) → Self.removes change t ≡ removes command t) };
}
