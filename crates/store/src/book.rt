//! The tables and the cache as a book needs them: what they show, and the change of each command.

ghost use Rattle.std.specs.Prelude.{◌≡◌, IfOk};
ghost use Rattle.store.specs.Command.{IsMadeOf};

use crate::store::{Made, SavedChange, Store, StoreChange, WayBack};
use crate::world::{FlushChange, SavedFlush, ShelfWorld};
use dns_name::{Name, NoMemory};
use dns_text::Question;
use history::{CellSource, Command, Hidden, Seen, Tables, question_sight, sight_beside};
use ranked::Held;
use std::alloc::Global;
use table_changes::TableChange;
use world_book::{BookChange, BookWorld};

impl BookWorld for Store {
    ghost use Rattle.std.specs.Prelude.{refl};
    ghost use Rattle.store.specs.StoreLaws.{flush_needs_none};

    fn tables(&self) -> &Tables {
        self.tables.tables()
    }

    fn stored(&self) -> usize {
        self.cells.stored() as usize
    }

    fn command(saved: &SavedChange) -> &Command {
        &saved.command
    }

    fn answer_over(
        &self,
        alloc: Global,
        saved: &SavedChange,
        question: &Question,
        moment: u64,
    ) -> Result<Seen, NoMemory> {
        match &saved.way {
            WayBack::Table(saved) => {
                let answer = self.tables.answer_over(alloc, saved, question)?;
                sight_beside(alloc, self, answer, question, moment)
            }
            WayBack::Flush(saved) => {
                self.cells.over_law(saved);
                let cells = CellsOver {
                    cells: &self.cells,
                    saved,
                };
                let local = &self.tables.tables().local;
                question_sight(&cells, local, question, moment).to_seen(alloc)
            }
        }
    }

    fn hidden_some(&self, saved: &SavedChange, from: u64, moment: u64) -> Hidden {
        match &saved.way {
            WayBack::Table(_) => Hidden::none(),
            WayBack::Flush(saved) => self.cells.hidden_some(saved, from, moment),
        }
    }

    ghost needs_none = { λ saved none. flush_needs_none saved.way none };

    ghost with_cells = { refl };

    ghost as_shown = { λ world moment q. refl };
}

/// The cells of a cache, if one of its flushes were undone, or redone.
#[derive(Clone, Copy, Drop)]
struct CellsOver<'b> {
    cells: &'b ShelfWorld,
    saved: &'b SavedFlush,
}

impl<'b> CellSource for CellsOver<'b> {
    ghost use Rattle.store.specs.World.{shows_over};

    ghost shows_at = { λ cells moment q. shows_over cells.cells.now cells.saved.now moment q };

    fn shows<'a>(&'a self, owner: &Name, kind: u16, moment: u64) -> Option<Held<'a>> {
        self.cells.show_over(self.saved, owner, kind, moment)
    }
}

// The change of a command: a flush of the cache, or a change of the tables.
fn made_of(command: &Command) -> Result<Made, NoMemory>
    ensures { IfOk result (λ made. IsMadeOf command.now made) }
{
    match command.flush()? {
        Some(flush) => Ok(Made::Flush(FlushChange { flush })),
        None => match TableChange::of(command)? {
            Some(change) => Ok(Made::Table(change)),
            None => unreachable!(),
        },
    }
}

impl BookChange for StoreChange {
    fn of(command: Command) -> Result<StoreChange, NoMemory> {
        let made = made_of(&command)?;
        Ok(StoreChange { command, made })
    }
}

impl CellSource for Store {
    ghost use Rattle.ranked.specs.Cell.{shown_at};
    ghost use Rattle.store.specs.Store.{store_shown};

    ghost shows_at = { λ store moment q. shown_at ((store_shown store).cell q) moment };

    fn shows<'a>(&'a self, owner: &Name, kind: u16, moment: u64) -> Option<Held<'a>> {
        self.cells.show(owner, kind, moment)
    }

    fn shows_both<'a>(
        &'a self,
        owner: &Name,
        first: u16,
        second: u16,
        moment: u64,
    ) -> (Option<Held<'a>>, Option<Held<'a>>) {
        self.cells.show_both(owner, first, second, moment)
    }
}
