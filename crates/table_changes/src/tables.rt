//! Both tables as one world, and the six kinds of their changes.

ghost use Rattle.std.specs.Prelude.{◌≡◌, IfOk};

use crate::stubs::{StubChange, make_stub_change, turn_stubs};
use crate::zones::{ZoneChange, make_zone_change, turn_zones};
use change_law::{Change, ChangeFault, Standing, World, WorldFault};
use dns_name::{Name, NoMemory};
use dns_text::{Items, Question};
use history::{Command, Tables, share_answer};
use local_zone::{Local, LocalRecord, SavedTables, SeenRecord};
use ranked::{Fate, SharedFind};
use std::alloc::Global;
use stub_table::SavedStubs;

/// The operator's settings: local zones, records and stubs. It has no cells.
#[derive(Drop)]
pub struct TableWorld {
    tables: Tables,
}

/// A change of one of the two tables.
#[derive(Drop)]
pub enum TableChange {
    Zones(ZoneChange),
    Stubs(StubChange),
}

/// The way back of a change of one of the two tables.
#[derive(Drop)]
pub enum SavedTable {
    Zones(SavedTables),
    Stubs(SavedStubs),
}

impl TableChange {
    ghost use Rattle.table_changes.specs.Both.{change_of};

    /// The change of the tables that a command makes. A flush makes none. Records and stubs are shared, not copied.
    pub fn of(command: &Command) -> Result<Option<TableChange>, NoMemory>
        ensures { IfOk result (λ change. change ≡ change_of command.now) }
    {
        match command {
            Command::SetZone { name, kind } => Ok(Some(TableChange::Zones(ZoneChange::SetZone {
                name: name.clone()?,
                kind: *kind,
            }))),
            Command::DropZone { name } => {
                Ok(Some(TableChange::Zones(ZoneChange::DropZone(name.clone()?))))
            }
            Command::AddRecord { record } => {
                Ok(Some(TableChange::Zones(ZoneChange::AddRecord(record.share()?))))
            }
            Command::DropName { name } => {
                Ok(Some(TableChange::Zones(ZoneChange::DropName(name.clone()?))))
            }
            Command::SetStub { stub } => {
                Ok(Some(TableChange::Stubs(StubChange::Set(stub.share()?))))
            }
            Command::DropStub { name } => {
                Ok(Some(TableChange::Stubs(StubChange::Drop(name.clone()?))))
            }
            _ => Ok(None),
        }
    }
}

impl TableWorld {
    ghost use Rattle.std.specs.Prelude.{[]};
    ghost use Rattle.change_law.specs.Turn.{CanTurnOver};
    ghost use Rattle.table_changes.specs.Shown.{AnswersOver, ShowsEmpty};

    /// Empty tables, which keep no changes. They take no memory.
    pub fn new(alloc: Global) -> TableWorld
        ensures keeps { ⟦<TableWorld as World>⟧.keeps result [] }
        ensures empty { ShowsEmpty ⟦<TableWorld as World>⟧ result }
        ensures newest { ⟦<TableWorld as World>⟧.newest result ≡ 0 }
    {
        TableWorld {
            tables: Tables::new(alloc),
        }
    }

    /// The answer to a question on the other side of a change: after its undo if it is in effect, else after its redo. Nothing changes. A
    /// change of stubs has no part in it.
    pub fn answer_over(
        &self,
        alloc: Global,
        saved: &SavedTable,
        question: &Question,
    ) -> Result<Local<Items<SeenRecord>, LocalRecord>, NoMemory>
        requires { CanTurnOver ⟦<TableWorld as World>⟧.table ⟦<TableWorld as World>⟧.keeps self.now saved.now }
        ensures { IfOk result (AnswersOver ⟦<TableWorld as World>⟧ self.now saved.now question.now) }
    {
        match saved {
            SavedTable::Zones(saved) => self.tables.local.answer_over(saved, question),
            SavedTable::Stubs(_) => share_answer(alloc, &self.tables.local.answer(question)),
        }
    }

    /// The tables as they are.
    pub fn tables(&self) -> &Tables
        ensures { result.now ≡ (⟦<TableWorld as World>⟧.shown self.now).tables }
    {
        &self.tables
    }
}

impl World for TableWorld {
    ghost use Rattle.std.specs.Prelude.{false, true, refl};
    ghost use Rattle.table_changes.specs.Both.{saved_needs, saved_needs_after, saved_table, face_by, shown_tables, KeepsBoth};
    ghost use Rattle.table_changes.specs.BothLaws.{clears_both, none_later, shows_both};

    type Tables = Tables;

    type Saved = SavedTable;

    type Told = ();

    ghost has_cells = { false };

    ghost table = { saved_table };

    ghost told = { λ saved. tt };

    ghost needs_memory = { saved_needs };

    ghost needs_memory_after = { saved_needs_after };

    ghost keeps = { KeepsBoth };

    ghost face = { face_by };

    ghost newest = { λ world. 0 };

    ghost shown = { shown_tables };

    ghost stored = { λ world. 0 };

    ghost limit = { λ world. 0 };

    ghost counts = { λ world pair. false };

    ghost unswept = { λ world moment. 0 };

    ghost turn = { 0 };

    ghost shows = { λ world kept chosen h p. shows_both world kept chosen p };

    ghost later = { none_later };

    fn table(saved: &SavedTable) -> Option<u8> {
        match saved {
            SavedTable::Zones(_) => Some(1),
            SavedTable::Stubs(_) => Some(2),
        }
    }

    fn admit(&mut self, _find: SharedFind, _moment: u64) -> Result<Fate, WorldFault> {
        Ok(Fate::Taken)
    }

    fn sweep(&mut self, _moment: u64) {}

    fn sweep_some(&mut self, _moment: u64) -> bool {
        false
    }

    fn forget(&mut self, _owner: &Name) {}

    fn oldest(&self, _moment: u64) -> Option<&Name> {
        None
    }

    ghost reads = { λ world kept chosen other h same q. refl };

    ghost clears = { λ world kept h. clears_both world kept h };
}

impl Change for TableChange {
    ghost use Rattle.std.specs.Prelude.{false};
    ghost use Rattle.table_changes.specs.Both.{change_table, change_reason, change_removes, change_after};

    type World = TableWorld;

    ghost reason = { change_reason };

    ghost after = { change_after };

    ghost empties = { λ change question. false };

    ghost removes = { change_removes };

    ghost table = { change_table };

    ghost told = { λ change. tt };

    fn table(&self) -> Option<u8> {
        match self {
            TableChange::Zones(_) => Some(1),
            TableChange::Stubs(_) => Some(2),
        }
    }

    fn apply(self, world: &mut TableWorld, _ticket: u64) -> Result<SavedTable, ChangeFault> {
        match self {
            TableChange::Zones(change) => {
                let saved = make_zone_change(&mut world.tables.local, change)?;
                Ok(SavedTable::Zones(saved))
            }
            TableChange::Stubs(change) => {
                let saved = make_stub_change(&mut world.tables.stubs, change)?;
                Ok(SavedTable::Stubs(saved))
            }
        }
    }

    fn turn(
        world: &mut TableWorld,
        from: Standing,
        saved: &mut SavedTable,
    ) -> Result<(), NoMemory> {
        match saved {
            SavedTable::Zones(saved) => {
                turn_zones(&mut world.tables.local, from, saved)?;
                Ok(())
            }
            SavedTable::Stubs(saved) => {
                turn_stubs(&mut world.tables.stubs, from, saved)?;
                Ok(())
            }
        }
    }

    fn settle(world: &mut TableWorld, saved: SavedTable) {
        match saved {
            SavedTable::Zones(saved) => {
                world.tables.local.settle(saved);
                return;
            }
            SavedTable::Stubs(saved) => {
                world.tables.stubs.settle(saved);
                return;
            }
        }
    }
}
