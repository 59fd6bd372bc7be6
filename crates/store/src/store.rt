//! The tables and the cache as one world, in which every command can be undone.

use crate::world::{FlushChange, SavedFlush, ShelfWorld};
use cell_store::NameSeed;
use change_law::{Change, ChangeFault, Standing, World, WorldFault};
use dns_name::{Name, NoMemory};
use history::{Command, Tables};
use ranked::{Fate, SharedFind};
use std::alloc::Global;
use table_changes::{SavedTable, TableChange, TableWorld};

/// What a kept change saved for its way back.
#[derive(Drop)]
pub enum WayBack {
    Table(SavedTable),
    Flush(SavedFlush),
}

/// A kept change: its command, and its way back.
#[derive(Drop)]
pub struct SavedChange {
    pub command: Command,
    pub way: WayBack,
}

/// The change of a command, of the tables or of the cache.
#[derive(Drop)]
pub enum Made {
    Table(TableChange),
    Flush(FlushChange),
}

/// The change that a command makes, and the command.
#[derive(Drop)]
pub struct StoreChange {
    pub command: Command,
    pub made: Made,
}

/// The local zones and records, the stubs, and the cache.
#[derive(Drop)]
pub struct Store {
    pub tables: TableWorld,
    pub cells: ShelfWorld,
}

impl Store {
    ghost use Rattle.std.specs.Prelude.{◌≡◌, ◌≤◌, ◌+◌, ◌^◌, List, length};
    ghost use Rattle.change_law.specs.declared.kept.KeptChange.{KeptChange};
    ghost use Rattle.store.specs.declared.store.SavedChange.{SavedChange};
    ghost use Rattle.world_book.specs.Book.{IsUntouched};
    ghost use Rattle.world_book.specs.Deeds.{empty_face};

    /// Empty tables and an empty cache that may store so many cells. The cache's index hashes with this seed. If there is memory, it has
    /// room for so many names from the start.
    pub fn new(alloc: Global, limit: u64, room: usize, seed: NameSeed) -> Store
        requires { limit ≤ 2 ^ 62 }
        ensures untouched { IsUntouched ⟦<Store as World>⟧ empty_face limit result }
        ensures seed { result.cells.seed ≡ seed }
    {
        Store {
            tables: TableWorld::new(alloc),
            cells: ShelfWorld::seeded(alloc, limit, room, seed),
        }
    }

    /// How many versions a place of the cache may have. Each but one comes from a kept change, a flush.
    pub fn versions(&self) -> usize
        ensures versions { result ≡ length self.now.cells.flushes + 1 }
        ensures few { (kept : List (KeptChange SavedChange)) → ⟦<Store as World>⟧.keeps self.now kept → result ≤ length kept + 1 }
    {
        self.cells.versions()
    }
}

impl World for Store {
    ghost use Rattle.std.specs.Prelude.{true};
    ghost use Rattle.store.specs.Store.{store_face, store_shown, table_of, needs_after_of, needs_memory_of, KeepsStore};
    ghost use Rattle.store.specs.StoreLaws.{clears_store, shows_store};
    ghost use Rattle.store.specs.ReadLaws.{reads_store};
    ghost use Rattle.store.specs.Sweep.{turn_of_sweep, unswept_later};
    ghost use Rattle.store.specs.World.{counts_in, unswept_in};

    type Tables = Tables;

    type Saved = SavedChange;

    type Told = Command;

    ghost has_cells = { true };

    ghost table = { λ saved. table_of saved.way };

    ghost told = { λ saved. saved.command };

    ghost needs_memory = { λ saved. needs_memory_of saved.way };

    ghost needs_memory_after = { λ saved. needs_after_of saved.way };

    ghost keeps = { KeepsStore };

    ghost face = { store_face };

    ghost newest = { λ store. store.cells.top };

    ghost shown = { store_shown };

    ghost stored = { λ store. store.cells.stored };

    ghost limit = { λ store. store.cells.limit };

    ghost counts = { λ store pair. counts_in store.cells pair };

    ghost unswept = { λ store moment. unswept_in store.cells moment };

    ghost turn = { turn_of_sweep };

    ghost shows = { λ world kept chosen h p. shows_store world kept chosen h p };

    ghost later = { λ store s t le. unswept_later store.cells s t le };

    fn table(saved: &SavedChange) -> Option<u8> {
        match &saved.way {
            WayBack::Table(saved) => <TableWorld as World>::table(saved),
            WayBack::Flush(_) => None,
        }
    }

    fn admit(&mut self, find: SharedFind, moment: u64) -> Result<Fate, WorldFault> {
        match self.cells.admit(find, moment) {
            Ok(fate) => return Ok(fate),
            Err(fault) => return Err(fault),
        }
    }

    fn sweep(&mut self, moment: u64) {
        self.cells.sweep(moment);
    }

    fn sweep_some(&mut self, moment: u64) -> bool {
        self.cells.sweep_some(moment)
    }

    fn forget(&mut self, owner: &Name) {
        self.cells.forget(owner);
    }

    fn oldest(&self, moment: u64) -> Option<&Name> {
        match self.cells.oldest(moment) {
            Some(name) => Some(name),
            None => None,
        }
    }

    ghost reads = { λ world kept chosen other h same q. reads_store world kept chosen other h same q };

    ghost clears = { λ world kept h. clears_store world kept h };
}

impl Change for StoreChange {
    ghost use Rattle.store.specs.Store.{reason_of_made, after_made, empties_made, removes_made, table_of_made};

    type World = Store;

    ghost reason = { λ change. reason_of_made change.made };

    ghost after = { λ change. after_made change.made };

    ghost empties = { λ change. empties_made change.made };

    ghost removes = { λ change. removes_made change.made };

    ghost table = { λ change. table_of_made change.made };

    ghost told = { λ change. change.command };

    fn table(&self) -> Option<u8> {
        match &self.made {
            Made::Table(change) => change.table(),
            Made::Flush(_) => None,
        }
    }

    fn apply(self, world: &mut Store, ticket: u64) -> Result<SavedChange, ChangeFault> {
        let StoreChange { command, made } = self;
        match made {
            Made::Table(change) => {
                let saved = change.apply(&mut world.tables, ticket)?;
                Ok(SavedChange {
                    command,
                    way: WayBack::Table(saved),
                })
            }
            Made::Flush(change) => {
                let saved = change.apply(&mut world.cells, ticket)?;
                Ok(SavedChange {
                    command,
                    way: WayBack::Flush(saved),
                })
            }
        }
    }

    fn turn(world: &mut Store, from: Standing, saved: &mut SavedChange) -> Result<(), NoMemory> {
        match &mut saved.way {
            WayBack::Table(saved) => {
                TableChange::turn(&mut world.tables, from, saved)?;
                Ok(())
            }
            WayBack::Flush(saved) => {
                FlushChange::turn(&mut world.cells, from, saved)?;
                Ok(())
            }
        }
    }

    fn settle(world: &mut Store, saved: SavedChange) {
        let SavedChange {
            command: _command,
            way,
        } = saved;
        match way {
            WayBack::Table(saved) => {
                TableChange::settle(&mut world.tables, saved);
                return;
            }
            WayBack::Flush(saved) => {
                FlushChange::settle(&mut world.cells, saved);
                return;
            }
        }
    }
}
