//! The limits of moments, counts and settings.

ghost use Rattle.std.specs.Prelude.{◌↔◌, IsTrue, ◌≡◌, IfOk};
ghost use Rattle.history.specs.Event.{AreSettings, lagging_of};

use crate::closest::copy_addrs;
use crate::event::Settings;
use dns_name::NoMemory;
use std::alloc::Global;
use thiserror::Error;

/// The moment that no event may give, nor a later one, in seconds.
pub const MOMENT_END: u64 = 1 << 40;

/// The most events that a book takes.
pub const MOST_EVENTS: usize = (1 << 62) - 1;

/// The most commands that a book can be made to undo.
pub const MOST_COMMANDS: usize = 256;

/// The most cells that a book can be made to store.
pub const MOST_CELLS: usize = 1_000_000;

/// The cells that a book that lags behind another one may store. It takes fewer events, so it is never full.
pub const LAGGING_CELLS: usize = 1 << 62;

/// The most hints that a book can be made with.
pub const MOST_HINTS: usize = 16;

/// Why no book is made.
#[derive(Clone, Copy, Debug, PartialEq, Eq, Error)]
pub enum MakeFault {
    /// A number of the settings is out of its range.
    #[error("bad settings")]
    BadSettings,
    /// Memory was refused.
    #[error("out of memory")]
    NoMemory,
}

/// Whether each is in its range.
pub fn are_settings(settings: &Settings) -> bool
    ensures { IsTrue result ↔ AreSettings settings.now }
{
    let has_journal = settings.journal >= 1 && settings.journal <= MOST_COMMANDS;
    let has_cells = settings.cells >= 1 && settings.cells <= MOST_CELLS;
    let has_hints = settings.hints.as_slice().len() <= MOST_HINTS;
    has_journal && has_cells && has_hints && settings.server_port >= 1
}

impl Settings {
    /// The settings of a book that lags behind one of these.
    pub fn lagging(&self, alloc: Global) -> Result<Settings, NoMemory>
        ensures { IfOk result (λ settings. settings ≡ lagging_of self.now) }
    {
        Ok(Settings {
            journal: self.journal,
            cells: LAGGING_CELLS,
            hints: copy_addrs(alloc, &self.hints)?,
            server_port: self.server_port,
        })
    }
}

/// A moment is below 2^40 seconds, a book takes fewer than 2^62 events, and it can be made to undo 256 commands,
/// to store 1,000,000 cells and to begin with 16 hints. One that lags behind may store 2^62 cells.
pub fn limits_law()
    ensures moment { MOMENT_END ≡ 1099511627776 }
    ensures events { MOST_EVENTS ≡ 4611686018427387903 }
    ensures commands { MOST_COMMANDS ≡ 256 }
    ensures cells { MOST_CELLS ≡ 1000000 }
    ensures lagging { LAGGING_CELLS ≡ 4611686018427387904 }
    ensures hints { MOST_HINTS ≡ 16 }
{}
