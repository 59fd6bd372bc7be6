//! The tables that the operator's commands make.

ghost use Rattle.std.specs.Prelude.{◌≡◌};
ghost use Rattle.history.specs.Changes.{no_tables};

use local_zone::ZoneTable;
use std::alloc::Global;
use stub_table::StubTable;

/// Local zones and records, and stubs.
#[derive(Drop)]
pub struct Tables {
    pub local: ZoneTable,
    pub stubs: StubTable,
}

impl Tables {
    /// Empty tables. They take no memory.
    pub fn new(alloc: Global) -> Tables
        ensures { result ≡ no_tables }
    {
        Tables {
            local: ZoneTable::new(alloc),
            stubs: StubTable::new(alloc),
        }
    }
}
