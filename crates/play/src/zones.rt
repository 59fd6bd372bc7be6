//! Local zones and local data: what becomes of each line.
//!
//! | Line | What it does |
//! |---|---|
//! | `do CHANGE` | makes a change: `set NAME TYPE`, `drop NAME`, `add RECORD` or `forget NAME` |
//! | `undo CHANGE` | makes a change, lists zones and records, and takes the change back |
//! | `list` | lists zones and records |
//! | `ask NAME TYPE` | answers a question |
//! | `count`, `new` | counts zones and records; begins with none |
//! | `fill_zones` | sets as many zones as there may be |

pub mod change; // the change that a line asks for, and making it
pub mod full; // a table of as many zones as there may be
pub mod shown; // tables and answers as text
pub mod lines; // the table, as lines change it

use crate::changes::play_changes;
use crate::stop::Stop;
use local_zone::ZoneTable;

/// Obeys lines over local zones.
pub fn play_zones(rt: &HostRuntime) -> Result<(), Stop> {
    play_changes(rt, ZoneTable::new(rt.alloc()))
}
