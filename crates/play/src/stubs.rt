//! Stubs: what becomes of each line.
//!
//! | Line | What it does |
//! |---|---|
//! | `do CHANGE` | makes a change: `set NAME ADDR..` or `remove NAME` |
//! | `undo CHANGE` | makes a change, lists the stubs, and takes the change back |
//! | `list`, `new` | lists the stubs; begins with none |
//! | `closest NAME` | the stub that is closest to a name |
//! | `fill` | sets one stub more than there may be |

pub mod change; // the change that a line asks for, and making it
pub mod shown; // stubs as text
pub mod lines; // the table, as lines change it

use crate::changes::play_changes;
use crate::stop::Stop;
use stub_table::StubTable;

/// Obeys lines over stubs.
pub fn play_stubs(rt: &HostRuntime) -> Result<(), Stop> {
    play_changes(rt, StubTable::new(rt.alloc()))
}
