//! The way back of a change.

use crate::added::RecordTurn;
use crate::zone::Zone;
use named_list::Turn;

/// The way back of a change, for `ZoneTable::back`. After `back` it is the way forward, for `ZoneTable::again`.
#[derive(Drop)]
pub struct SavedTables {
    pub(crate) zones: Turn<Zone>,
    pub(crate) records: RecordTurn,
}
