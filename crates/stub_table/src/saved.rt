//! The way back of a change.

use crate::stub::Stub;
use named_list::Turn;

/// The way back of a change, for `StubTable::back`. After `back` it is the way forward, for `StubTable::again`.
#[derive(Drop)]
pub struct SavedStubs {
    pub(crate) turn: Turn<Stub>,
}
