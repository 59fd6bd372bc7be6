//! The laws of undo: the contracts that a world and its changes keep.
#![tactic(auto)]

// A kept change: its ticket, and whether it is in effect.
mod kept;
// Refusals of an admission and of a change.
mod fault;
// The world: its face, and the changes that it keeps.
mod world;
// A change of a world, with its way back.
mod change;

pub use change::Change;
pub use fault::{ChangeFault, WorldFault};
pub use kept::{KeptChange, Standing};
pub use world::World;
