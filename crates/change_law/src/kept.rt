//! A kept change: one that can be undone and redone.

/// Whether a kept change is in effect.
#[derive(Clone, Copy, PartialEq, Eq, Drop)]
pub enum Standing {
    /// It is in effect, and can be undone.
    Done,
    /// It was undone, and can be redone.
    Undone,
    /// It was undone and cannot be redone any more. The next settling removes it.
    Cleared,
}

/// A kept change: its ticket, whether it is in effect, and the data for its way back.
#[derive(Drop)]
pub struct KeptChange<S> {
    pub ticket: u64,
    pub standing: Standing,
    pub saved: S,
}
