//! What an undo or a redo of a ticket did, or would do.

/// What an undo of a ticket would do.
#[derive(Clone, Copy, PartialEq, Eq, Drop)]
pub enum TicketReach {
    /// It would take back the change at this place.
    At { place: usize },
    /// It could not: the journal does not hold the change so.
    NotKept,
    /// Another change of its table would have to be undone first: the farthest of those in the way.
    Buried { ticket: u64 },
}

/// What an undo or a redo of a ticket did.
#[derive(Clone, Copy, PartialEq, Eq, Drop)]
pub enum Outcome {
    /// The change of the ticket is undone, or in effect again.
    Moved,
    /// It could not be undone, or redone: the journal does not hold it so. Nothing changed.
    NotKept,
    /// Another change of its table must be undone, or redone, first: the farthest of those in the way. Nothing changed.
    Buried { ticket: u64 },
}
