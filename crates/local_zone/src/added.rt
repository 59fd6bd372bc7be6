//! The way back of a change of the records.

use crate::removed::Removed;
use dns_text::{Record, Shared, Ttl};

/// A record that was added, whether it was new, and the TTL that its set had before.
#[derive(Drop)]
pub(crate) struct Added {
    pub(crate) said: Shared<Record>,
    pub(crate) ttl: Ttl,
    pub(crate) is_new: bool,
}

/// The difference between the list and the one on the other side of a change.
#[derive(Drop)]
pub(crate) enum RecordTurn {
    /// Both are equal.
    Nothing,
    /// The other list lacks this record, which was added.
    Added(Added),
    /// The other list has this record added.
    Adds(Shared<Record>),
    /// The other list has these records, which were taken out, in their places.
    Removed(Removed),
    /// The other list lacks the records at these gaps.
    Removes(Vec<usize>),
}
