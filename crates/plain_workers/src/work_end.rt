//! The end of a worker.

/// The cause for which a worker ended.
#[derive(Clone, Copy, PartialEq, Eq)]
pub enum WorkEnd {
    /// The port or the listener has ended, or the stop flag is set.
    Ended,
    /// It failed `MOST_FAILURES` times with no success between.
    Failing,
}
