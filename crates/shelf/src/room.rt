//! Room for a find: whether it can be cached.

/// Whether a find can be cached.
#[derive(Clone, Copy, PartialEq, Eq)]
pub enum Room {
    /// Every version has content that outranks it.
    Unwanted,
    /// It needs a new place, and the counted places are at the limit.
    Full,
    /// Its place is counted already, or the limit allows one more.
    Free,
}
