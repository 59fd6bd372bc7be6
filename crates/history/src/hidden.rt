//! How many cached names a flush hides, counted some names at a time.

/// What one turn of the count found. It is for an operator's eyes: names come and go between two turns.
#[derive(Clone, Copy, Drop)]
pub struct Hidden {
    /// The names of which the flush hides a cell with data alive.
    pub names: u64,
    /// The names that were visited.
    pub visited: u64,
    /// The place at which the next turn begins, if names are left.
    pub next: Option<u64>,
}

impl Hidden {
    /// Nothing was visited, and nothing is left.
    pub fn none() -> Hidden {
        Hidden {
            names: 0,
            visited: 0,
            next: None,
        }
    }
}
