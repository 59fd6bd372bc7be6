//! The first ends of dense positions, in a tree of winners: it finds a position that has ended in a walk from the root.
#![tactic(auto)]

// The tree.
mod tree;

pub use tree::WinnerTree;
