//! The end of a drawn run.

use thiserror::Error;

/// A draw or a call came to nothing.
#[derive(Clone, Copy, Debug, PartialEq, Eq, Error)]
#[error("a draw or a call came to nothing")]
pub struct Stop;
