//! The lookout for an operator who sends `stop`, while the service serves none.

use std::io;

/// Whoever can look at the operators that wait.
pub trait Lookout {
    /// Looks at the operators. It is an error if one has sent `stop`.
    fn look(&mut self) -> io::Result<()>;
}
