//! What is wrong with what came of an exchange.

/// What is wrong with what came of an exchange, so that it ends without a reply.
#[derive(Clone, Copy, PartialEq, Eq)]
pub enum Flaw {
    /// The reply would take too long to read.
    Dear,
    /// Too many datagrams came that cannot be the reply. Some were forged, or the server is not sound.
    Misfits,
}

impl Flaw {
    /// The flaw in the words of the log.
    pub fn cause(self) -> &'static str {
        match self {
            Flaw::Dear => "too dear to read",
            Flaw::Misfits => "replies that do not fit",
        }
    }
}
