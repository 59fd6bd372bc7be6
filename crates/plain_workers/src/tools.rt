//! The tools of a task.

/// The tools that resolve a question, beside the desk that answers from the cache.
#[derive(Drop)]
pub struct Tools<X, C, R> {
    /// Sends queries to name servers.
    pub exchange: X,
    /// Counts the seconds.
    pub clock: C,
    /// Draws the identifiers of queries.
    pub ids: R,
    /// The port of name servers whose addresses come from the cache or from a response.
    pub server_port: u16,
}
