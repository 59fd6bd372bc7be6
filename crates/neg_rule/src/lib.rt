//! Negative answers in the responses of servers: a name has no data of a type, or does not exist (RFC 2308).
#![tactic(auto)]

// In the order in which to read them.

// The last name of a question, to which CNAME records lead.
mod alias;
// The negative answer of a response, and its TTL.
mod negative;
// Laws of the definitions, which callers may cite.
mod laws;

pub use alias::MOST_RESPONSE_ALIASES;
pub use laws::{denial_law, last_law, limits_law};
pub use negative::negative_of;
