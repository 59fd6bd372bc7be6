//! The query for a question, and the verdict on a server's response (RFC 1034, section 5.3.3).
#![tactic(auto)]

// In the order in which to read them.

// The transport of a query.
mod over;
// The query for a question.
mod asking;
// Octets that are a response to a query.
mod response;
// A set of a harvest.
mod sets;
// The sets of a harvest that may be used as answers.
mod believing;
// The verdict on a response.
mod verdict;
// The zone to which a response refers.
mod referred_zone;
// The servers that a response names, and their addresses.
mod servers;
// Referrals: the zone, its servers and their addresses.
mod referral;
// Judging the octets that came for a query.
mod judging;

pub use asking::query;
pub use believing::believed;
pub use judging::judge;
pub use over::Over;
pub use sets::Believed;
pub use verdict::{Heard, Referral, Says, Verdict};
