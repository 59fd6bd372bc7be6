//! The harvest of a message: its records and its negative answer, ranked by trust.
#![tactic(auto)]

// In the order in which to read them.

// The records that count, and how far each is trusted.
mod counted;
// Data of one type without duplicates.
mod distinct;
// The records of one owner, type and rank.
mod gathering;
// All the sets of a message.
mod sets;
// A set with a TTL of 0.
mod passing;
// The finds that are handed to a cache.
mod choosing;
// The harvest of a message, and its type.
mod harvest_type;
mod harvesting;
// Laws of the definitions, which callers may cite.
mod laws;

pub use choosing::{MOST_CHOSEN, MOST_MEMORY, MOST_SERVERS};
pub use harvest_type::Harvest;
pub use harvesting::harvest;
pub use laws::{chosen_law, limits_law, zone_law};
pub use passing::PassingSet;
