//! The type of a message's harvest.

use crate::passing::PassingSet;
use dns_text::{Items, Shared};
use ranked::SharedFind;

/// The harvest of a message: the sets and the negative answer that it is believed to have.
#[derive(Drop, PartialEq)]
pub struct Harvest {
    /// The sets that may be cached, and last the negative answer, if there is one.
    pub finds: Items<SharedFind>,
    /// Those of the finds that are handed to a cache: of `MOST_MEMORY` octets at most, and `MOST_CHOSEN` at most.
    pub chosen: Items<SharedFind>,
    /// The sets with a TTL of 0, which may be passed on once but not cached.
    pub passing: Items<Shared<PassingSet>>,
}
