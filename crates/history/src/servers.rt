//! The servers to ask about a name.

use dns_name::Name;
use dns_text::{Addr, Items};

/// The origin of a list of servers.
#[derive(Clone, Copy, PartialEq, Eq)]
pub enum Origin {
    /// The settings, for the root.
    Hints,
    /// A stub.
    Stub,
    /// An NS set of the cache.
    Cache,
}

/// The servers that are closest to a name.
#[derive(Drop, PartialEq)]
pub struct Servers {
    /// The zone that they serve. The name is at or below it.
    pub zone: Name,
    pub source: Origin,
    /// Where they listen, in the order of the servers, and of each those of IPv4 first.
    pub addrs: Items<Addr>,
    /// The servers of which the cache has no address.
    pub missing: Items<Name>,
}
