//! How the workers of a service ask name servers.

use crate::zone_shares::ZoneShares;
use outside::Permits;
use std::sync::atomic::AtomicU64;
use system::AddressRange;

/// How the workers of a service ask name servers. All of them share it.
#[derive(Clone, Copy)]
pub struct AskingTerms<'a> {
    /// The port at which servers are queried whose addresses are learnt.
    pub server_port: u16,
    /// The addresses that are queried only as those of stubs or hints.
    pub do_not_query: &'a [AddressRange],
    /// The permits of exchanges.
    pub permits: &'a Permits,
    /// The shares of zones in the cache.
    pub shares: &'a ZoneShares,
    /// A number that rises whenever servers may have to be tried anew, since an operator changed which ones are asked. Workers then
    /// forget which servers were silent.
    pub renewals: &'a AtomicU64,
}
