//! Servers that are not asked, because of the list that named their address.

ghost use Rattle.std.specs.Prelude.{◌≡◌, ◌↔◌, IsTrue, Any};
ghost use Rattle.std.specs.Option.{option_copied};
ghost use Rattle.system.specs.Ranges.{IsInRange};
ghost use Rattle.outside.specs.Withheld.{IsAskedUp, IsOfStrangers, IsWithheld};

use crate::fitting::MOST_MISFITS;
use crate::framed_query::MOST_QUERY;
use dns_text::{Addr, Ip};
use history::Origin;
use iterate::Hunt;
use system::AddressRange;

/// The most addresses of one list of servers that are asked for one question. Whoever owns a zone may name 64 addresses of a
/// victim: without this limit, each question about the zone would send the victim 64 packets.
pub const MOST_LISTED: usize = 16;

/// At most 16 addresses of one list are asked for one question, and the second datagram that does not fit a query ends its exchange. A
/// query has at most 512 octets.
pub fn limits_law()
    ensures listed { MOST_LISTED ≡ 16 }
    ensures misfits { MOST_MISFITS ≡ 2 }
    ensures query { MOST_QUERY ≡ 512 }
{}

/// Whether strangers may have named the addresses of a list: it is none of the operator's.
pub fn is_of_strangers(hunt: Option<&Hunt>) -> bool
    ensures { IsTrue result ↔ IsOfStrangers (option_copied hunt.entry) }
{
    match hunt {
        Some(hunt) => matches!(hunt.servers.get().source, Origin::Cache),
        None => true,
    }
}

/// Whether as many addresses of a list were asked in vain as may be asked.
fn is_asked_up(hunt: Option<&Hunt>) -> bool
    ensures { IsTrue result ↔ IsAskedUp (option_copied hunt.entry) }
{
    match hunt {
        Some(hunt) => hunt.asked >= MOST_LISTED,
        None => false,
    }
}

/// Whether an address lies in one of the ranges.
fn is_in_ranges(ranges: &[AddressRange], ip: &Ip) -> bool
    ensures { IsTrue result ↔ Any (λ range. IsInRange range ip.now) ranges.now }
{
    for range in ranges {
        if range.holds(ip) {
            return true;
        }
    }
    false
}

/// Whether a server is not asked that this list named. Servers of stubs and hints always are. Those of the cache are not once
/// `MOST_LISTED` addresses of the list were asked in vain, nor if their address lies in one of the ranges. A server of an unknown
/// list is treated as one of the cache.
pub fn is_withheld(ranges: &[AddressRange], server: &Addr, hunt: Option<&Hunt>) -> bool
    ensures { IsTrue result ↔ IsWithheld ranges.now server.now (option_copied hunt.entry) }
{
    is_of_strangers(hunt) && (is_asked_up(hunt) || is_in_ranges(ranges, &server.ip))
}
