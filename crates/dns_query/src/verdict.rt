//! The verdict on the octets that came for a query.

use dns_name::Name;
use dns_text::{Addr, Items};
use dns_wire::Rcode;
use harvest::Harvest;
use ranked::SharedFind;

/// Servers nearer to a name, as a response names them (RFC 1034, section 5.3.3, step 4b).
#[derive(Drop, PartialEq)]
pub struct Referral {
    /// Their zone, strictly below the one asked.
    pub zone: Name,
    /// The addresses server by server, IPv4 first.
    pub addrs: Items<Addr>,
    /// The servers without an address in the response.
    pub missing: Items<Name>,
}

/// The answer, denial or referral of a response.
#[derive(Drop, PartialEq)]
pub enum Says {
    /// The harvest has, at rank 2 or more, the set that the question asks for or a CNAME record of its name.
    Answers,
    /// The response is authoritative and has neither of them.
    Denies {
        /// No error (0) or no such name (3).
        rcode: Rcode,
        /// The negative answer as a find, if the response has an SOA record for it: it is in the harvest too (RFC 2308, section 5).
        negative: Option<SharedFind>,
    },
    /// The response names servers of a zone nearer to the name.
    Refers(Referral),
}

/// A response that is of use.
#[derive(Drop, PartialEq)]
pub struct Heard {
    /// The sets and the negative answer of the response.
    pub harvest: Harvest,
    /// The answer, denial or referral.
    pub says: Says,
}

/// The verdict on the octets that came for a query.
#[derive(Drop, PartialEq)]
pub enum Verdict {
    /// Nothing of use: no response, or one that neither answers, denies nor refers.
    Struck,
    /// A response that was truncated to fit a datagram. It is available whole over TCP (RFC 2181, section 9).
    Cut,
    /// A response that is of use.
    Heard(Heard),
}
