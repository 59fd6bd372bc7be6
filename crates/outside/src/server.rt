//! A name server over one transport, a question to it, and a zone at it: the keys of what a worker remembers.

ghost use Rattle.std.specs.Prelude.{◌≡◌};
ghost use Rattle.std.proofs.lemmas.Bool.{and_parts};
ghost use Rattle.outside.specs.Servers.{ip_octets};

use dns_name::Name;
use dns_query::Over;
use dns_text::{Addr, Ip};
use std::hash::{Hash, Hasher};

/// A name server over one transport.
#[derive(Clone, Copy, PartialEq, Eq)]
pub struct Server {
    pub addr: Addr,
    pub over: Over,
}

/// A question to a server: the name and the type that a query asks for, and whom it asks.
#[derive(PartialEq, Eq, Hash, Drop)]
pub struct QuestionAt {
    pub server: Server,
    pub owner: Name,
    pub kind: u16,
}

/// A zone at a server.
#[derive(PartialEq, Eq, Hash, Drop)]
pub struct ZoneAt {
    pub server: Server,
    pub zone: Name,
}

/// The octets of an IP address.
fn octets_of(ip: &Ip) -> &[u8]
    ensures { result.now ≡ ip_octets ip.now }
{
    match ip {
        Ip::V4(octets) => octets,
        Ip::V6(octets) => octets,
    }
}

impl Hash for Server {
    ghost use Rattle.outside.specs.Servers.{server_hash, server_hash_same};

    // The transport is left out: a server has two at most.
    ghost hash_input = { server_hash };

    ghost respects_eq = { λ x y same. server_hash_same x y (and_parts _ _ same).0 };

    fn hash<H: Hasher>(&self, state: &mut H) {
        state.write(octets_of(&self.addr.ip));
        self.addr.port.hash(state);
    }
}
