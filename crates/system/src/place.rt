//! The place of a name server: its address and port as std has them.

ghost use Rattle.system.specs.Place.{IsPlaceOf};

use dns_text::{Addr, Ip};
use std::net::{IpAddr, Ipv4Addr, Ipv6Addr, SocketAddr};

/// The address and port of a server as std has them.
pub fn place_of(server: &Addr) -> SocketAddr
    ensures { IsPlaceOf server.now result }
{
    let ip = match server.ip {
        Ip::V4(octets) => IpAddr::V4(Ipv4Addr::from_octets(octets)),
        Ip::V6(octets) => IpAddr::V6(Ipv6Addr::from_octets(octets)),
    };
    SocketAddr::new(ip, server.port)
}
