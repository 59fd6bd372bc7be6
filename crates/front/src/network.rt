//! The network of an address.

ghost use Rattle.std.specs.Prelude.{◌≡◌};
ghost use Rattle.std.specs.Net.Socket.{socket_ip};
ghost use Rattle.front.specs.Networks.{network_of, v4_network, v6_front, v6_network};

use std::net::{IpAddr, SocketAddr};

/// The first 24 bits of an IPv4 address.
fn v4_network(octets: [u8; 4]) -> u64
    ensures { result ≡ v4_network octets }
{
    (u64::from(octets[0]) * 256 + u64::from(octets[1])) * 256 + u64::from(octets[2])
}

/// The first 64 bits of an IPv6 address.
fn v6_front(segments: [u16; 8]) -> u64
    ensures { result ≡ v6_front segments }
{
    let front = u64::from(segments[0]) * 65_536 + u64::from(segments[1]);
    (front * 65_536 + u64::from(segments[2])) * 65_536 + u64::from(segments[3])
}

/// The first 64 bits of an IPv6 address, or the first 24 of the IPv4 address for which it stands (RFC 4291, section 2.5.5.2).
fn v6_network(segments: [u16; 8]) -> u64
    ensures { result ≡ v6_network segments }
{
    let front = v6_front(segments);
    let next = u64::from(segments[4]) * 65_536 + u64::from(segments[5]);
    if front == 0 && next == 65_535 {
        return u64::from(segments[6]) * 256 + u64::from(segments[7]) / 256;
    }
    front
}

/// The network that an address is of, as a number: the /24 of an IPv4 address, the /64 of an IPv6 address.
pub fn network_of(place: SocketAddr) -> u64
    ensures { result ≡ network_of (socket_ip place) }
{
    match place.ip() {
        IpAddr::V4(ip) => v4_network(ip.octets()),
        IpAddr::V6(ip) => v6_network(ip.segments()),
    }
}
