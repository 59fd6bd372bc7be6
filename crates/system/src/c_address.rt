//! An address as the C library takes it: `sockaddr_in` or `sockaddr_in6`.

ghost use Rattle.std.specs.Prelude.{◌≡◌, ◌+◌, ◌≤◌, List, ℕ, ◌++◌, length};
ghost use Rattle.std.specs.Net.SockAddr.{family_and_port, sockaddr_in, sockaddr_in6, sockaddr, sockaddr_len, in_storage};

use libc::net as c;
use std::net::{SocketAddr, SocketAddrV4, SocketAddrV6};

/// The octets of `sockaddr_in`.
const V4_OCTETS: u32 = 16;

/// The octets of `sockaddr_in6`.
const V6_OCTETS: u32 = 28;

/// Writes the next field of an address.
fn put(raw: &mut [u8; c::_SS_SIZE], at: usize, octets: &[u8])
    requires { at + length octets.now ≤ 128 }
    ensures { (front : List ℕ) → length front ≡ at → raw.old ≡ in_storage front → raw.new ≡ in_storage (front ++ octets.now) }
{
    raw[at..at + octets.len()].copy_from_slice(octets);
}

/// The two fields with which either address begins.
fn family_and_port(family: u16, port: u16) -> [u8; c::_SS_SIZE]
    ensures { result ≡ in_storage (family_and_port family port) }
{
    let mut raw = [0u8; c::_SS_SIZE];
    put(&mut raw, 0, &family.to_ne_bytes());
    put(&mut raw, 2, &port.to_be_bytes());
    raw
}

/// An IPv4 address as `sockaddr_in`.
fn encode_v4(addr: SocketAddrV4) -> [u8; c::_SS_SIZE]
    ensures { result ≡ in_storage (sockaddr_in addr) }
{
    let mut raw = family_and_port(c::AF_INET as u16, addr.port());
    put(&mut raw, 4, &addr.ip().octets());
    raw
}

/// An IPv6 address as `sockaddr_in6`.
fn encode_v6(addr: SocketAddrV6) -> [u8; c::_SS_SIZE]
    ensures { result ≡ in_storage (sockaddr_in6 addr) }
{
    let mut raw = family_and_port(c::AF_INET6 as u16, addr.port());
    put(&mut raw, 4, &addr.flowinfo().to_ne_bytes());
    put(&mut raw, 8, &addr.ip().octets());
    put(&mut raw, 24, &addr.scope_id().to_ne_bytes());
    raw
}

/// The octets of an address, and how many of them the C library is to read.
pub(crate) fn encode(addr: SocketAddr) -> ([u8; c::_SS_SIZE], u32)
    ensures octets { result.0 ≡ in_storage (sockaddr addr) }
    ensures count { result.1 ≡ sockaddr_len addr }
    ensures within { result.1 ≤ 128 }
{
    match addr {
        SocketAddr::V4(addr) => (encode_v4(addr), V4_OCTETS),
        SocketAddr::V6(addr) => (encode_v6(addr), V6_OCTETS),
    }
}
