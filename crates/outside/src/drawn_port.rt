//! A socket at a port that the system draws.

use std::io;
use std::net::{IpAddr, Ipv4Addr, Ipv6Addr, Net, SocketAddr, UdpSocket};

fn bind_at<R: Net>(rt: &R, ip: IpAddr) -> io::Result<UdpSocket> {
    UdpSocket::bind(rt, SocketAddr::new(ip, 0))
}

/// A socket at any address of this machine, for datagrams to and from peers of this family.
fn bind_any<R: Net>(rt: &R, peer: SocketAddr) -> io::Result<UdpSocket> {
    if peer.is_ipv4() {
        bind_at(rt, IpAddr::V4(Ipv4Addr::UNSPECIFIED))
    } else {
        bind_at(rt, IpAddr::V6(Ipv6Addr::UNSPECIFIED))
    }
}

/// Whether the system binds sockets to addresses that are not this machine's, as Linux does with `ip_nonlocal_bind`. It is tried with
/// an address that no machine has (RFC 5737, section 3; RFC 3849, section 2).
fn binds_all<R: Net>(rt: &R, peer: SocketAddr) -> bool {
    let ip = if peer.is_ipv4() {
        IpAddr::V4(Ipv4Addr::new(203, 0, 113, 255))
    } else {
        IpAddr::V6(Ipv6Addr::new(0x2001, 0xdb8, 0, 0, 0, 0, 0, 0))
    };
    bind_at(rt, ip).is_ok()
}

/// A socket at the peer's own address, if that is this machine's. Sockets cannot have any other address.
fn bind_beside<R: Net>(rt: &R, peer: SocketAddr) -> Option<UdpSocket> {
    match bind_at(rt, peer.ip()) {
        Ok(socket) => {
            if binds_all(rt, peer) {
                None
            } else {
                Some(socket)
            }
        }
        Err(_) => None,
    }
}

/// A socket at a port that the system draws, for datagrams to and from a peer. If the peer may be the service itself, and its address
/// is one of this machine's, the socket has that address.
pub(crate) fn bind_for<R: Net>(
    rt: &R,
    peer: SocketAddr,
    may_be_own: bool,
) -> io::Result<UdpSocket> {
    if may_be_own {
        if let Some(socket) = bind_beside(rt, peer) {
            return Ok(socket);
        }
    }
    bind_any(rt, peer)
}
