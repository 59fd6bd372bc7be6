//! The places that the service never asks: addresses that belong to no host, and its own.

ghost use Rattle.std.specs.Prelude.{◌↔◌, IsTrue, OnErr, OnOk};
ghost use Rattle.std.specs.Net.Socket.{socket_ip};
ghost use Rattle.outside.specs.Own.{IsHere, IsNoHost, IsNoHostV4, IsNoHostV6, IsOwn, MayBeOwn};

use std::io;
use std::io::ErrorKind;
use std::net::{IpAddr, Ipv4Addr, Ipv6Addr, SocketAddr};

fn is_no_host_v4(ip: Ipv4Addr) -> bool
    ensures { IsTrue result ↔ IsNoHostV4 ip }
{
    let first = ip.octets()[0];
    first == 0 || ip.is_multicast() || first >= 240
}

fn is_no_host_v6(ip: Ipv6Addr) -> bool
    ensures { IsTrue result ↔ IsNoHostV6 ip }
{
    ip.is_unspecified() || ip.is_multicast()
}

/// Whether an address belongs to no host: of "this network", multicast, reserved or the limited broadcast address. Asking there would
/// reach this machine, or many.
pub(crate) fn is_no_host(ip: IpAddr) -> bool
    ensures { IsTrue result ↔ IsNoHost ip }
{
    match ip.to_canonical() {
        IpAddr::V4(ip) => is_no_host_v4(ip),
        IpAddr::V6(ip) => is_no_host_v6(ip),
    }
}

/// Whether a service that listens at the first address gets what is sent from the second to the last.
fn is_here(listens: IpAddr, asks: IpAddr, asked: IpAddr) -> bool
    ensures { IsTrue result ↔ IsHere listens asks asked }
{
    asked == listens || (listens.is_unspecified() && (asked.is_loopback() || asked == asks))
}

/// Whether a service that listens at `service` would ask itself, if it sent a query from `from` to `place`. Its own query would
/// come back to it as a question.
pub(crate) fn is_own(service: SocketAddr, from: SocketAddr, place: SocketAddr) -> bool
    ensures { IsTrue result ↔ IsOwn service from place }
{
    let listens = service.ip().to_canonical();
    let asks = from.ip().to_canonical();
    let asked = place.ip().to_canonical();
    place.port() == service.port() && is_here(listens, asks, asked)
}

/// Whether the service may be at `place` by one more address of its machine: it listens at all of them, and at this port.
pub(crate) fn may_be_own(service: SocketAddr, place: SocketAddr) -> bool
    ensures { IsTrue result ↔ MayBeOwn service place }
{
    place.port() == service.port() && service.ip().to_canonical().is_unspecified()
}

/// The error of an exchange with a place that the service never asks.
fn never_asked() -> io::Error {
    io::Error::from(ErrorKind::AddrNotAvailable)
}

/// Fails if the address of a place belongs to no host. This is tried before there is a socket.
pub(crate) fn check_host(place: SocketAddr) -> io::Result<()>
    ensures host { OnOk result (¬ (IsNoHost (socket_ip place))) }
    ensures none { OnErr result (IsNoHost (socket_ip place)) }
{
    if is_no_host(place.ip()) {
        return Err(never_asked());
    }
    Ok(())
}

/// Fails if a service that listens at `service` would ask itself, if it sent a query from `from` to `place`.
pub(crate) fn check_other(
    service: SocketAddr,
    from: SocketAddr,
    place: SocketAddr,
) -> io::Result<()>
    ensures other { OnOk result (¬ (IsOwn service from place)) }
    ensures own { OnErr result (IsOwn service from place) }
{
    if is_own(service, from, place) {
        return Err(never_asked());
    }
    Ok(())
}
