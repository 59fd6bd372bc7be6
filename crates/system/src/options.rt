//! What std lacks for sockets and descriptors: the only file that calls the C library.

ghost use Rattle.std.specs.Prelude.{◌↔◌, ◌≤◌, ◌≤ℤ◌, pos, length, IsOk, IfOk};
ghost use Rattle.libc.specs.Net.{SockOption};

use crate::c_address::encode;
use libc::net as c;
use libc::types::{pollfd, rlimit};
use os::FromRawFd;
use std::io;
use std::net::{Net, SocketAddr, TcpListener, UdpSocket};
use std::os::fd::{AsRawFd, OwnedFd};
use std::time::Duration;

/// The octets of the datagrams that may wait at a socket. With the system's default, bursts of some hundred are lost.
const RECEIVE_BUFFER: i32 = 1 << 20;

/// The result of a call of the C library, by its status.
fn check(status: i32) -> io::Result<()>
    ensures { IsOk result ↔ (pos 0 ≤ℤ status) }
{
    if status < 0 {
        return Err(io::Error::from_raw_os_error(os::errno()));
    }
    Ok(())
}

/// Sets an option of the level `SOL_SOCKET`, which is 1, to a number.
fn set_option(socket: &UdpSocket, name: i32, value: i32) -> io::Result<()>
    requires { SockOption (pos 1) name }
{
    let mut octets = [0u8; 16];
    octets[..4].copy_from_slice(&value.to_ne_bytes());
    check(unsafe { c::setsockopt(socket.as_raw_fd(), c::SOL_SOCKET, name, &octets, 4) })
}

/// Limits the time that accepting a connection waits, by the option `SO_RCVTIMEO`: a `timeval`, of seconds and microseconds.
pub fn limit_accept(listener: &TcpListener, most: Duration) -> io::Result<()> {
    let mut octets = [0u8; 16];
    octets[..8].copy_from_slice(&most.as_secs().to_ne_bytes());
    octets[8..].copy_from_slice(&u64::from(most.subsec_micros()).to_ne_bytes());
    check(unsafe {
        c::setsockopt(
            listener.as_raw_fd(),
            c::SOL_SOCKET,
            c::SO_RCVTIMEO,
            &octets,
            16,
        )
    })
}

/// Sets how many connections may wait at a socket to be accepted (`listen(2)`). The system allows fewer if its own limit is lower.
pub fn set_backlog(listener: &TcpListener, backlog: u16) -> io::Result<()> {
    check(c::listen(listener.as_raw_fd(), i32::from(backlog)))
}

/// Whether a descriptor takes octets now (`poll(2)`): a pipe that does takes a line of up to 4,096 octets without waiting. A descriptor
/// that would fail takes them too, since that call does not wait either.
pub fn takes_octets(descriptor: i32) -> bool {
    let mut watched = [pollfd {
        fd: descriptor,
        events: c::POLLOUT,
        revents: 0,
    }];
    c::poll(&mut watched, 0) > 0
}

/// Whether a read of a descriptor would not wait (`poll(2)`): octets have come, the input has ended, or the read would fail. Waits for that
/// so many milliseconds at most.
pub(crate) fn gives_octets(descriptor: i32, milliseconds: i32) -> bool {
    let mut watched = [pollfd {
        fd: descriptor,
        events: c::POLLIN,
        revents: 0,
    }];
    c::poll(&mut watched, milliseconds) > 0
}

/// Opens a file for reading. A read that would wait fails.
pub(crate) fn open_to_read(path: &str) -> io::Result<OwnedFd> {
    let fd = os::open_read(path.as_bytes());
    check(fd)?;
    let descriptor = unsafe { OwnedFd::from_raw_fd(fd) };
    check(os::set_nonblocking(descriptor.as_raw_fd(), true))?;
    Ok(descriptor)
}

/// Reads octets into the front of the room, and returns their number: 0 at the end of the input.
pub(crate) fn read_octets(descriptor: &OwnedFd, room: &mut [u8]) -> io::Result<usize>
    ensures { IfOk result (λ count. count ≤ length room.new) }
{
    match usize::try_from(libc::read(descriptor.as_raw_fd(), room)) {
        Ok(count) => Ok(count),
        Err(_) => Err(io::Error::from_raw_os_error(os::errno())),
    }
}

/// Lets more datagrams wait at a socket. The system gives less than this if it allows less.
pub fn widen_receive_buffer(socket: &UdpSocket) -> io::Result<()> {
    set_option(socket, c::SO_RCVBUF, RECEIVE_BUFFER)
}

/// A socket that shares its address with others that the same user bound so. The system gives each datagram to one of them,
/// by its sender.
pub fn bind_beside<R: Net>(_rt: &R, addr: SocketAddr) -> io::Result<UdpSocket> {
    let kind = c::SOCK_DGRAM | c::SOCK_CLOEXEC;
    let fd = match addr {
        SocketAddr::V4(_) => unsafe { c::socket(c::AF_INET, kind, 0) },
        SocketAddr::V6(_) => unsafe { c::socket(c::AF_INET6, kind, 0) },
    };
    check(fd)?;
    let socket = unsafe { UdpSocket::from_raw_fd(fd) };
    set_option(&socket, c::SO_REUSEPORT, 1)?;
    let (octets, count) = encode(addr);
    check(unsafe { c::bind(socket.as_raw_fd(), &octets, count) })?;
    Ok(socket)
}

/// The number of descriptors that the process may have (`getrlimit(2)`).
pub fn descriptor_limit() -> io::Result<u64> {
    let mut limit = rlimit {
        rlim_cur: 0,
        rlim_max: 0,
    };
    check(libc::getrlimit(libc::RLIMIT_NOFILE, &mut limit))?;
    Ok(limit.rlim_cur)
}
