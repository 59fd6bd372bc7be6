//! The listener of one worker: its socket of the service, and its poll.

ghost use Rattle.std.specs.Prelude.{◌≡◌, IfOk, vec_len};

use crate::udp_binding::bind_each;
use mio::net::UdpSocket;
use mio::{Interest, Poll, Token, Waker};
use std::alloc::Global;
use std::io;
use std::net::{Net, SocketAddr};

/// The token of the service's socket. Exchanges are reported under their keys, which are small.
pub const SERVICE: Token = Token(usize::MAX);

/// The token of a wake.
pub(crate) const WAKE: Token = Token(usize::MAX - 1);

/// The socket of the service that one worker reads, and the poll that watches it and the worker's exchanges.
#[derive(Drop)]
pub struct UdpListener<S = UdpSocket> {
    pub poll: Poll,
    pub socket: S,
    /// The address at which the service listens.
    pub place: SocketAddr,
}

/// Opens `count` listeners at one address, each for a worker of its own, and a waker for each. `[::]` takes IPv4 as well.
/// It fails if another process listens there.
pub fn listen_each<R: Net>(
    rt: &R,
    alloc: Global,
    addr: SocketAddr,
    count: u8,
) -> io::Result<(Vec<UdpListener>, Vec<Waker>)>
    ensures { IfOk result (λ made. (vec_len made.0 ≡ count) × (vec_len made.1 ≡ count)) }
{
    let mut listeners = Vec::new(alloc);
    let mut wakers = Vec::new(alloc);
    for socket in bind_each(rt, alloc, addr, count)? {
        let poll = Poll::new(rt)?;
        let place = socket.local_addr()?;
        let mut socket = UdpSocket::from_std(socket);
        poll.registry()
            .register(&mut socket, SERVICE, Interest::READABLE)?;
        wakers.push(Waker::new(poll.registry(), WAKE)?)?;
        listeners.push(UdpListener {
            poll,
            socket,
            place,
        })?;
    }
    Ok((listeners, wakers))
}
