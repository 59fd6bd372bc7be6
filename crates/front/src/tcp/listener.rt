//! The listener of one TCP worker: the socket at which connections come in, and its poll.

ghost use Rattle.std.specs.Prelude.{◌≡◌, IfOk, vec_len};

use crate::listener::{SERVICE, WAKE};
use crate::tcp::client_stream::ClientStream;
use mio::net::{TcpListener, TcpStream};
use mio::{Interest, Poll, Waker};
use std::alloc::Global;
use std::net::{Net, SocketAddr};
use std::{io, net};

/// A socket at which connections come in. Its calls never wait: they return `WouldBlock` instead.
pub trait ClientListener<S: ClientStream>: Drop {
    /// The next connection, and the address of its client.
    fn accept_client(&self) -> io::Result<(S, SocketAddr)>;
}

impl ClientListener<TcpStream> for TcpListener {
    fn accept_client(&self) -> io::Result<(TcpStream, SocketAddr)> {
        let (stream, peer) = self.accept()?;
        // A reply leaves at once, whether or not the one before it was acknowledged.
        stream.set_nodelay(true)?;
        Ok((stream, peer))
    }
}

/// The socket at which connections come in, as one worker has it, and the poll that watches it, the worker's connections and its exchanges.
#[derive(Drop)]
pub struct TcpPoll<L = TcpListener> {
    pub poll: Poll,
    pub listener: L,
    /// The address at which the service listens.
    pub place: SocketAddr,
}

/// A listener for each of `count` workers, which share one socket, and a waker for each. A connection goes to the worker that accepts it
/// first.
pub fn share_listener<R: Net>(
    rt: &R,
    alloc: Global,
    socket: &net::TcpListener,
    count: u8,
) -> io::Result<(Vec<TcpPoll>, Vec<Waker>)>
    ensures { IfOk result (λ made. (vec_len made.0 ≡ count) × (vec_len made.1 ≡ count)) }
{
    let mut polls = Vec::new(alloc);
    let mut wakers = Vec::new(alloc);
    let place = socket.local_addr()?;
    for _ in 0..count {
        let own = socket.try_clone()?;
        own.set_nonblocking(true)?;
        let poll = Poll::new(rt)?;
        let mut listener = TcpListener::from_std(own);
        poll.registry()
            .register(&mut listener, SERVICE, Interest::READABLE)?;
        wakers.push(Waker::new(poll.registry(), WAKE)?)?;
        polls.push(TcpPoll {
            poll,
            listener,
            place,
        })?;
    }
    Ok((polls, wakers))
}
