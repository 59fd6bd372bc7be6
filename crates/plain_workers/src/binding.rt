//! The socket for `Connections`, and the connection that wakes a worker.

use clock::glance;
use mio::net;
use std::io;
use std::net::{Net, SocketAddr, TcpListener, TcpStream};
use system::limit_accept;

/// A socket for `Connections`. Accepting waits no longer than `glance`, so that whoever waits there sees the stop flag.
pub fn bind_clients<R: Net<Stream = TcpStream, Listener = TcpListener>>(
    rt: &R,
    addr: SocketAddr,
) -> io::Result<TcpListener> {
    let listener = TcpListener::bind(rt, addr)?;
    limit_accept(&listener, glance())?;
    Ok(listener)
}

/// Wakes one worker that waits at a TCP socket, by a connection that is begun and not waited for. If the socket's queue is full, the
/// connection does not come about, and no worker waits.
pub fn wake_tcp<R: Net>(rt: &R, addr: SocketAddr) -> io::Result<()> {
    drop(net::TcpStream::connect(rt, addr)?);
    Ok(())
}
