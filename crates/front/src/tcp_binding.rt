//! The TCP sockets of the service.

use std::io;
use std::net::{Net, SocketAddr, TcpListener, TcpStream};
use system::set_backlog;

/// A socket at which connections come in. `[::]` takes IPv4 as well.
pub fn bind_tcp<R: Net<Stream = TcpStream, Listener = TcpListener>>(
    rt: &R,
    addr: SocketAddr,
) -> io::Result<TcpListener> {
    TcpListener::bind(rt, addr)
}

/// A socket at which clients' connections come in, of which `backlog` may wait to be accepted. std has no argument for their number,
/// so it is set once the socket listens.
pub fn bind_with_backlog<R: Net<Stream = TcpStream, Listener = TcpListener>>(
    rt: &R,
    addr: SocketAddr,
    backlog: u16,
) -> io::Result<TcpListener> {
    let listener = bind_tcp(rt, addr)?;
    set_backlog(&listener, backlog)?;
    Ok(listener)
}
