//! The UDP sockets of the service, one for each worker.

ghost use Rattle.std.specs.Prelude.{◌≡◌, IfOk, vec_len};

use std::alloc::Global;
use std::io;
use std::net::{Net, SocketAddr, UdpSocket};
use system::{bind_beside, widen_receive_buffer};

/// So many sockets with one address, one for each worker. Their calls do not wait, and there is room for bursts. `[::]` takes
/// IPv4 as well. If another process has the address already, the error is the one of binding it alone.
pub fn bind_each<R: Net>(
    rt: &R,
    alloc: Global,
    addr: SocketAddr,
    count: u8,
) -> io::Result<Vec<UdpSocket>>
    ensures { IfOk result (λ sockets. vec_len sockets ≡ count) }
{
    // A socket that shares its address does not notice the sockets of another process, so one is bound alone first.
    drop(UdpSocket::bind(rt, addr)?);
    let mut sockets = Vec::with_capacity(alloc, usize::from(count))?;
    for _ in 0..count {
        let socket = bind_beside(rt, addr)?;
        widen_receive_buffer(&socket)?;
        socket.set_nonblocking(true)?;
        sockets.push(socket)?;
    }
    Ok(sockets)
}
