//! The listening sockets of a service.

ghost use Rattle.std.specs.Prelude.{◌≡◌, ◌+◌, ◌≤◌, Ok, IfOk, vec_len};
ghost use Rattle.resolver_args.specs.declared.mode.TheConstants.{MOST_WORKERS};

use dns_text::Addr;
use front::{TcpPoll, UdpListener, bind_tcp, bind_with_backlog, listen_each, share_listener};
use front_workers::{Waker, most_connections, most_exchanges};
use operators::CliFault;
use std::alloc::Global;
use std::io;
use std::io::ErrorKind;
use std::net::{Net, TcpListener, TcpStream};
use system::{descriptor_limit, place_of};

/// The sockets that all threads of a service share.
#[derive(Drop)]
pub(crate) struct SharedSockets {
    pub control: TcpListener,
}

/// All sockets of a service: the shared ones, and for each worker a listener of its own, with the waker of its poll.
#[derive(Drop)]
pub(crate) struct Bound {
    pub sockets: SharedSockets,
    pub udp: Vec<UdpListener>,
    pub tcp: Vec<TcpPoll>,
    pub wakers: Vec<Waker>,
}

/// The socket that was bound at this address, or the fault if it could not be bound.
fn listening<S>(alloc: Global, addr: &Addr, socket: io::Result<S>) -> Result<S, CliFault>
    ensures { IfOk result (λ bound. socket ≡ Ok bound) }
{
    match socket {
        Ok(socket) => Ok(socket),
        Err(error) => {
            if error.kind() == ErrorKind::OutOfMemory {
                return Err(CliFault::no_memory());
            }
            Err(CliFault::cannot_listen(alloc, addr, &error))
        }
    }
}

impl Bound {
    /// Binds a UDP socket for each of `udp` workers, then the TCP socket that `tcp` workers share and at which `backlog` connections may
    /// wait to be accepted, then the control socket.
    pub fn new<R: Net<Stream = TcpStream, Listener = TcpListener>>(
        rt: &R,
        alloc: Global,
        listen: &Addr,
        control: &Addr,
        udp: u8,
        tcp: u8,
        backlog: u16,
    ) -> Result<Bound, CliFault>
        ensures { IfOk result (λ bound. (vec_len bound.udp ≡ udp) × (vec_len bound.tcp ≡ tcp)) }
    {
        let place = place_of(listen);
        let (udp, mut wakers) = listening(alloc, listen, listen_each(rt, alloc, place, udp))?;
        let socket = listening(alloc, listen, bind_with_backlog(rt, place, backlog))?;
        let (tcp, others) = listening(alloc, listen, share_listener(rt, alloc, &socket, tcp))?;
        for waker in others {
            if wakers.push(waker).is_err() {
                return Err(CliFault::no_memory());
            }
        }
        let control = listening(alloc, control, bind_tcp(rt, place_of(control)))?;
        Ok(Bound {
            sockets: SharedSockets { control },
            udp,
            tcp,
            wakers,
        })
    }
}

/// Opens this many descriptors for a moment, so that the kernel's table of descriptors grows before the threads share it.
/// Later the kernel would wait until no thread can be reading the old table. That takes milliseconds, and a worker would
/// answer nobody meanwhile. If the system grants fewer descriptors, that is no fault here: exchanges log it when they need one.
fn hold_descriptors(alloc: Global, socket: &TcpListener, count: usize) -> Result<(), CliFault> {
    let Ok(mut held) = Vec::with_capacity(alloc, count) else {
        return Err(CliFault::no_memory());
    };
    for _ in 0..count {
        let Ok(copy) = socket.try_clone() else {
            return Ok(());
        };
        let _ = held.push(copy);
    }
    Ok(())
}

/// The descriptors that workers may have.
#[derive(Clone, Copy)]
pub(crate) struct DescriptorShares {
    /// The most exchanges of each worker.
    pub exchanges: usize,
    /// The most connections of each TCP worker.
    pub connections: usize,
}

/// Shares out the descriptors of the process among its workers. A TCP worker has connections of clients beside its exchanges, so it counts
/// twice.
pub(crate) fn share_descriptors(
    alloc: Global,
    socket: &TcpListener,
    udp: u8,
    tcp: u8,
) -> Result<DescriptorShares, CliFault>
    requires some { 1 ≤ tcp }
    requires few { udp + tcp ≤ MOST_WORKERS }
{
    let Ok(descriptors) = descriptor_limit() else {
        return Err(CliFault::cannot_start());
    };
    let exchanges = most_exchanges(descriptors, udp + 2 * tcp);
    let connections = most_connections(descriptors, udp, tcp, exchanges);
    let workers = usize::from(udp) + usize::from(tcp);
    let held = connections.saturating_mul(usize::from(tcp));
    hold_descriptors(
        alloc,
        socket,
        exchanges.saturating_mul(workers).saturating_add(held),
    )?;
    Ok(DescriptorShares {
        exchanges,
        connections,
    })
}

/// Wakes each worker that waits, so that it sees the stop flag. Whoever is not reached looks at the flag within half a second.
pub(crate) fn wake_all(wakers: &[Waker]) {
    for waker in wakers {
        let _ = waker.wake();
    }
}
