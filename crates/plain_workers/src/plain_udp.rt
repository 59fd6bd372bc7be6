//! Ports, at which datagrams come in and replies go out, and a worker that serves them one after another.
//!
//! The program does not use them: it serves datagrams by `fly_udp` of `front_workers`, which keeps many questions in flight. They are
//! the plain form of the same promise, for tests and readers: this worker answers a datagram before it takes the next.

ghost use Rattle.std.specs.Prelude.{◌≡◌, ◌≤◌, length, ℕ, List, Option, Result, IfOk, IfSome};
ghost use Rattle.replies.specs.declared.limits.TheConstants.{MOST_FAILURES};
ghost use Rattle.plain_workers.specs.declared.work_end.WorkEnd.TheVariants.{Failing};
ghost use Rattle.replies.specs.Reply.{fault_octets};
ghost use Rattle.plain_workers.specs.States.{DatagramServed, DatagramsServed};
ghost use Rattle.plain_workers.specs.UdpWorking.{Given};
ghost use Rattle.plain_workers.specs.Working.{HasFailed};
ghost use Rattle.std.specs.declared.net.SocketAddr.{SocketAddr};
ghost use Rattle.system.specs.declared.device.DeviceFault.{DeviceFault};
ghost use Rattle.system.specs.declared.came.Came.{Came};
ghost use Rattle.system.specs.Counts.{CountsFault};

use crate::exchange::Exchange;
use crate::query::serve_query;
use crate::tools::Tools;
use crate::work_end::WorkEnd;
use clock::Clock;
use dns_query::Over;
use dns_wire::{Rcode, fault_reply};
use history::Desk;
use log::{Log, warn};
use rand_core::Rng;
use replies::{DATAGRAM_ROOM, MOST_DATAGRAM, MOST_FAILURES, wants_reply};
use std::alloc::Global;
use std::net::SocketAddr;
use std::sync::Wait;
use system::{Came, DEVICE_FAULT, DeviceFault, WORKER_ENDED};

/// A socket at which datagrams come in and replies go out.
pub trait Port {
    /// One call of `take`: the port before, the datagram, None or the fault, the room, the port after.
    ghost takes: { Self → Result (Option Came) DeviceFault → List ℕ → Self → Type 0 };

    /// One call of `give`: the port before, the peer, the reply, the result, the port after.
    ghost gives: { Self → SocketAddr → List ℕ → Result (Unit {0}) DeviceFault → Self → Type 0 };

    /// The count of calls that failed, up to 2^64 - 1.
    ghost failures: { Self → ℕ };

    /// The next datagram, or None once the port has ended. Octets beyond the room are lost.
    fn take(&mut self, room: &mut [u8]) -> Result<Option<Came>, DeviceFault>
        ensures taken { takes self.old result room.new self.new }
        ensures within { IfOk result (λ came. IfSome came (λ c. c.count ≤ length room.new)) }
        ensures counted { CountsFault result (failures self.old) (failures self.new) };

    /// Sends a reply to a peer.
    fn give(&mut self, peer: SocketAddr, reply: &[u8]) -> Result<(), DeviceFault>
        ensures given { gives self.old peer reply.now result self.new }
        ensures counted { CountsFault result (failures self.old) (failures self.new) };
}

/// Hands a reply to the port. A failure here does not end a worker: it may be the client that cannot be reached.
fn give<P: Port, R: Log>(rt: &R, port: &mut P, peer: SocketAddr, reply: &[u8])
    ensures given { Given P.gives peer (Some reply.now) port.old port.new }
    ensures failures { P.failures port.old ≤ P.failures port.new }
{
    if port.give(peer, reply).is_err() {
        warn!(rt; "{DEVICE_FAULT}");
    }
}

/// Hands a reply with an RCODE alone to the port. It takes no memory.
fn give_fault<P: Port, R: Log>(rt: &R, port: &mut P, peer: SocketAddr, octets: &[u8], rcode: Rcode)
    requires { 12 ≤ length octets.now }
    ensures given { Given P.gives peer (Some (fault_octets octets.now rcode)) port.old port.new }
    ensures failures { P.failures port.old ≤ P.failures port.new }
{
    let reply = fault_reply(octets, rcode).unwrap();
    give(rt, port, peer, &reply);
}

/// Serves a datagram from a peer: one reply goes to the peer at most.
pub(crate) fn serve_datagram<D: Desk, P: Port, X: Exchange, C: Clock, G: Rng, R: Log>(
    rt: &R,
    alloc: Global,
    desk: &mut D,
    port: &mut P,
    tools: &mut Tools<X, C, G>,
    peer: SocketAddr,
    octets: &[u8],
)
    ensures server_port { tools.new.server_port ≡ tools.old.server_port }
    ensures answered { DatagramServed D.calls X.asks C.ticks G.stream P.gives peer octets.now
        desk.old tools.old port.old desk.new tools.new port.new }
    ensures failures { P.failures port.old ≤ P.failures port.new }
{
    if octets.len() > MOST_DATAGRAM {
        if wants_reply(octets) {
            give_fault(rt, port, peer, octets, Rcode::FORMAT_ERROR);
        }
        return;
    }
    match serve_query(alloc, desk, tools, Over::Udp, octets) {
        Ok(None) => {}
        Ok(Some(reply)) => give(rt, port, peer, &reply),
        Err(_) => give_fault(rt, port, peer, octets, Rcode::SERVER_FAILURE),
    }
}

/// Serves datagrams, one after another, until the port has ended, or has failed `MOST_FAILURES` times in a row.
pub fn work_udp<D: Desk, P: Port, X: Exchange, C: Clock, G: Rng, R: Wait + Log>(
    rt: &R,
    alloc: Global,
    desk: &mut D,
    port: &mut P,
    tools: &mut Tools<X, C, G>,
) -> WorkEnd
    ensures server_port { tools.new.server_port ≡ tools.old.server_port }
    // The worker served each datagram, and handed its reply to the port for the peer that sent it, before it took the next.
    ensures works { DatagramsServed D.calls X.asks C.ticks G.stream P.takes P.gives result
        desk.old tools.old port.old desk.new tools.new port.new }
    ensures failing { result ≡ Failing → HasFailed MOST_FAILURES (P.failures port.old) (P.failures port.new) }
{
    let mut room = [0u8; DATAGRAM_ROOM];
    let mut failed = 0u8;
    for _ in rt.forever() {
        match port.take(&mut room) {
            Ok(Some(came)) => {
                failed = 0;
                serve_datagram(rt, alloc, desk, port, tools, came.peer, &room[..came.count]);
            }
            Ok(None) => return WorkEnd::Ended,
            Err(DeviceFault::NoMemory) => {}
            Err(DeviceFault::Device) => {
                warn!(rt; "{DEVICE_FAULT}");
                failed += 1;
                if failed == MOST_FAILURES {
                    warn!(rt; "{WORKER_ENDED}");
                    return WorkEnd::Failing;
                }
            }
        }
    }
    unreachable!()
}
