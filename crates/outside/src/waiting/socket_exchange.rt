//! Exchanges with name servers, each waited for until a deadline.

ghost use Rattle.std.specs.Prelude.{◌≡◌, ◌≤◌, ◌<◌, length, take, vec_len, IfOk, OnOk};
ghost use Rattle.std.specs.Io.KnownBytes.{Appends, Consumes};
ghost use Rattle.replies.specs.Framing.{framed};
ghost use Rattle.replies.specs.declared.limits.TheConstants.{MOST_MESSAGE};
ghost use Rattle.replies.specs.declared.limits.TheConstants.{MOST_FRAMED};
ghost use Rattle.outside.specs.Asked.{ByDatagrams, ByStream, IsAskedOf};
ghost use Rattle.outside.specs.Fits.{Fits};
ghost use Rattle.outside.specs.Own.{MayAskAt, MayAskServer};
ghost use Rattle.outside.specs.Withheld.{IsWithheld};
ghost use Rattle.system.specs.Counts.{Rises};
ghost use Rattle.system.specs.declared.device.DeviceFault.TheVariants.{Device};

use crate::fault_line::{WITHHELD, log_exchange};
use crate::fitting::{MOST_MISFITS, fits};
use crate::framed_reply::read_on;
use crate::own::{check_host, check_other, may_be_own};
use crate::waiting::server_net::ServerNet;
use crate::waiting::timed::Timed;
use crate::withheld::is_withheld;
use clock::{Deadline, StopFlag, glance, put_off};
use dns_query::Over;
use dns_text::{Addr, NoMemory, Octets};
use iterate::Hunt;
use log::Log;
use plain_workers::Exchange;
use replies::{BegunMessage, MOST_FRAMED, MOST_MESSAGE, frame, is_dear};
use std::alloc::Global;
use std::io;
use std::io::{ErrorKind, Read, Write};
use std::net::SocketAddr;
use std::rt::Clock;
use system::{AddressRange, DeviceFault, MOST_CALLS, cause_of, place_of};

/// A client of name servers over sockets, with a new socket for each query.
///
/// An exchange may take `PATIENCE_SECONDS`, connecting included. A reply fits if it has the query's identifier and question.
/// - Over UDP the socket is connected to the server (RFC 5452, section 9.2), at a port that the system draws. The exchange
///   fails after `MOST_MISFITS` datagrams that do not fit the query.
/// - Over TCP each message is preceded by its length in two octets (RFC 1035, section 4.2.2). The exchange fails if the first message
///   does not fit.
///
/// An exchange fails if the reply would take too long to read. One with an address that belongs to no host, with the service itself,
/// or with a server that is withheld (`is_withheld`), fails at once. Each exchange that fails is logged with its cause, server and
/// question, unless it lacked memory. Once the stop flag is set each exchange fails, one under way soon after, unless it is still
/// connecting.
#[derive(Drop)]
pub struct SocketExchange<'a, R, F: StopFlag> {
    rt: &'a R,
    stop: &'a F,
    alloc: Global,
    service: SocketAddr,
    ranges: &'a [AddressRange],
    room: Vec<u8>,
    failures: u64,
    ghost whole: { vec_len room ≡ MOST_FRAMED },
}

impl<'a, R, F: StopFlag> SocketExchange<'a, R, F> {
    /// A client with room for the longest message. It is part of the service that listens at `service`, and asks no server of the cache
    /// in these ranges.
    pub fn new(
        rt: &'a R,
        alloc: Global,
        service: SocketAddr,
        ranges: &'a [AddressRange],
        stop: &'a F,
    ) -> Result<SocketExchange<'a, R, F>, NoMemory>
        ensures failures { IfOk result (λ exchange. exchange.failures ≡ 0) }
        ensures service { IfOk result (λ exchange. exchange.service ≡ service) }
        ensures ranges { IfOk result (λ exchange. exchange.ranges.now ≡ ranges.now) }
    {
        let room = Vec::from_elem(alloc, 0u8, MOST_FRAMED)?;
        Ok(SocketExchange {
            rt,
            stop,
            alloc,
            service,
            ranges,
            room,
            failures: 0,
        })
    }
}

impl<'a, R: Log, F: StopFlag> SocketExchange<'a, R, F> {
    /// Logs and counts an exchange that failed by this cause.
    fn fail(&mut self, cause: &'static str, server: &Addr, query: &[u8]) -> DeviceFault
        ensures fault { result ≡ Device }
        ensures counted { Rises self.old.failures self.new.failures }
        ensures service { self.new.service ≡ self.old.service }
        ensures ranges { self.new.ranges ≡ self.old.ranges }
    {
        log_exchange(self.rt, self.alloc, cause, server, query);
        self.failures = self.failures.saturating_add(1);
        DeviceFault::Device
    }
}

/// One exchange over UDP: the number of octets at the front of the room that the reply fills.
fn ask_udp<R: ServerNet + Clock, F: StopFlag>(
    rt: &R,
    stop: &F,
    service: SocketAddr,
    place: SocketAddr,
    query: &[u8],
    room: &mut [u8],
) -> io::Result<usize>
    requires { length room.old ≡ MOST_FRAMED }
    ensures few { IfOk result (λ count. count ≤ MOST_MESSAGE) }
    ensures fits { IfOk result (λ count. Fits query.now (take count room.new)) }
    ensures asked { IfOk result (λ count. ByDatagrams R.opened R.sent R.came place query.now (take count room.new)) }
    ensures may_ask { OnOk result (MayAskAt R.opened R.is_at service place) }
{
    check_host(place)?;
    let deadline = Deadline::set(rt)?;
    let socket = rt.open_socket(place, may_be_own(service, place))?;
    check_other(service, rt.place_of_socket(&socket)?, place)?;
    rt.send_datagram(&socket, query)?;
    let mut misfits = 0u8;
    for _ in 0..MOST_CALLS {
        let left = deadline.left(rt)?;
        match rt.take_datagram(&socket, room, left.min(glance())) {
            Ok(count) => {
                if count <= MOST_MESSAGE && fits(query, &room[..count]) {
                    if is_dear(&room[..count]) {
                        return Err(io::Error::from(ErrorKind::InvalidData));
                    }
                    return Ok(count);
                }
                misfits = misfits.saturating_add(1);
                if misfits >= MOST_MISFITS {
                    return Err(io::Error::from(ErrorKind::InvalidData));
                }
            }
            Err(error) => {
                let error = put_off(stop, error);
                if error.kind() != ErrorKind::Interrupted {
                    return Err(error);
                }
            }
        }
    }
    Err(io::Error::from(ErrorKind::TimedOut))
}

/// Sends a message preceded by its length, in one piece (RFC 7766, section 8).
fn send_framed<W: Write>(alloc: Global, stream: &mut W, message: &[u8]) -> io::Result<()>
    ensures { OnOk result (Appends (W.contents stream.old) (W.contents stream.new) (framed message.now)) }
{
    if message.len() > MOST_MESSAGE {
        return Err(io::Error::from(ErrorKind::InvalidInput));
    }
    let out = frame(alloc, message)?;
    stream.write_all(&out)
}

/// Copies octets to the front of the room: their number.
fn copy_front(room: &mut [u8], octets: &[u8]) -> usize
    requires { length octets.now ≤ length room.old }
    ensures count { result ≡ length octets.now }
    ensures copied { take result room.new ≡ octets.now }
{
    room[..octets.len()].copy_from_slice(octets);
    octets.len()
}

/// Reads a message preceded by its length: the number of octets at the front of the room that it fills.
fn read_framed<S: Read>(alloc: Global, stream: &mut S, room: &mut [u8]) -> io::Result<usize>
    requires { length room.old ≡ MOST_FRAMED }
    ensures few { IfOk result (λ count. count ≤ MOST_MESSAGE) }
    ensures came { IfOk result (λ count. Consumes (S.remaining stream.old) (S.remaining stream.new) (framed (take count room.new))) }
{
    let mut reply = BegunMessage::new(alloc);
    read_on(&mut reply, stream, room)?;
    match reply.message() {
        Some(message) => Ok(copy_front(room, message)),
        // A call would have waited, and is not made again: the stop flag is set.
        None => Err(io::Error::from(ErrorKind::WouldBlock)),
    }
}

/// One exchange over TCP: the number of octets at the front of the room that the reply fills.
fn ask_tcp<R: ServerNet + Clock, F: StopFlag>(
    rt: &R,
    stop: &F,
    alloc: Global,
    service: SocketAddr,
    place: SocketAddr,
    query: &[u8],
    room: &mut [u8],
) -> io::Result<usize>
    requires { length room.old ≡ MOST_FRAMED }
    ensures few { IfOk result (λ count. count ≤ MOST_MESSAGE) }
    ensures fits { IfOk result (λ count. Fits query.now (take count room.new)) }
    ensures asked { IfOk result (λ count.
        ByStream R.connected R.Connection.contents R.Connection.remaining place query.now (take count room.new)) }
    ensures may_ask { OnOk result (MayAskAt R.connected R.connected_at service place) }
{
    check_host(place)?;
    let deadline = Deadline::set(rt)?;
    let stream = rt.open_connection(place, deadline.left(rt)?)?;
    check_other(service, rt.place_of_connection(&stream)?, place)?;
    let mut stream = Timed {
        rt,
        stop,
        stream,
        deadline,
    };
    send_framed(alloc, &mut stream, query)?;
    let count = read_framed(alloc, &mut stream, room)?;
    if !fits(query, &room[..count]) || is_dear(&room[..count]) {
        return Err(io::Error::from(ErrorKind::InvalidData));
    }
    Ok(count)
}

/// One exchange: the number of octets at the front of the room that the reply fills.
fn ask_over<R: ServerNet + Clock, F: StopFlag>(
    rt: &R,
    stop: &F,
    alloc: Global,
    service: SocketAddr,
    server: &Addr,
    over: Over,
    query: &[u8],
    room: &mut [u8],
) -> io::Result<usize>
    requires { length room.old ≡ MOST_FRAMED }
    ensures few { IfOk result (λ count. count ≤ MOST_MESSAGE) }
    ensures fits { IfOk result (λ count. Fits query.now (take count room.new)) }
    ensures asked { IfOk result (λ count. IsAskedOf R.opened R.sent R.came R.connected R.Connection.contents R.Connection.remaining
        over server.now query.now (take count room.new)) }
    ensures may_ask { OnOk result (MayAskServer R.opened R.is_at R.connected R.connected_at over service server.now) }
{
    if stop.is_set() {
        return Err(io::Error::from(ErrorKind::TimedOut));
    }
    let place = place_of(server);
    match over {
        Over::Udp => ask_udp(rt, stop, service, place, query, room),
        Over::Tcp => ask_tcp(rt, stop, alloc, service, place, query, room),
    }
}

impl<'a, R: ServerNet + Clock + Log, F: StopFlag> Exchange for SocketExchange<'a, R, F> {
    // The reply fits the query, and came from the server's place, over the transport, after the query. The service may ask
    // that server, and has not moved.
    ghost asks = { λ before server hunt over query came after. (after.service ≡ before.service) × (after.ranges ≡ before.ranges)
        × IfOk came (λ reply. (length reply ≤ MOST_MESSAGE) × Fits query reply × ¬ (IsWithheld before.ranges.now server hunt)
        × MayAskServer R.opened R.is_at R.connected R.connected_at over before.service server
        × IsAskedOf R.opened R.sent R.came R.connected R.Connection.contents R.Connection.remaining over server query reply) };

    ghost failures = { λ exchange. exchange.failures };

    fn ask(
        &mut self,
        server: &Addr,
        hunt: Option<&Hunt>,
        over: Over,
        query: &[u8],
    ) -> Result<Octets, DeviceFault> {
        if is_withheld(self.ranges, server, hunt) {
            return Err(self.fail(WITHHELD, server, query));
        }
        match ask_over(
            self.rt,
            self.stop,
            self.alloc,
            self.service,
            server,
            over,
            query,
            &mut self.room,
        ) {
            Ok(count) => match Vec::from_slice(self.alloc, &self.room[..count]) {
                Ok(reply) => Ok(Octets::new(reply)),
                Err(_) => Err(DeviceFault::NoMemory),
            },
            Err(error) => {
                // Nothing of the server or of the network failed.
                if error.kind() == ErrorKind::OutOfMemory {
                    return Err(DeviceFault::NoMemory);
                }
                Err(self.fail(cause_of(&error), server, query))
            }
        }
    }
}
