//! A query and its reply over UDP, without waiting.

ghost use Rattle.std.specs.Prelude.{◌≡◌, ◌≤◌, length, take, IfOk, OnErr};
ghost use Rattle.std.specs.declared.net.SocketAddr.{SocketAddr};
ghost use Rattle.replies.specs.declared.limits.TheConstants.{MOST_MESSAGE};
ghost use Rattle.outside.specs.Fits.{Fits};
ghost use Rattle.outside.specs.Heard.{IfReply};
ghost use Rattle.outside.specs.declared.heard.UdpHeard.TheVariants.{Misfits, Nothing};
ghost use Rattle.outside.specs.Datagrams.{CountsMisfit, EndsByMisfit, HearsNothing, StaysAs};
ghost use Rattle.outside.specs.Own.{IsNoLine, MayAsk};

use crate::fitting::{MOST_MISFITS, fits};
use crate::heard::UdpHeard;
use crate::one_socket::OneSocket;
use crate::own::{check_host, check_other, may_be_own};
use crate::ready_net::{ReadyNet, ReadySocket};
use mio::{Registry, Token};
use replies::MOST_MESSAGE;
use std::io;
use std::marker::Model;
use std::net::SocketAddr;
use system::would_wait;

/// The socket of one exchange, connected to the server (RFC 5452, section 9.2): one query went out by it, and the reply comes to
/// it. Contracts see the socket, and how many datagrams came that do not fit the query: fewer than `MOST_MISFITS`, since that many end the
/// exchange.
#[derive(Drop)]
pub struct UdpLine<S> {
    socket: S,
    /// The datagrams that came and do not fit the query, without the one that ends the exchange.
    misfits: u8,
}

impl<S> Model for UdpLine<S> {
    ghost use Rattle.std.specs.Prelude.{◌<◌};
    ghost use Rattle.outside.specs.declared.fitting.TheConstants.{MOST_MISFITS};
    ghost use Rattle.outside.specs.Datagrams.{UdpState};

    ghost Value = { UdpState S };

    ghost view = { λ line. record {
      socket = line.socket;
      misfits = line.misfits;
    } };

    ghost invariant = { λ line. line.misfits < MOST_MISFITS };
}

impl<S: ReadySocket> UdpLine<S> {
    /// Sends one query, in one datagram, by a new socket. It can open no other one. It fails if no descriptor is left, if the system
    /// knows no way to the place or cannot send, if the address belongs to no host, or if the service, which listens at `service`, would
    /// ask itself.
    pub fn begin<R: ReadyNet<Datagrams = S>>(
        right: OneSocket<'_, R>,
        registry: &Registry,
        token: Token,
        service: SocketAddr,
        place: SocketAddr,
        query: &[u8],
    ) -> io::Result<UdpLine<S>>
        ensures opened { IfOk result (λ line. S.opened line.socket place) }
        ensures reported { IfOk result (λ line. S.reported line.socket token) }
        ensures sent { IfOk result (λ line. S.sent line.socket query.now) }
        ensures unstruck { IfOk result (λ line. line.misfits ≡ 0) }
        ensures may_ask { IfOk result (λ line. MayAsk S.is_at service place line.socket) }
        ensures failed { OnErr result (IsNoLine R.failed S.opened S.is_at S.failed service place) }
    {
        check_host(place)?;
        let mut socket = right.open_socket(registry, token, place, may_be_own(service, place))?;
        check_other(service, socket.place()?, place)?;
        socket.send_datagram(query)?;
        Ok(UdpLine { socket, misfits: 0 })
    }

    /// Counts a datagram that does not fit the query. The poll reports once more what waits after it, unless there were too many.
    fn strike(&mut self, registry: &Registry, token: Token) -> io::Result<UdpHeard>
        ensures kept { self.new.socket ≡ self.old.socket }
        ensures counted { self.old.misfits ≤ self.new.misfits }
        ensures heard { IfOk result (λ heard. CountsMisfit S.reported_again token heard self.old self.new) }
        ensures failed { OnErr result (S.failed self.old.socket) }
    {
        if self.misfits + 1 >= MOST_MISFITS {
            return Ok(UdpHeard::Misfits);
        }
        self.misfits = self.misfits.saturating_add(1);
        self.socket.report_again(registry, token)?;
        Ok(UdpHeard::Nothing)
    }

    /// Takes a datagram, if one came. If it fits the query, it is the reply, which fills the front of the room. Of `MOST_MISFITS` that do
    /// not fit, the last ends the exchange, and each before it is counted.
    pub fn hear(
        &mut self,
        registry: &Registry,
        token: Token,
        query: &[u8],
        room: &mut [u8],
    ) -> io::Result<UdpHeard>
        requires { length room.old ≡ MOST_MESSAGE }
        ensures stays { StaysAs S.opened S.reported S.sent self.old.socket self.new.socket × (self.old.misfits ≤ self.new.misfits) }
        ensures few { IfOk result (λ heard. IfReply heard (λ count. count ≤ MOST_MESSAGE)) }
        ensures fits { IfOk result (λ heard. IfReply heard (λ count. Fits query.now (take count room.new))) }
        ensures came { IfOk result (λ heard. IfReply heard (λ count. S.came self.old.socket (take count room.new)
            × S.takes self.old.socket (take count room.new) self.new.socket)) }
        ensures misfits { IfOk result (λ heard. heard ≡ Misfits → EndsByMisfit S.came S.takes query.now self.old self.new) }
        ensures nothing { IfOk result (λ heard. heard ≡ Nothing
            → HearsNothing S.came S.takes S.drained S.interrupted S.reported_again token query.now self.old self.new) }
        ensures failed { OnErr result (S.failed self.new.socket) }
    {
        match self.socket.take_datagram(room) {
            Ok(count) => {
                if fits(query, &room[..count]) {
                    return Ok(UdpHeard::Reply(count));
                }
                self.strike(registry, token)
            }
            Err(error) => {
                if !would_wait(error)? {
                    // A signal ended the call. The poll reports once more what waits.
                    self.socket.report_again(registry, token)?;
                }
                Ok(UdpHeard::Nothing)
            }
        }
    }
}
