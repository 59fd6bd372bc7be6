//! The transport of an exchange.

ghost use Rattle.std.specs.Prelude.{◌≡◌, ◌≢◌, ◌<◌, ◌⊎◌, length, true, Some, IfSome, IsNone};
ghost use Rattle.replies.specs.declared.limits.TheConstants.{MOST_MESSAGE};
ghost use Rattle.flight.specs.declared.sockets.Listened.TheVariants.{Anew, Broken, Nothing};
ghost use Rattle.flight.specs.Told.{IsHeard};
ghost use Rattle.outside.specs.Exchanges.{ExchangeState, HasMisfit, HasNoneYet, IsCutOff, IsUnderWay, OnUnbroken, is_ended};
ghost use Rattle.outside.specs.Line.{WentOn};
ghost use Rattle.outside.specs.Replies.{IfCame, IsWholeReply, MayCome};

use crate::fitting::fits;
use crate::heard::UdpHeard;
use crate::ready_net::{ReadyConnection, ReadySocket};
use crate::tcp_line::TcpLine;
use crate::udp_line::UdpLine;
use dns_text::Octets;
use flight::Listened;
use mio::{Registry, Token};
use std::alloc::Global;
use std::io::ErrorKind;

/// The transport of an exchange: the socket or connection by which its query left.
#[derive(Drop)]
pub(crate) enum Transport<S, C> {
    Udp(UdpLine<S>),
    Tcp(TcpLine<C>),
    /// Nothing was sent yet: the exchange waits for a permit.
    Waiting,
    /// The exchange has ended.
    Closed,
}

/// A copy of the octets of a reply.
fn came(alloc: Global, reply: &[u8]) -> Listened
    ensures heard { IfCame (λ octets. octets ≡ reply.now) result }
    ensures ended { (result ≢ Nothing) × (result ≢ Anew) }
    ensures unbroken { result ≢ Broken }
{
    match Vec::from_slice(alloc, reply) {
        Ok(octets) => Listened::Came(Octets::new(octets)),
        Err(_) => Listened::NoMemory,
    }
}

/// Reads and writes as far as a connection allows, and returns the first message.
fn hear_tcp<C: ReadyConnection>(
    alloc: Global,
    line: &mut TcpLine<C>,
    query: &[u8],
    room: &mut [u8],
) -> Listened
    requires { 0 < length room.old }
    ensures asks { line.new.asks ≡ line.old.asks }
    ensures went { OnUnbroken result (WentOn C.contents C.remaining line.old line.new) }
    ensures heard { IfCame (IsWholeReply query.now line.new) result }
    ensures begun { result ≢ Anew }
{
    match line.go_on(room) {
        Ok(false) => Listened::Nothing,
        Ok(true) => match line.reply() {
            Some(reply) => {
                if fits(query, reply) {
                    return came(alloc, reply);
                }
                Listened::Broken
            }
            None => Listened::Broken,
        },
        Err(error) => {
            if error.kind() == ErrorKind::OutOfMemory {
                return Listened::NoMemory;
            }
            Listened::Broken
        }
    }
}

impl<S: ReadySocket, C: ReadyConnection> Transport<S, C> {
    /// Reads and writes as far as the socket allows. `None` if too many datagrams came that cannot be the reply.
    pub fn hear(
        &mut self,
        alloc: Global,
        registry: &Registry,
        token: Token,
        query: &[u8],
        room: &mut [u8],
    ) -> Option<Listened>
        requires { length room.old ≡ MOST_MESSAGE }
        ensures heard { (exchange : ExchangeState) → exchange.asked.query ≡ query.now
            → IsUnderWay S.opened S.reported S.sent C.connected C.reported C.contents C.remaining exchange self.old
            → IfSome result (IsHeard (MayCome S.opened S.sent S.came C.connected C.contents C.remaining exchange.asked)) }
        ensures nothing { result ≡ Some Nothing → HasNoneYet S.drained S.reported_again token self.new }
        ensures anew { (exchange : ExchangeState)
            → IsUnderWay S.opened S.reported S.sent C.connected C.reported C.contents C.remaining exchange self.old
            → result ≡ Some Anew → exchange.waits ≡ true }
        ensures broken { (exchange : ExchangeState) → exchange.ended ≡ is_ended self.old
            → IsUnderWay S.opened S.reported S.sent C.connected C.reported C.contents C.remaining exchange self.old
            → result ≡ Some Broken → (exchange.ended ≡ true) ⊎ IsCutOff S.sent S.failed exchange }
        ensures misfits { IsNone result → HasMisfit S.came query.now self.old }
        ensures goes_on { result ≡ Some Nothing → (exchange : ExchangeState)
            → IsUnderWay S.opened S.reported S.sent C.connected C.reported C.contents C.remaining exchange self.old
            → IsUnderWay S.opened S.reported S.sent C.connected C.reported C.contents C.remaining exchange self.new }
    {
        match self {
            Transport::Udp(line) => match line.hear(registry, token, query, room) {
                Ok(UdpHeard::Reply(count)) => Some(came(alloc, &room[..count])),
                Ok(UdpHeard::Nothing) => Some(Listened::Nothing),
                Ok(UdpHeard::Misfits) => None,
                Err(_) => Some(Listened::Broken),
            },
            Transport::Tcp(line) => Some(hear_tcp(alloc, line, query, room)),
            Transport::Waiting => Some(Listened::Anew),
            Transport::Closed => Some(Listened::Broken),
        }
    }
}
