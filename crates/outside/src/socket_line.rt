//! An exchange over a socket of its own.

ghost use Rattle.std.specs.Prelude.{◌≡◌, ◌⊎◌, false, true, length, option_map, IfOk, OnErr, OnOk, Some};
ghost use Rattle.std.specs.Option.{option_copied};
ghost use Rattle.replies.specs.declared.limits.TheConstants.{MOST_MESSAGE};
ghost use Rattle.outside.specs.Own.{MayAskServer};
ghost use Rattle.flight.specs.declared.sockets.Listened.TheVariants.{Anew, Broken, Nothing};
ghost use Rattle.flight.specs.Counted.{CountsOpened};
ghost use Rattle.flight.specs.Flight.{query_to};
ghost use Rattle.flight.specs.Told.{IsHeard};
ghost use Rattle.outside.specs.Exchanges.{IsBroken, IsDearReply, IsNotToBeHad, IsQuiet, IsStruck};
ghost use Rattle.outside.specs.Replies.{MayCome};
ghost use Rattle.outside.specs.declared.flaw.Flaw.TheVariants.{Misfits};

use crate::fault_line::log_exchange;
use crate::flaw::Flaw;
use crate::one_socket::OneSocket;
use crate::permits::NoPermit;
use crate::ready_net::ReadyNet;
use crate::tcp_line::TcpLine;
use crate::transport::Transport;
use crate::udp_line::UdpLine;
use dns_name::Name;
use dns_query::Over;
use dns_text::{Addr, Octets, Shared};
use flight::{Counts, InFlight, Listened};
use history::Servers;
use log::Log;
use mio::{Registry, Token};
use replies::is_dear;
use std::alloc::Global;
use std::io;
use std::marker::Model;
use std::net::SocketAddr;
use system::place_of;

/// An exchange over a socket of its own. Contracts see the query that went out, and the token of the socket.
///
/// A reply fits if it has the query's identifier and question. Over UDP the exchange breaks after `MOST_MISFITS` datagrams that do not
/// fit, and over TCP if the first message does not fit. It also breaks if its reply would take too long to read. An exchange that has
/// ended is closed. One that waits for a permit has no socket yet.
#[derive(Drop)]
pub struct SocketLine<R: ReadyNet> {
    server: Addr,
    over: Over,
    query: Shared<Octets>,
    token: Token,
    /// The list that has the server, if strangers may have named it.
    list: Option<Shared<Servers>>,
    way: Transport<R::Datagrams, R::Connection>,
    /// Whether nothing was sent, since it waits for a permit.
    waits: bool,
    /// What is wrong with what came, if that ended it.
    flaw: Option<Flaw>,
}

/// Whether a reply came that would take too long to read.
fn is_too_dear(heard: &Listened) -> bool
    ensures { result ≡ true → IsDearReply heard.now }
{
    match heard {
        Listened::Came(reply) => is_dear(reply.as_slice()),
        _ => false,
    }
}

impl<R: ReadyNet> Model for SocketLine<R> {
    ghost use Rattle.std.specs.Prelude.{option_map};
    ghost use Rattle.flight.specs.Flight.{query_to};
    ghost use Rattle.outside.specs.Exchanges.{ExchangeState, IsUnderWay, is_ended};

    ghost Value = { ExchangeState };

    ghost view = { λ line. record {
      asked = query_to line.server line.over line.query;
      token = line.token;
      zone = option_map (λ list. list.zone) line.list;
      waits = line.waits;
      flaw = line.flaw;
      ended = is_ended line.way;
    } };

    ghost invariant = { λ line. IsUnderWay R.Datagrams.opened R.Datagrams.reported R.Datagrams.sent
        R.Connection.connected R.Connection.reported R.Connection.contents R.Connection.remaining
        (record {
          asked = query_to line.server line.over line.query;
          token = line.token;
          zone = option_map (λ list. list.zone) line.list;
          waits = line.waits;
          flaw = line.flaw;
          ended = is_ended line.way;
        }) line.way };
}

impl<R: ReadyNet> InFlight for SocketLine<R> {
    ghost asked = { λ line. line.asked };

    // The poll reports its socket under this key.
    ghost key = { λ line. line.token.0 };

    // Octets that fit the query and came from the server's address, over the same transport, after the query. Of a query that got
    // no reply nothing is said.
    ghost hears = { MayCome R.Datagrams.opened R.Datagrams.sent R.Datagrams.came
        R.Connection.connected R.Connection.contents R.Connection.remaining };

    // Of the list only the zone is kept, if strangers may have named the servers.
    ghost listed = { λ _ _. Unit {0} };

    fn server(&self) -> Addr {
        self.server
    }
}

impl<R: ReadyNet> SocketLine<R> {
    /// Sends a query, or begins to connect, and has the poll watch the socket. For its permit it can open no other one. The service
    /// listens at `service`, and queries neither itself nor an address that belongs to no host. An exchange that begins is counted here,
    /// where its socket is opened.
    pub fn open(
        right: OneSocket<'_, R>,
        alloc: Global,
        registry: &Registry,
        token: Token,
        service: SocketAddr,
        server: &Addr,
        over: Over,
        list: Option<Shared<Servers>>,
        query: Shared<Octets>,
        counts: &mut Counts,
    ) -> io::Result<SocketLine<R>>
        ensures asked { IfOk result (λ line. line.asked ≡ query_to server.now over query) }
        ensures token { IfOk result (λ line. line.token ≡ token) }
        ensures zone { IfOk result (λ line. line.zone ≡ option_map (λ servers. servers.zone) list) }
        ensures sent { IfOk result (λ line. (line.waits ≡ false) × (line.ended ≡ false)) }
        ensures opened { OnOk result (CountsOpened counts.old counts.new) }
        ensures unopened { OnErr result (counts.new ≡ counts.old) }
        ensures may_ask { OnOk result (MayAskServer R.Datagrams.opened R.Datagrams.is_at R.Connection.connected R.Connection.is_at
            over service server.now) }
        ensures failed { OnErr result (IsNotToBeHad R.failed R.Datagrams.opened R.Datagrams.is_at R.Datagrams.failed
            R.Connection.connected R.Connection.is_at R.Connection.failed service server.now over query) }
    {
        let place = place_of(server);
        let octets = query.get().as_slice();
        let way = match over {
            Over::Udp => Transport::Udp(UdpLine::begin(
                right, registry, token, service, place, octets,
            )?),
            Over::Tcp => Transport::Tcp(TcpLine::begin(
                right, alloc, registry, token, service, place, octets,
            )?),
        };
        counts.open();
        Ok(SocketLine {
            server: *server,
            over,
            query,
            token,
            list,
            way,
            waits: false,
            flaw: None,
        })
    }

    /// An exchange that was refused its permit, and waits for one. It sends nothing, and its question begins anew once it is listened to.
    /// It is counted as one that begins.
    pub fn waiting(
        refused: NoPermit,
        token: Token,
        server: &Addr,
        over: Over,
        list: Option<Shared<Servers>>,
        query: Shared<Octets>,
        counts: &mut Counts,
    ) -> SocketLine<R>
        requires { refused.key ≡ token.0 }
        ensures asked { result.asked ≡ query_to server.now over query }
        ensures token { result.token ≡ token }
        ensures waits { result.waits ≡ true }
        ensures opened { CountsOpened counts.old counts.new }
    {
        drop(refused);
        counts.open();
        SocketLine {
            server: *server,
            over,
            query,
            token,
            list,
            way: Transport::Waiting,
            waits: true,
            flaw: None,
        }
    }

    /// Whether it waits for a permit.
    pub fn waits(&self) -> bool
        ensures { result ≡ self.now.waits }
    {
        self.waits
    }

    /// The key under which it is watched.
    pub fn key(&self) -> usize
        ensures { result ≡ self.now.token.0 }
    {
        self.token.0
    }

    /// The transport of the query.
    pub fn over(&self) -> Over
        ensures { result ≡ self.now.asked.over }
    {
        self.over
    }

    /// The zone about which the server is asked, if strangers may have named the server.
    pub fn zone(&self) -> Option<&Name>
        ensures { option_copied result ≡ self.now.zone }
    {
        match &self.list {
            Some(list) => Some(&list.get().zone),
            None => None,
        }
    }

    /// What is wrong with what came, if that ended it.
    pub fn flaw(&self) -> Option<Flaw>
        ensures { result ≡ self.now.flaw }
    {
        self.flaw
    }

    /// The octets of the query.
    pub fn query(&self) -> &[u8]
        ensures { result.now ≡ self.now.asked.query }
    {
        self.query.get().as_slice()
    }

    /// Logs that the exchange failed.
    pub fn log_failure<T: Log>(&self, rt: &T, alloc: Global, cause: &'static str) {
        log_exchange(rt, alloc, cause, &self.server, self.query.get().as_slice());
    }

    /// The cause for which an exchange broke before its time was up. Of a socket that broke, the system reports no other one.
    pub fn cause(&self) -> &'static str {
        match (self.flaw, self.over) {
            (Some(flaw), _) => flaw.cause(),
            (None, Over::Udp) => "unreachable",
            (None, Over::Tcp) => "refused or closed",
        }
    }

    /// Notes that something is wrong with what came, which ended the exchange.
    fn end_by(&mut self, flaw: Flaw) -> Listened
        ensures broken { result ≡ Broken }
        ensures flaw { self.new ≡ record self.old { flaw = Some flaw } }
    {
        self.flaw = Some(flaw);
        Listened::Broken
    }

    /// Reads and writes as far as the socket allows. Of an exchange that waits for a permit, the question is to begin anew.
    pub fn hear(&mut self, alloc: Global, registry: &Registry, room: &mut [u8]) -> Listened
        requires { length room.old ≡ MOST_MESSAGE }
        ensures heard { IsHeard (MayCome R.Datagrams.opened R.Datagrams.sent R.Datagrams.came
            R.Connection.connected R.Connection.contents R.Connection.remaining self.old.asked) result }
        ensures nothing { result ≡ Nothing → IsQuiet R.Datagrams.sent R.Datagrams.drained R.Datagrams.reported_again self.old }
        ensures anew { result ≡ Anew → self.old.waits ≡ true }
        ensures struck { self.new.flaw ≡ Some Misfits
            → (self.old.flaw ≡ Some Misfits) ⊎ IsStruck R.Datagrams.sent R.Datagrams.came self.old }
        ensures broken { result ≡ Broken → IsBroken
            (MayCome R.Datagrams.opened R.Datagrams.sent R.Datagrams.came
            R.Connection.connected R.Connection.contents R.Connection.remaining self.old.asked)
            R.Datagrams.sent R.Datagrams.came R.Datagrams.failed self.old }
        ensures kept { self.new ≡ record self.old { flaw = self.new.flaw; ended = self.new.ended } }
    {
        let query = self.query.get().as_slice();
        match self.way.hear(alloc, registry, self.token, query, room) {
            Some(Listened::Nothing) => Listened::Nothing,
            Some(heard) => {
                self.way = Transport::Closed;
                if is_too_dear(&heard) {
                    return self.end_by(Flaw::Dear);
                }
                heard
            }
            None => {
                self.way = Transport::Closed;
                self.end_by(Flaw::Misfits)
            }
        }
    }
}
