//! A query and its reply over TCP, without waiting.

ghost use Rattle.std.specs.Prelude.{◌≡◌, ◌↔◌, ◌<◌, ◌≤◌, ◌⊎◌, [], length, IsTrue, IfOk, IfSome, IsNone, OnErr, OnOk};
ghost use Rattle.std.specs.Io.{StartsWith};
ghost use Rattle.replies.specs.declared.limits.TheConstants.{MOST_MESSAGE};
ghost use Rattle.replies.specs.Framing.{framed};
ghost use Rattle.outside.specs.Own.{IsNoLine, MayAsk};
ghost use Rattle.outside.specs.Line.{IsDone, Moves, WentFrom, WentOn};
ghost use Rattle.replies.specs.Wanting.{IsWholeFrame};

use crate::framed_query::{FramedQuery, MOST_QUERY};
use crate::framed_reply::read_on;
use crate::one_socket::OneSocket;
use crate::own::{check_host, check_other};
use crate::ready_net::{ReadyConnection, ReadyNet};
use mio::{Registry, Token};
use replies::BegunMessage;
use std::alloc::Global;
use std::io;
use std::marker::Model;
use std::net::SocketAddr;

/// A connection on which one query goes out and one reply comes in, each preceded by its length. Contracts see the connection, the
/// octets that have left and those that have come.
#[derive(Drop)]
pub struct TcpLine<S> {
    stream: S,
    query: FramedQuery,
    reply: BegunMessage,
}

impl<S> Model for TcpLine<S> {
    ghost use Rattle.outside.specs.Line.{LineState};

    ghost Value = { LineState S };

    ghost view = { λ line. record {
      stream = line.stream;
      asks = line.query.octets.items;
      left = line.query.left;
      came = line.reply.octets.items;
    } };
}

impl<S: ReadyConnection> TcpLine<S> {
    /// Begins to connect, watched by the poll. It can open no other connection, and takes no memory. It fails if the query is longer than
    /// one may be, if no descriptor is left, if the system knows no way to the place, if the address belongs to no host, or if the service,
    /// which listens at `service`, would ask itself.
    pub fn begin<R: ReadyNet<Connection = S>>(
        right: OneSocket<'_, R>,
        alloc: Global,
        registry: &Registry,
        token: Token,
        service: SocketAddr,
        place: SocketAddr,
        query: &[u8],
    ) -> io::Result<TcpLine<S>>
        ensures connected { IfOk result (λ line. S.connected line.stream place) }
        ensures reported { IfOk result (λ line. S.reported line.stream token) }
        ensures asks { IfOk result (λ line. line.asks ≡ framed query.now) }
        ensures left { IfOk result (λ line. line.left ≡ 0) }
        ensures came { IfOk result (λ line. line.came ≡ []) }
        ensures went { IfOk result (λ line. WentFrom S.contents S.remaining line.stream line) }
        ensures may_ask { IfOk result (λ line. MayAsk S.is_at service place line.stream) }
        ensures failed { OnErr result ((MOST_QUERY < length query.now)
            ⊎ IsNoLine R.failed S.connected S.is_at S.failed service place) }
    {
        check_host(place)?;
        let query = FramedQuery::new(query)?;
        let stream = right.begin_connection(registry, token, place)?;
        check_other(service, stream.place()?, place)?;
        Ok(TcpLine {
            stream,
            query,
            reply: BegunMessage::new(alloc),
        })
    }

    /// Goes on as far as the connection lets it: whether the reply has come whole. It fails if connecting did, if the connection
    /// failed or ended, if signals end each call, or if no memory is left for the reply. After an error octets may be lost, and the
    /// line is of no more use.
    pub fn go_on(&mut self, room: &mut [u8]) -> io::Result<bool>
        requires { 0 < length room.old }
        ensures asks { self.new.asks ≡ self.old.asks }
        ensures left { self.old.left ≤ self.new.left }
        ensures came { StartsWith self.new.came self.old.came }
        ensures checked { OnOk result (S.has_no_fault self.old.stream) }
        ensures moves { OnOk result (Moves S.contents S.remaining self.old self.new) }
        ensures went { OnOk result (WentOn S.contents S.remaining self.old self.new) }
        ensures done { IfOk result (λ is_done. IsTrue is_done ↔ IsDone self.new) }
    {
        self.stream.check()?;
        if !self.query.write_on(&mut self.stream)? {
            return Ok(false);
        }
        read_on(&mut self.reply, &mut self.stream, room)
    }

    /// The reply, or None if it has not come whole.
    pub fn reply(&self) -> Option<&[u8]>
        ensures reply { IfSome result (λ reply. self.now.came ≡ framed reply.now) }
        ensures within { IfSome result (λ reply. length reply.now ≤ MOST_MESSAGE) }
        ensures none { IsNone result → ¬ (IsWholeFrame self.now.came) }
    {
        self.reply.message()
    }
}
