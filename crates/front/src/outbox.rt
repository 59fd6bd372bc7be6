//! The outbox of a worker: the socket of the service, and the replies that wait to be sent.

ghost use Rattle.std.specs.Prelude.{◌≡◌, ◌⊎◌, [], ◌∷◌, false, map, true, IfOk, OnErr};
ghost use Rattle.flight.specs.Told.{octets_of};
ghost use Rattle.front.specs.Batch.{batch_of};
ghost use Rattle.front.specs.Moves.{AllMoved, datagram_to};
ghost use Rattle.front.specs.Outgoing.{Posts, datagram_of};
ghost use Rattle.front.specs.Rooms.{fronts_of};
ghost use Rattle.front.specs.declared.inbox.TheConstants.{BATCH};

use crate::buffers::Buffers;
use crate::client::UdpClient;
use crate::inbox::Inbox;
use crate::outgoing::Outgoing;
use crate::reply_sender::ReplySender;
use crate::service_socket::ServiceSocket;
use flight::ReplyOctets;
use log::{Log, warn};
use std::alloc::Global;
use std::io;
use std::marker::Model;
use std::net::SocketAddr;
use system::{DEVICE_FAULT, cause_of};

/// The socket of the service, and the replies that wait to be sent by it. Contracts see both.
#[derive(Drop)]
pub struct Outbox<S: ServiceSocket> {
    socket: S,
    waiting: Vec<Outgoing>,
    /// Buffers for replies to come.
    buffers: Buffers,
}

impl<S: ServiceSocket> Model for Outbox<S> {
    ghost use Rattle.std.specs.Prelude.{map};
    ghost use Rattle.front.specs.Outgoing.{OutboxState, datagram_of};

    ghost Value = { OutboxState S };

    ghost view = { λ outbox. record { socket = outbox.socket; waiting = map datagram_of outbox.waiting.items } };
}

/// Sends a reply. A failure is logged and does not end the worker: perhaps only this client cannot be reached.
fn send_one<R: Log, S: ServiceSocket>(rt: &R, socket: &mut S, outgoing: &Outgoing)
    ensures { S.sends socket.old outgoing.now.peer (octets_of outgoing.now.reply) socket.new }
{
    let Outgoing { peer, reply } = outgoing;
    if let Err(error) = socket.send_datagram(reply.as_slice(), *peer) {
        let cause = cause_of(&error);
        warn!(rt; "{DEVICE_FAULT}: a reply is not sent: {cause}");
    }
}

/// Sends each reply, in order.
fn send_each<R: Log, S: ServiceSocket>(rt: &R, socket: &mut S, waiting: &[Outgoing])
    ensures { AllMoved S.sends (map datagram_of waiting.now) socket.old socket.new }
{
    for outgoing in waiting {
        send_one(rt, socket, outgoing);
    }
}

impl<S: ServiceSocket> ReplySender<UdpClient<S>> for Outbox<S> {
    ghost use Rattle.front.specs.Outgoing.{PostsTo};

    // To the address from which the client's datagram came.
    ghost posts = { PostsTo S.takes S.sends };

    fn reply_buffer(&mut self, alloc: Global) -> Vec<u8> {
        self.buffers.take(alloc)
    }

    fn send_reply<R: Log>(&mut self, rt: &R, client: UdpClient<S>, reply: ReplyOctets) {
        self.post(rt, client.peer(), reply);
    }

    fn drop_client(&mut self, _client: UdpClient<S>) {}
}

impl<S: ServiceSocket> Outbox<S> {
    /// An outbox in which no reply waits.
    pub fn new(alloc: Global, socket: S) -> Outbox<S>
        ensures { result ≡ record { socket = socket; waiting = [] } }
    {
        Outbox {
            socket,
            waiting: Vec::new(alloc),
            buffers: Buffers::new(alloc),
        }
    }

    /// Takes the datagrams that are there into an empty inbox, until it is full. Returns whether there may be more.
    pub fn receive(&mut self, inbox: &mut Inbox<S>) -> io::Result<bool>
        requires empty { inbox.old.filled ≡ 0 }
        ensures took { AllMoved S.takes (fronts_of (batch_of inbox.new)) self.old.socket self.new.socket }
        ensures waiting { self.new.waiting ≡ self.old.waiting }
        ensures drained { IfOk result (λ more. more ≡ false → S.drained) }
        ensures full { IfOk result (λ more. more ≡ true → S.interrupted ⊎ (inbox.new.filled ≡ BATCH)) }
        ensures failed { OnErr result S.failed }
    {
        inbox.fill(&mut self.socket)
    }

    /// Sends each reply that waits, in order. Then none waits.
    pub fn flush<R: Log>(&mut self, rt: &R)
        ensures none { self.new.waiting ≡ [] }
        ensures posts { Posts S.takes S.sends [] [] self.old self.new }
    {
        send_each(rt, &mut self.socket, &self.waiting);
        self.buffers.keep_each(&mut self.waiting);
    }

    /// Sends a reply with the next batch. If there is no memory for it to wait, those that wait leave at once, and it follows.
    pub fn post<R: Log>(&mut self, rt: &R, peer: SocketAddr, reply: ReplyOctets)
        ensures { Posts S.takes S.sends [] (datagram_to peer (octets_of reply) ∷ []) self.old self.new }
    {
        let Err(failed) = self.waiting.push(Outgoing { peer, reply }) else {
            return;
        };
        let outgoing = failed.value;
        self.flush(rt);
        send_one(rt, &mut self.socket, &outgoing);
        // Dropped by a call: the proof then does not follow what it may hold.
        drop(outgoing);
    }
}
