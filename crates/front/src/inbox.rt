//! The datagrams that have come in.

ghost use Rattle.std.specs.Prelude.{◌≡◌, ◌⊎◌, ◌≤◌, false, true, IfErr, IfOk, IfSome, IsSome, IsSomeAnd, OnErr, take, vec_len};
ghost use Rattle.std.specs.IoError.{error_kind};
ghost use Rattle.std.specs.List.{AllWithin};
ghost use Rattle.front.specs.declared.inbox.TheConstants.{BATCH};
ghost use Rattle.front.specs.Moves.{CameBy};
ghost use Rattle.front.specs.Taken.{IsTakenFrom, OnFault};

use crate::answerable::is_answerable;
use crate::client::UdpClient;
use crate::service_socket::ServiceSocket;
use dns_text::NoMemory;
use flight::Numbered;
use replies::{DATAGRAM_ROOM, MOST_DATAGRAM};
use std::alloc::Global;
use std::io;
use std::io::ErrorKind;
use std::marker::PhantomData;
use std::net::SocketAddr;
use system::{Came, would_wait};

/// The most datagrams that are taken before the first of them begins. Receiving, answering and sending are batched to keep
/// the code of each loop in the processor's cache.
pub const BATCH: usize = 32;

/// A datagram, sorted by what the worker does with it.
pub enum Arrival<S> {
    /// No reply can reach its sender, or it is empty.
    Passed,
    /// It is longer than a query may be. This is its sender.
    TooLong(SocketAddr),
    /// It is read whole, and may be answered.
    Query(UdpClient<S>),
}

/// A room for one datagram.
#[derive(Drop)]
pub struct InboxSlot<S: ServiceSocket> {
    /// The datagram that fills the front of the room. The field is before the room, next to the octets that are read first.
    came: Option<Came>,
    pub room: [u8; DATAGRAM_ROOM],
    socket: PhantomData<S>,
    pub ghost came_so: { ∥ IfSome came (λ c. CameBy S.takes c.peer (take c.count room)) ∥₁ },
}

impl<S: ServiceSocket> InboxSlot<S> {
    /// An empty room.
    fn new() -> InboxSlot<S> {
        InboxSlot {
            came: None,
            room: [0; DATAGRAM_ROOM],
            socket: PhantomData,
        }
    }

    /// Takes the next datagram of a socket.
    fn fill(&mut self, socket: &mut S) -> io::Result<()>
        ensures filled { IfOk result (λ _. IsSome self.new.came) }
        ensures took { IfOk result (λ _. IsSomeAnd self.new.came (λ c. S.takes socket.old c.peer (take c.count self.new.room) socket.new)) }
        ensures none { OnErr result (socket.new ≡ socket.old) }
        ensures drained { IfErr result (λ error. error_kind error ≡ ErrorKind.WouldBlock → S.drained) }
        ensures interrupted { IfErr result (λ error. error_kind error ≡ ErrorKind.Interrupted → S.interrupted) }
        ensures failed { IfErr result (OnFault S.failed) }
    {
        self.came = None;
        let (count, peer) = socket.take_datagram(&mut self.room)?;
        self.came = Some(Came { peer, count });
        Ok(())
    }

    /// Sorts the datagram that has come, before this desk makes a later call.
    pub fn taken<D: Numbered>(&self, desk: &D) -> Arrival<S>
        ensures { IsTakenFrom self.now.room self.now.came (D.seen desk.now) result }
    {
        let Some(came) = self.came else {
            return Arrival::Passed;
        };
        if !is_answerable(came.peer, came.count) {
            Arrival::Passed
        } else if came.count > MOST_DATAGRAM {
            Arrival::TooLong(came.peer)
        } else {
            Arrival::Query(UdpClient::new(came, &self.room, desk))
        }
    }
}

/// A batch of datagrams that have come in.
#[derive(Drop)]
pub struct Inbox<S: ServiceSocket> {
    slots: Vec<InboxSlot<S>>,
    /// The number of slots, from the first on, that have a datagram.
    filled: usize,
    ghost whole: { vec_len slots ≡ BATCH },
    ghost within: { filled ≤ BATCH },
    ghost came: { AllWithin (λ slot. IsSome slot.came) slots.items 0 filled },
}

impl<S: ServiceSocket> Inbox<S> {
    ghost use Rattle.front.specs.Batch.{batch_of};
    ghost use Rattle.front.specs.Rooms.{fronts_of};
    ghost use Rattle.front.specs.Moves.{AllMoved};

    /// An empty inbox.
    pub fn new(alloc: Global) -> Result<Inbox<S>, NoMemory>
        ensures { IfOk result (λ inbox. inbox.filled ≡ 0) }
    {
        let mut slots = Vec::new(alloc);
        for _ in 0..BATCH {
            slots.push(InboxSlot::new())?;
        }
        Ok(Inbox { slots, filled: 0 })
    }

    /// Takes datagrams of a socket until it has none, or the inbox is full. Returns whether the socket may have more.
    pub fn fill(&mut self, socket: &mut S) -> io::Result<bool>
        requires empty { self.old.filled ≡ 0 }
        ensures took { AllMoved S.takes (fronts_of (batch_of self.new)) socket.old socket.new }
        ensures drained { IfOk result (λ more. more ≡ false → S.drained) }
        ensures full { IfOk result (λ more. more ≡ true → S.interrupted ⊎ (self.new.filled ≡ BATCH)) }
        ensures failed { OnErr result S.failed }
    {
        while self.filled < BATCH {
            match self.slots[self.filled].fill(socket) {
                Ok(()) => self.filled += 1,
                Err(error) => return Ok(!would_wait(error)?),
            }
        }
        Ok(true)
    }

    /// The datagrams of the inbox, in the order in which they came.
    pub fn datagrams(&self) -> &[InboxSlot<S>]
        ensures { result.now ≡ take self.now.filled self.now.slots.items }
    {
        &self.slots[..self.filled]
    }

    /// Drops the datagrams.
    pub fn clear(&mut self)
        ensures { self.new.filled ≡ 0 }
    {
        self.filled = 0;
    }
}
