//! The replies that a connection is owed.

ghost use Rattle.std.specs.Prelude.{◌≡◌, ◌↔◌, ◌≤◌, ◌++◌, [], drop, length, take, IfErr, IfOk, IsTrue, OnErr, OnOk};
ghost use Rattle.std.specs.IoError.{error_kind};
ghost use Rattle.replies.specs.declared.limits.TheConstants.{MOST_MESSAGE};
ghost use Rattle.replies.specs.Framing.{framed};

use crate::tcp::client_stream::ClientStream;
use dns_text::NoMemory;
use replies::{MOST_MESSAGE, append_framed};
use std::alloc::Global;
use std::io;
use std::io::ErrorKind;
use std::marker::Model;

/// The most octets of memory that a connection keeps while it is owed nothing.
pub(crate) const MOST_AT_REST: usize = 512;

/// The replies that a connection is owed, each preceded by its length (RFC 1035, section 4.2.2). Contracts see the octets that have not
/// left, in order, and how many octets of memory they take.
#[derive(Drop)]
pub(crate) struct OwedReplies {
    octets: Vec<u8>,
    /// The count of octets that have left.
    left: usize,
}

impl Model for OwedReplies {
    ghost use Rattle.std.specs.Prelude.{◌≤◌, drop, vec_capacity, vec_len};
    ghost use Rattle.front.specs.Connections.{OwedState};

    ghost Value = { OwedState };

    ghost view = { λ owed. record { octets = drop owed.left owed.octets.items; kept = vec_capacity owed.octets } };

    ghost invariant = { λ owed. owed.left ≤ vec_len owed.octets };
}

impl OwedReplies {
    /// No reply.
    pub fn new(alloc: Global) -> OwedReplies
        ensures octets { result.octets ≡ [] }
        ensures kept { result.kept ≡ 0 }
    {
        OwedReplies {
            octets: Vec::new(alloc),
            left: 0,
        }
    }

    /// Whether all has left.
    pub fn is_empty(&self) -> bool
        ensures { IsTrue result ↔ (self.now.octets ≡ []) }
    {
        self.octets[self.left..].is_empty()
    }

    /// The octets of memory that it keeps.
    pub fn kept(&self) -> usize
        ensures { result ≡ self.now.kept }
    {
        self.octets.capacity()
    }

    /// Adds a reply behind the others. After an error some of its octets may be there, and the connection is of no more use.
    pub fn add(&mut self, reply: &[u8]) -> Result<(), NoMemory>
        requires { length reply.now ≤ MOST_MESSAGE }
        ensures { OnOk result (self.new.octets ≡ self.old.octets ++ framed reply.now) }
    {
        append_framed(&mut self.octets, reply)
    }

    /// Frees the memory of what has left, if all has and it is not little.
    fn forget_left(&mut self, alloc: Global)
        ensures octets { self.new.octets ≡ self.old.octets }
        ensures no_more { self.new.kept ≤ self.old.kept }
    {
        if self.left < self.octets.len() {
            return;
        }
        if self.octets.capacity() > MOST_AT_REST {
            self.octets = Vec::new(alloc);
        } else {
            self.octets.clear();
        }
        self.left = 0;
    }

    /// Writes the first of what is owed, by one call: the number of octets that left.
    pub fn write_next<S: ClientStream>(
        &mut self,
        alloc: Global,
        stream: &mut S,
    ) -> io::Result<usize>
        ensures within { IfOk result (λ count. count ≤ length self.old.octets) }
        ensures written { IfOk result (λ count. S.writes stream.old (take count self.old.octets) stream.new) }
        ensures left { IfOk result (λ count. self.new.octets ≡ drop count self.old.octets) }
        ensures kept { OnErr result (self.new ≡ self.old) }
        ensures no_more { self.new.kept ≤ self.old.kept }
        ensures none { OnErr result (stream.new ≡ stream.old) }
        ensures drained { IfErr result (λ error. error_kind error ≡ ErrorKind.WouldBlock → S.drained) }
    {
        let count = stream.write_octets(&self.octets[self.left..])?;
        self.left += count;
        self.forget_left(alloc);
        Ok(count)
    }
}
