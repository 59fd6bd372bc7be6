//! The buffers of sent replies, kept for later replies.

ghost use Rattle.std.specs.Prelude.{◌≡◌, ◌≤◌, [], vec_capacity, vec_len};
ghost use Rattle.std.specs.List.{All};
ghost use Rattle.replies.specs.declared.limits.TheConstants.{MOST_DATAGRAM};
ghost use Rattle.front.specs.declared.inbox.TheConstants.{BATCH};

use crate::inbox::BATCH;
use crate::outgoing::Outgoing;
use flight::ReplyOctets;
use replies::MOST_DATAGRAM;
use std::alloc::Global;

/// Buffers that are kept, so that a short reply takes no memory. There are at most as many as a batch has datagrams, and none is
/// large.
#[derive(Drop)]
pub(crate) struct Buffers {
    spare: Vec<Vec<u8>>,
    ghost few: { vec_len spare ≤ BATCH },
    ghost small: { All (λ buffer. vec_capacity buffer ≤ MOST_DATAGRAM) spare.items },
}

impl Buffers {
    /// No buffers.
    pub fn new(alloc: Global) -> Buffers {
        Buffers {
            spare: Vec::new(alloc),
        }
    }

    /// Takes out a kept buffer, or makes an empty one that has no memory yet.
    pub fn take(&mut self, alloc: Global) -> Vec<u8> {
        match self.spare.pop() {
            Some(buffer) => buffer,
            None => Vec::new(alloc),
        }
    }

    /// Keeps the buffer of a reply, if it is not large and there is a place for it.
    fn keep(&mut self, reply: ReplyOctets) {
        let ReplyOctets::Message(buffer) = reply else {
            return;
        };
        if buffer.capacity() > MOST_DATAGRAM || self.spare.len() >= BATCH {
            return;
        }
        // It is dropped if there is no memory to keep it.
        drop(self.spare.push(buffer));
    }

    /// Keeps the buffers of replies that were sent.
    pub fn keep_each(&mut self, sent: &mut Vec<Outgoing>)
        ensures { sent.new.items ≡ [] }
    {
        while let Some(outgoing) = sent.pop() {
            self.keep(outgoing.reply);
        }
    }
}
