//! The sender of a worker's replies.

ghost use Rattle.std.specs.Prelude.{◌≡◌, ◌≤◌, ℕ, List, length};
ghost use Rattle.replies.specs.Reply.{most_octets};
ghost use Rattle.flight.specs.Told.{octets_of};

use flight::{Client, ReplyOctets};
use log::Log;
use std::alloc::Global;

/// The sender of a worker's replies: to the senders of datagrams, or by the connections of clients.
pub trait ReplySender<K: Client>: Drop {
    /// Exactly one reply was sent (perhaps in vain), or waits to be sent: the sender before, the client, the octets, the sender after.
    ghost posts: { Self → K → List ℕ → Self → Type 0 };

    /// Takes out a kept buffer for a reply, or makes an empty one.
    fn reply_buffer(&mut self, alloc: Global) -> Vec<u8>
        ensures { self.new ≡ self.old };

    /// Sends a client its reply, now or later. It may be lost on the way.
    fn send_reply<R: Log>(&mut self, rt: &R, client: K, reply: ReplyOctets)
        requires { length (octets_of reply) ≤ most_octets (K.over client) }
        ensures { posts self.old client (octets_of reply) self.new };

    /// Drops a client that is owed no reply.
    fn drop_client(&mut self, client: K)
        ensures { self.new ≡ self.old };
}
