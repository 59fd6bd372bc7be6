//! The connection of a client, as the system gives it.

ghost use Rattle.std.specs.Prelude.{◌≡◌, ℕ, List, ◌≤◌, length, take, IfErr, IfOk, OnErr};
ghost use Rattle.std.specs.IoError.{error_kind};
ghost use Rattle.front.specs.Taken.{OnFault};

use mio::net::TcpStream;
use mio::{Interest, Registry, Token};
use std::io;
use std::io::{ErrorKind, Read, Write};

/// The connection of a client. Its calls never wait: they return `WouldBlock` instead.
pub trait ClientStream: Drop {
    /// Exactly these octets were read: the connection before, the octets, the connection after.
    ghost reads: { Self → List ℕ → Self → Type 0 };

    /// Exactly these octets were written.
    ghost writes: { Self → List ℕ → Self → Type 0 };

    /// A call found nothing to read, or no room to write.
    ghost drained: { Type 0 };

    /// A call failed, other than by waiting or by a signal.
    ghost failed: { Type 0 };

    /// Reads the next octets into the front of the room: their number, which is 0 if the client sends no more.
    fn read_octets(&mut self, room: &mut [u8]) -> io::Result<usize>
        ensures within { IfOk result (λ count. count ≤ length room.new) }
        ensures read { IfOk result (λ count. reads self.old (take count room.new) self.new) }
        ensures none { OnErr result (self.new ≡ self.old) }
        ensures drained { IfErr result (λ error. error_kind error ≡ ErrorKind.WouldBlock → drained) }
        ensures failed { IfErr result (OnFault failed) };

    /// Writes the first of these octets: their number.
    fn write_octets(&mut self, octets: &[u8]) -> io::Result<usize>
        ensures within { IfOk result (λ count. count ≤ length octets.now) }
        ensures written { IfOk result (λ count. writes self.old (take count octets.now) self.new) }
        ensures none { OnErr result (self.new ≡ self.old) }
        ensures drained { IfErr result (λ error. error_kind error ≡ ErrorKind.WouldBlock → drained) }
        ensures failed { IfErr result (OnFault failed) };

    /// Has the poll report the connection under a token, whenever it can be read or written again.
    fn watch(&mut self, registry: &Registry, token: Token) -> io::Result<()>
        ensures kept { self.new ≡ self.old };
}

impl ClientStream for TcpStream {
    // Nothing is known of what a client sends, or of what reaches it.
    ghost reads = { λ _ _ _. Unit {0} };

    ghost writes = { λ _ _ _. Unit {0} };

    ghost drained = { Unit {0} };

    ghost failed = { Unit {0} };

    fn read_octets(&mut self, room: &mut [u8]) -> io::Result<usize> {
        self.read(room)
    }

    fn write_octets(&mut self, octets: &[u8]) -> io::Result<usize> {
        self.write(octets)
    }

    fn watch(&mut self, registry: &Registry, token: Token) -> io::Result<()> {
        registry.register(self, token, Interest::READABLE | Interest::WRITABLE)
    }
}
