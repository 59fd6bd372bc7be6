//! The service to which a client's lines go.

use crate::fault::CliFault;
use dns_text::Addr;
use std::alloc::Global;
use std::io;
use std::io::ErrorKind;
use std::net::{Net, TcpStream};
use std::time::Duration;
use system::place_of;

/// The service to which lines go.
#[derive(Drop)]
pub struct Peer {
    /// The address of its control socket.
    pub(crate) addr: Addr,
    /// How long it may take to accept a connection, and then to reply.
    pub(crate) seconds: u64,
}

impl Peer {
    /// The service at an address, which has so many seconds.
    pub fn new(addr: Addr, seconds: u32) -> Peer {
        Peer {
            addr,
            seconds: u64::from(seconds),
        }
    }

    /// The time that it has.
    pub(crate) fn patience(&self) -> Duration {
        Duration::from_secs(self.seconds)
    }

    /// A connection to it.
    pub(crate) fn connect<R: Net<Stream = TcpStream>>(
        &self,
        rt: &R,
        alloc: Global,
    ) -> Result<TcpStream, CliFault> {
        match TcpStream::connect_timeout(rt, &place_of(&self.addr), self.patience()) {
            Ok(stream) => Ok(stream),
            Err(error) => {
                if error.kind() == ErrorKind::TimedOut {
                    return Err(CliFault::no_reply(alloc, &self.addr));
                }
                Err(CliFault::no_service(alloc, &self.addr))
            }
        }
    }

    /// The fault of a connection that failed, or of the input.
    pub(crate) fn fault_of(&self, alloc: Global, error: &io::Error) -> CliFault {
        match error.kind() {
            ErrorKind::OutOfMemory => CliFault::no_memory(),
            ErrorKind::WouldBlock | ErrorKind::TimedOut => CliFault::no_reply(alloc, &self.addr),
            _ => CliFault::failed_read(),
        }
    }
}
