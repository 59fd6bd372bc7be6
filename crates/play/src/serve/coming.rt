//! What comes to a worker, as a line says.

ghost use Rattle.system.specs.Counts.{CountsFault};

use crate::serve::pieces::PieceReader;
use crate::serve::serving::tell_octets;
use crate::stop::Stop;
use crate::words::octets_in;
use dns_text::next_word;
use plain_workers::{Listener, Port};
use std::io;
use std::io::{ErrorKind, Write};
use std::net::{IpAddr, Ipv4Addr, SocketAddr};
use streams::{CountedReader, CountedWriter};
use system::{Came, DeviceFault};

/// Who asks.
const PORT: u16 = 5353;

/// What one call comes to.
#[derive(Drop)]
enum Coming {
    /// A datagram, or all that is read of a connection.
    Octets(Vec<u8>),
    Failed,
    NoMemory,
}

/// Where what a line says comes in, each in its turn, and then the end.
#[derive(Drop)]
pub struct Arrivals<'a> {
    rt: &'a HostRuntime,
    /// The last comes first.
    coming: Vec<Coming>,
    failures: u64,
}

impl<'a> Arrivals<'a> {
    /// Each word is octets, `failed`, or `no_memory`.
    pub fn new(rt: &'a HostRuntime, text: &[u8]) -> Result<Arrivals<'a>, Stop> {
        let mut coming = Vec::new(rt.alloc());
        let mut rest = text;
        while let Some((word, behind)) = next_word(rest) {
            let one = if word == b"failed".as_slice() {
                Coming::Failed
            } else if word == b"no_memory".as_slice() {
                Coming::NoMemory
            } else {
                Coming::Octets(octets_in(rt.alloc(), word)?)
            };
            coming.push(one)?;
            rest = behind;
        }
        coming.reverse();
        Ok(Arrivals {
            rt,
            coming,
            failures: 0,
        })
    }

    /// How many have not come yet.
    pub fn left(&self) -> usize {
        self.coming.len()
    }

    fn next(&mut self) -> Result<Option<Vec<u8>>, DeviceFault>
        ensures { CountsFault result self.old.failures self.new.failures }
    {
        match self.coming.pop() {
            None => Ok(None),
            Some(Coming::Octets(octets)) => Ok(Some(octets)),
            Some(Coming::NoMemory) => Err(DeviceFault::NoMemory),
            Some(Coming::Failed) => {
                self.failures = self.failures.saturating_add(1);
                Err(DeviceFault::Device)
            }
        }
    }
}

impl<'a> Port for Arrivals<'a> {
    ghost takes = { λ _ _ _ _. Unit {0} };

    ghost gives = { λ _ _ _ _ _. Unit {0} };

    ghost failures = { λ arrivals. arrivals.failures };

    fn take(&mut self, room: &mut [u8]) -> Result<Option<Came>, DeviceFault> {
        match self.next() {
            Ok(Some(octets)) => {
                let count = octets.len().min(room.len());
                room[..count].copy_from_slice(&octets.as_slice()[..count]);
                let peer = SocketAddr::new(IpAddr::V4(Ipv4Addr::new(192, 0, 2, 1)), PORT);
                Ok(Some(Came { peer, count }))
            }
            Ok(None) => Ok(None),
            Err(fault) => Err(fault),
        }
    }

    /// It fails where standard output does.
    fn give(&mut self, _peer: SocketAddr, reply: &[u8]) -> Result<(), DeviceFault> {
        match tell_octets(self.rt, b"gave", reply) {
            Ok(()) => Ok(()),
            Err(_) => {
                self.failures = self.failures.saturating_add(1);
                Err(DeviceFault::Device)
            }
        }
    }
}

/// A connection's other end: each write is a line of standard output.
#[derive(Drop)]
pub struct Teller<'a> {
    rt: &'a HostRuntime,
}

impl<'a> Write for Teller<'a> {
    fn write(&mut self, text: &[u8]) -> io::Result<usize> {
        match tell_octets(self.rt, b"wrote", text) {
            Ok(()) => Ok(text.len()),
            Err(_) => Err(ErrorKind::BrokenPipe.into()),
        }
    }

    fn flush(&mut self) -> io::Result<()> {
        Ok(())
    }
}

impl<'a> Listener<CountedReader<PieceReader>, CountedWriter<Teller<'a>>> for Arrivals<'a> {
    ghost accepts = { λ _ _ _. Unit {0} };

    ghost failures = { λ arrivals. arrivals.failures };

    fn accept(
        &mut self,
    ) -> Result<Option<(CountedReader<PieceReader>, CountedWriter<Teller<'a>>)>, DeviceFault> {
        match self.next() {
            Ok(Some(octets)) => {
                let mut pieces = Vec::new(self.rt.alloc());
                if pieces.push(octets).is_err() {
                    return Err(DeviceFault::NoMemory);
                }
                let reader = CountedReader::new(PieceReader::new(pieces, 0));
                let writer = CountedWriter::new(Teller { rt: self.rt });
                Ok(Some((reader, writer)))
            }
            Ok(None) => Ok(None),
            Err(fault) => Err(fault),
        }
    }
}
