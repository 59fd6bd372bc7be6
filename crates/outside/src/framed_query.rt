//! A query preceded by its length, and the count of octets that have left.

ghost use Rattle.std.specs.Prelude.{◌≡◌, ◌↔◌, ◌<◌, ◌≤◌, length, slice_range, IsTrue, IfOk, OnErr};
ghost use Rattle.std.specs.Io.KnownBytes.{Appends};
ghost use Rattle.arrayvec.specs.ArrayVec.{array_vec_len};
ghost use Rattle.replies.specs.Framing.{framed};

use arrayvec::ArrayVec;
use replies::size_octets;
use std::io;
use std::io::{ErrorKind, Write};
use system::{MOST_CALLS, would_wait};

/// The most octets of a query to a name server: as many as any server takes in one datagram (RFC 1035, section 4.2.1).
pub const MOST_QUERY: usize = 512;

/// The most octets of a query and its length.
const MOST_FRAMED_QUERY: usize = 514;

/// A query preceded by its length, and the count of octets that have left. It takes no memory of its own.
#[derive(Drop)]
pub(crate) struct FramedQuery {
    octets: ArrayVec<u8, MOST_FRAMED_QUERY>,
    /// The count of octets that have left.
    left: usize,
    ghost front: { left ≤ array_vec_len octets },
}

impl FramedQuery {
    /// A query of which nothing has left. It fails with `InvalidInput` if the query is longer than one may be.
    pub fn new(query: &[u8]) -> io::Result<FramedQuery>
        ensures octets { IfOk result (λ made. made.octets.items ≡ framed query.now) }
        ensures left { IfOk result (λ made. made.left ≡ 0) }
        ensures fails { OnErr result (MOST_QUERY < length query.now) }
    {
        let size = query.len();
        if size > MOST_QUERY {
            return Err(io::Error::from(ErrorKind::InvalidInput));
        }
        let mut octets = ArrayVec::new();
        let [high, low] = size_octets(size);
        octets.push(high);
        octets.push(low);
        octets.try_extend_from_slice(query).unwrap();
        Ok(FramedQuery { octets, left: 0 })
    }

    /// Writes as much as the connection takes: whether the whole query has left. It fails if a write fails or takes nothing, or
    /// after `MOST_CALLS` calls.
    pub fn write_on<W: Write>(&mut self, stream: &mut W) -> io::Result<bool>
        ensures octets { self.new.octets ≡ self.old.octets }
        ensures left { self.old.left ≤ self.new.left }
        ensures written { Appends (W.contents stream.old) (W.contents stream.new)
            (slice_range self.old.octets.items self.old.left self.new.left) }
        ensures idle { self.old.left ≡ array_vec_len self.old.octets → stream.new ≡ stream.old }
        ensures whole { IfOk result (λ has_left. IsTrue has_left ↔ (self.new.left ≡ array_vec_len self.old.octets)) }
    {
        for _ in 0..MOST_CALLS {
            if self.left == self.octets.len() {
                return Ok(true);
            }
            match stream.write(&self.octets.as_slice()[self.left..]) {
                Ok(0) => return Err(io::Error::from(ErrorKind::WriteZero)),
                Ok(count) => self.left += count,
                Err(error) => {
                    if would_wait(error)? {
                        return Ok(false);
                    }
                }
            }
        }
        Err(io::Error::from(ErrorKind::TimedOut))
    }
}
