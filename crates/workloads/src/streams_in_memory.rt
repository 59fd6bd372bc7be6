//! A reader over lines in memory, and a writer that takes what is written into a digest.

ghost use Rattle.std.specs.Prelude.{◌≡◌, None};

use crate::digest::Digest;
use streams::{ReadFailed, Sink, Source, WriteFailed};

/// Lines that are read in pieces.
#[derive(Drop)]
pub struct Lines<'a> {
    left: &'a [u8],
    calls: u64,
}

impl<'a> Lines<'a> {
    /// These lines, from the first on.
    pub fn new(lines: &'a [u8]) -> Lines<'a>
        ensures { result.calls ≡ 0 }
    {
        Lines {
            left: lines,
            calls: 0,
        }
    }
}

impl<'a> Source for Lines<'a> {
    ghost remaining = { λ _. None };

    ghost calls = { λ s. s.calls };

    ghost failures = { λ _. 0 };

    fn next(&mut self, room: &mut [u8]) -> Result<Option<usize>, ReadFailed> {
        self.calls += 1;
        let count = self.left.len().min(room.len());
        if count == 0 {
            return Ok(None);
        }
        let (front, rest) = self.left.split_at(count);
        room[..count].copy_from_slice(front);
        self.left = rest;
        Ok(Some(count))
    }
}

/// What is written goes into a digest.
#[derive(Drop)]
pub struct Told {
    pub digest: Digest,
}

impl Sink for Told {
    ghost contents = { λ _. None };

    ghost failures = { λ _. 0 };

    fn put(&mut self, text: &[u8]) -> Result<usize, WriteFailed> {
        self.digest.octets(text);
        Ok(text.len())
    }
}
