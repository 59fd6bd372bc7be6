//! A stream in pieces.

use std::alloc::Global;
use std::io;
use std::io::{ErrorKind, Read, Write};

/// What is read in pieces: a read gives a piece at most, and is interrupted at one of no octets.
#[derive(Drop)]
pub struct PieceReader {
    pieces: Vec<Vec<u8>>,
    /// Which piece comes next, and how many octets of it were given.
    piece: usize,
    given: usize,
    calls: u64,
    /// Which call fails; 0 for none.
    failing: u64,
}

impl PieceReader {
    pub fn new(pieces: Vec<Vec<u8>>, failing: u64) -> PieceReader {
        PieceReader {
            pieces,
            piece: 0,
            given: 0,
            calls: 0,
            failing,
        }
    }

    fn go_on(&mut self) {
        self.piece = self.piece.saturating_add(1);
        self.given = 0;
    }
}

impl Read for PieceReader {
    fn read(&mut self, room: &mut [u8]) -> io::Result<usize> {
        self.calls = self.calls.wrapping_add(1);
        if self.calls == self.failing {
            return Err(ErrorKind::BrokenPipe.into());
        }
        let Some(piece) = self.pieces.get(self.piece) else {
            return Ok(0);
        };
        let rest = piece.as_slice().get(self.given..).unwrap_or(&[]);
        let count = rest.len().min(room.len());
        room[..count].copy_from_slice(&rest[..count]);
        if count == rest.len() {
            self.go_on();
        } else {
            self.given = self.given.saturating_add(count);
        }
        if count == 0 {
            return Err(ErrorKind::Interrupted.into());
        }
        Ok(count)
    }
}

/// What is written to.
#[derive(Drop)]
pub struct PieceWriter {
    pub octets: Vec<u8>,
    /// How many octets a write takes at most.
    most: usize,
    calls: u64,
    /// Which call fails; 0 for none.
    failing: u64,
}

impl PieceWriter {
    pub fn new(alloc: Global, most: usize, failing: u64) -> PieceWriter {
        PieceWriter {
            octets: Vec::new(alloc),
            most,
            calls: 0,
            failing,
        }
    }
}

impl Write for PieceWriter {
    fn write(&mut self, text: &[u8]) -> io::Result<usize> {
        self.calls = self.calls.wrapping_add(1);
        if self.calls == self.failing {
            return Err(ErrorKind::BrokenPipe.into());
        }
        let count = text.len().min(self.most);
        if self.octets.extend_from_slice(&text[..count]).is_err() {
            return Ok(0);
        }
        Ok(count)
    }

    fn flush(&mut self) -> io::Result<()> {
        Ok(())
    }
}
