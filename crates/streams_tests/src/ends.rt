//! Readers and writers that end, fail and are interrupted.

use std::cell::Cell;
use std::io;
use std::io::{Read, Write};

/// A reader that gives its octets in pieces, and then ends or fails.
#[derive(Drop)]
pub struct Pieces<'a> {
    pub rest: &'a [u8],
    pub piece: usize,
    pub fails: bool,
}

impl Read for Pieces<'_> {
    fn read(&mut self, buf: &mut [u8]) -> io::Result<usize> {
        if self.fails && self.rest.is_empty() {
            return Err(io::ErrorKind::BrokenPipe.into());
        }
        let n = self.piece.min(self.rest.len()).min(buf.len());
        let (front, rest) = self.rest.split_at(n);
        buf[..n].copy_from_slice(front);
        self.rest = rest;
        Ok(n)
    }
}

/// A writer that takes five octets at a time, and has room for so many.
#[derive(Drop)]
pub struct Room {
    pub text: Vec<u8>,
    pub left: usize,
}

impl Write for Room {
    fn write(&mut self, buf: &[u8]) -> io::Result<usize> {
        let n = buf.len().min(self.left).min(5);
        if self.text.extend_from_slice(&buf[..n]).is_err() {
            return Ok(0);
        }
        self.left -= n;
        Ok(n)
    }

    fn flush(&mut self) -> io::Result<()> {
        Ok(())
    }
}

/// A reader or writer of which every other call is interrupted.
#[derive(Drop)]
pub struct Interrupted<T> {
    pub inner: T,
    pub due: bool,
}

impl<R: Read> Read for Interrupted<R> {
    fn read(&mut self, buf: &mut [u8]) -> io::Result<usize> {
        self.due = !self.due;
        if self.due {
            return Err(io::ErrorKind::Interrupted.into());
        }
        self.inner.read(buf)
    }
}

impl<W: Write> Write for Interrupted<W> {
    fn write(&mut self, buf: &[u8]) -> io::Result<usize> {
        self.due = !self.due;
        if self.due {
            return Err(io::ErrorKind::Interrupted.into());
        }
        self.inner.write(buf)
    }

    fn flush(&mut self) -> io::Result<()> {
        Ok(())
    }
}

/// A reader that gives a line of one octet at a time, and fails unless those before it were echoed.
#[derive(Drop)]
pub struct Asker<'a> {
    pub rest: &'a [u8],
    pub given: usize,
    pub written: &'a Cell<usize>,
}

impl Read for Asker<'_> {
    fn read(&mut self, buf: &mut [u8]) -> io::Result<usize> {
        if self.written.get() != self.given {
            return Err(io::ErrorKind::BrokenPipe.into());
        }
        let n = self.rest.len().min(buf.len()).min(2);
        let (front, rest) = self.rest.split_at(n);
        buf[..n].copy_from_slice(front);
        self.rest = rest;
        self.given = self.given.wrapping_add(n);
        Ok(n)
    }
}

/// A writer that counts what it takes.
#[derive(Drop)]
pub struct Tally<'a> {
    pub written: &'a Cell<usize>,
}

impl Write for Tally<'_> {
    fn write(&mut self, buf: &[u8]) -> io::Result<usize> {
        self.written.set(self.written.get().wrapping_add(buf.len()));
        Ok(buf.len())
    }

    fn flush(&mut self) -> io::Result<()> {
        Ok(())
    }
}
