//! A connection whose calls end by a deadline.

use crate::waiting::server_net::ServerNet;
use clock::{Deadline, StopFlag, Timeouts, glance, put_off};
use std::io;
use std::io::{Read, Write};
use std::rt::Clock;

/// A connection whose calls end by a deadline, or soon after the stop flag is set.
#[derive(Drop)]
pub(crate) struct Timed<'a, R: ServerNet, F: StopFlag> {
    pub rt: &'a R,
    pub stop: &'a F,
    pub stream: R::Connection,
    pub deadline: Deadline,
}

impl<'a, R: ServerNet + Clock, F: StopFlag> Read for Timed<'a, R, F> {
    ghost remaining = { λ timed. R.Connection.remaining timed.stream };

    fn read(&mut self, buf: &mut [u8]) -> io::Result<usize> {
        let left = self.deadline.left(self.rt)?;
        self.stream.limit_read(left.min(glance()))?;
        match self.stream.read(buf) {
            Ok(count) => Ok(count),
            Err(error) => Err(put_off(self.stop, error)),
        }
    }
}

impl<'a, R: ServerNet + Clock, F: StopFlag> Write for Timed<'a, R, F> {
    ghost contents = { λ timed. R.Connection.contents timed.stream };

    fn write(&mut self, buf: &[u8]) -> io::Result<usize> {
        let left = self.deadline.left(self.rt)?;
        self.stream.limit_write(left.min(glance()))?;
        match self.stream.write(buf) {
            Ok(count) => Ok(count),
            Err(error) => Err(put_off(self.stop, error)),
        }
    }

    fn flush(&mut self) -> io::Result<()> {
        self.stream.flush()
    }
}
