//! A FIFO that is read while operators are looked at: `stop` ends the wait for its octets.

use crate::lookout::Lookout;
use crate::opening::Opening;
use std::alloc::Global;
use std::io::{ErrorKind, Read};
use std::rt::Clock;
use std::sync::Wait;
use std::thread::Threads;
use std::time::Duration;
use std::{io, thread};
use system::{PolledFile, would_wait};

/// The time between two looks at the operators while the FIFO is being opened, in milliseconds.
const REST_MILLISECONDS: u64 = 20;

/// The time for which a read waits for octets before the operators are looked at again, in milliseconds.
const GLANCE_MILLISECONDS: i32 = 100;

/// A FIFO that is open. Opening it and each read fail once an operator has sent `stop`.
#[derive(Drop)]
pub(crate) struct WatchedFifo<'l, L: Lookout> {
    fifo: PolledFile,
    lookout: &'l mut L,
}

impl<'l, L: Lookout> WatchedFifo<'l, L> {
    /// Opens the FIFO with this path, once another program has opened it for writing.
    pub fn open<R: Threads + Wait + Clock>(
        rt: &R,
        alloc: Global,
        path: &str,
        lookout: &'l mut L,
    ) -> io::Result<WatchedFifo<'l, L>> {
        let opening = Opening::begin(rt, alloc, path)?;
        for _ in rt.forever() {
            if opening.is_over() {
                break;
            }
            lookout.look()?;
            thread::sleep(rt, Duration::from_millis(REST_MILLISECONDS));
        }
        let fifo = opening.join(rt)?;
        Ok(WatchedFifo { fifo, lookout })
    }
}

impl<'l, L: Lookout> Read for WatchedFifo<'l, L> {
    /// If no octets have come for a while, the read is to be made again.
    fn read(&mut self, room: &mut [u8]) -> io::Result<usize> {
        self.lookout.look()?;
        if !self.fifo.is_ready(GLANCE_MILLISECONDS) {
            return Err(io::Error::from(ErrorKind::Interrupted));
        }
        match self.fifo.read(room) {
            Ok(count) => Ok(count),
            Err(error) => {
                let _ = would_wait(error)?;
                Err(io::Error::from(ErrorKind::Interrupted))
            }
        }
    }
}
