//! A file whose octets come when another program writes them, as those of a FIFO.

use crate::options::{gives_octets, open_to_read, read_octets};
use std::io;
use std::io::{ErrorKind, Read};
use std::os::fd::{AsRawFd, OwnedFd};

/// How often opening is tried again if a signal interrupts it.
const MOST_TRIES: u64 = 1 << 40;

/// A file that is open for reading. A read that would wait fails.
#[derive(Drop)]
pub struct PolledFile {
    descriptor: OwnedFd,
}

impl PolledFile {
    /// Opens a file. If it is a FIFO, this waits until another program opens it for writing.
    pub fn open(path: &str) -> io::Result<PolledFile> {
        for _ in 0..MOST_TRIES {
            match open_to_read(path) {
                Ok(descriptor) => return Ok(PolledFile { descriptor }),
                Err(error) => {
                    if error.kind() != ErrorKind::Interrupted {
                        return Err(error);
                    }
                }
            }
        }
        Err(io::Error::from(ErrorKind::Interrupted))
    }

    /// Whether a read would not wait. Waits for that so many milliseconds at most.
    pub fn is_ready(&self, milliseconds: i32) -> bool {
        gives_octets(self.descriptor.as_raw_fd(), milliseconds)
    }
}

impl Read for PolledFile {
    fn read(&mut self, room: &mut [u8]) -> io::Result<usize> {
        read_octets(&self.descriptor, room)
    }
}
