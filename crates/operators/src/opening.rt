//! The opening of a FIFO, in a thread of its own: it waits until another program opens the FIFO for writing.

use std::alloc::{AllocError, Global};
use std::sync::Arc;
use std::sync::atomic::{AtomicBool, Ordering};
use std::thread::{JoinHandle, Threads};
use std::{io, thread};
use system::PolledFile;

/// A FIFO that a thread opens. The end of the process cuts off a thread that was not joined.
#[derive(Drop)]
pub(crate) struct Opening {
    opener: JoinHandle<io::Result<PolledFile>>,
    is_over: Arc<AtomicBool, Global>,
}

impl Opening {
    /// Begins to open the FIFO with this path.
    pub fn begin<R: Threads>(rt: &R, alloc: Global, path: &str) -> Result<Opening, AllocError> {
        let path = String::from_str(alloc, path)?;
        let is_over = Arc::new(alloc, AtomicBool::new(false))?;
        let flag = Arc::try_clone(&is_over)?;
        let opener = thread::spawn(rt, move || {
            let opened = PolledFile::open(path.as_str());
            flag.store(true, Ordering::SeqCst);
            opened
        })?;
        Ok(Opening { opener, is_over })
    }

    /// Whether the FIFO is open, or cannot be opened.
    pub fn is_over(&self) -> bool {
        self.is_over.load(Ordering::SeqCst)
    }

    /// The FIFO. Waits until the opening is over.
    pub fn join<R: Threads>(self, rt: &R) -> io::Result<PolledFile> {
        self.opener.join(rt)
    }
}
