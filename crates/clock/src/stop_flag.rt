//! The flag by which workers stop.

ghost use Rattle.std.specs.Prelude.{IsTrue};

use crate::deadline::is_wait_over;
use std::io;
use std::io::ErrorKind;
use std::sync::atomic::{AtomicBool, Ordering};

/// A flag that is set when workers are to stop.
pub trait StopFlag {
    /// A fact that holds once a worker saw the flag set.
    ghost stopped: { Type 0 };

    /// Whether the flag is set.
    fn is_set(&self) -> bool
        ensures { IsTrue result → stopped };
}

impl StopFlag for AtomicBool {
    // Nothing is known of what other threads do.
    ghost stopped = { Unit {0} };

    fn is_set(&self) -> bool {
        self.load(Ordering::SeqCst)
    }
}

/// The error of a call that waited. If it only ended since it had waited for a glance, it is to be made again, unless workers are to stop.
pub fn put_off<F: StopFlag>(stop: &F, error: io::Error) -> io::Error {
    if is_wait_over(&error) && !stop.is_set() {
        return io::Error::from(ErrorKind::Interrupted);
    }
    error
}
