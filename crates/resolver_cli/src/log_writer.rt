//! The writer of a service's log, in a thread of its own: nobody else waits for standard error.

use crate::worker::Lent;
use log::Log;
use shared_book::CallLedger;
use std::rt::Clock;
use std::sync::Wait;
use std::sync::atomic::Ordering;
use std::thread;
use std::time::Duration;

/// The time for which a line waits at most if standard error takes it, in milliseconds.
const GLANCE_MILLISECONDS: u64 = 50;

/// Writes the lines of the log that wait, until the service stops.
pub(crate) fn write_often<L: CallLedger, R: Wait + Clock + Log>(rt: &R, lent: &Lent<'_, L>) {
    for _ in rt.forever() {
        if lent.stop.load(Ordering::SeqCst) {
            return;
        }
        rt.flush();
        thread::sleep(rt, Duration::from_millis(GLANCE_MILLISECONDS));
    }
}
