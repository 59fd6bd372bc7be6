//! Lines of the log that more than one place writes.

use crate::descriptors::lacks_descriptors;
use std::io;
use std::io::ErrorKind;

/// A socket failed, or an exchange with a name server.
pub const DEVICE_FAULT: &str = "resolver: device fault";

/// A worker ended after `MOST_FAILURES` failures in a row.
pub const WORKER_ENDED: &str = "resolver: worker ended by failures";

/// The cause of a failed call, in words.
pub fn cause_of(error: &io::Error) -> &'static str {
    if lacks_descriptors(error) {
        return "no descriptors";
    }
    match error.kind() {
        ErrorKind::OutOfMemory => "no memory",
        ErrorKind::TimedOut => "timed out",
        ErrorKind::ConnectionRefused => "refused",
        ErrorKind::NetworkUnreachable | ErrorKind::HostUnreachable => "unreachable",
        ErrorKind::AddrNotAvailable => "its address is never asked",
        _ => "failed",
    }
}
