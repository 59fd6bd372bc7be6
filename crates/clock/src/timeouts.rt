//! Timeouts of a connection's calls.

use std::io;
use std::net::TcpStream;
use std::time::Duration;

/// A connection whose calls can be limited in time.
pub trait Timeouts {
    /// Limits the time that each later read waits. A time of 0 is an error.
    fn limit_read(&self, most: Duration) -> io::Result<()>;

    /// Limits the time that each later write waits. A time of 0 is an error.
    fn limit_write(&self, most: Duration) -> io::Result<()>;
}

impl Timeouts for TcpStream {
    fn limit_read(&self, most: Duration) -> io::Result<()> {
        self.set_read_timeout(Some(most))
    }

    fn limit_write(&self, most: Duration) -> io::Result<()> {
        self.set_write_timeout(Some(most))
    }
}
