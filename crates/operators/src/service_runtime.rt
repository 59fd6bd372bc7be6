//! The runtime of a service: the system, with a log that counts repeats.

use crate::service_log::ServiceLog;
use log::kv::Source;
use log::span::Spans;
use log::{Log, Metadata, Record};
use std::fmt::Display;
use std::io;
use std::net::{Net, SocketAddr, UdpSocket};
use std::random::RandomSource;
use std::rt::Clock;
use std::sync::Wait;
use std::thread::Threads;
use std::time::Duration;

/// A runtime that logs to the log of a service. It passes on all else that a service needs of the system.
#[derive(Drop)]
pub struct ServiceRuntime<'a, R> {
    rt: &'a R,
    log: &'a ServiceLog<'a, R>,
}

impl<'a, R> ServiceRuntime<'a, R> {
    /// This runtime, which logs to this log.
    pub fn new(rt: &'a R, log: &'a ServiceLog<'a, R>) -> ServiceRuntime<'a, R> {
        ServiceRuntime { rt, log }
    }
}

impl<'a, R: Wait> Wait for ServiceRuntime<'a, R> {}

impl<'a, R: Threads> Threads for ServiceRuntime<'a, R> {}

impl<'a, R: Clock> Clock for ServiceRuntime<'a, R> {
    fn monotonic(&self) -> io::Result<Duration> {
        self.rt.monotonic()
    }

    fn since_1970(&self) -> io::Result<Duration> {
        self.rt.since_1970()
    }

    fn sleep(&self, duration: Duration) {
        self.rt.sleep(duration)
    }
}

impl<'a, R: Print> Print for ServiceRuntime<'a, R> {
    fn print<D: Display + Drop>(&self, value: D) -> io::Result<()> {
        self.rt.print(value)
    }

    fn println<D: Display + Drop>(&self, value: D) -> io::Result<()> {
        self.rt.println(value)
    }

    fn write_all(&self, bytes: &[u8]) -> io::Result<()> {
        self.rt.write_all(bytes)
    }
}

impl<'a, R: RandomSource> RandomSource for ServiceRuntime<'a, R> {
    fn fill_bytes(&self, buf: &mut [u8]) -> io::Result<()> {
        self.rt.fill_bytes(buf)
    }
}

impl<'a, R: Net> Net for ServiceRuntime<'a, R> {
    type Stream = R::Stream;

    type Listener = R::Listener;

    fn bind(&self, addr: SocketAddr) -> io::Result<R::Listener> {
        self.rt.bind(addr)
    }

    fn connect(&self, addr: SocketAddr) -> io::Result<R::Stream> {
        self.rt.connect(addr)
    }

    fn connect_timeout(&self, addr: SocketAddr, timeout: Duration) -> io::Result<R::Stream> {
        self.rt.connect_timeout(addr, timeout)
    }

    fn bind_udp(&self, addr: SocketAddr) -> io::Result<UdpSocket> {
        self.rt.bind_udp(addr)
    }
}

impl<'a, R: Wait + Clock + Eprint> Log for ServiceRuntime<'a, R> {
    fn enabled(&self, metadata: &Metadata<'_>) -> bool {
        self.log.enabled(metadata)
    }

    fn log<D: Display, K: Source, S: Spans>(&self, record: &Record<'_, D, K, S>) {
        self.log.log(record);
    }

    fn flush(&self) {
        self.log.flush();
    }

    fn target(&self) -> &str {
        self.log.target()
    }
}
