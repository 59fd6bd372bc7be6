//! The listener at which clients' connections come in.

ghost use Rattle.std.specs.Prelude.{◌≡◌, IfOk, IfErr, IfSome, IsNone};
ghost use Rattle.system.specs.Descriptors.{LacksDescriptors};

use crate::frame_reader::FrameReader;
use crate::frame_writer::{FrameWriter, StreamWriter};
use crate::listener::Listener;
use clock::{REST_SECONDS, StopFlag, is_wait_over};
use log::{Log, warn};
use std::alloc::Global;
use std::net::{TcpListener, TcpStream};
use std::rt::Clock;
use std::sync::Wait;
use std::time::Duration;
use std::{io, thread};
use streams::CountedWriter;
use system::{DEVICE_FAULT, DeviceFault, lacks_descriptors};

/// A listener that accepts connections at a socket that several workers share, until the stop flag is set.
///
/// If accepting fails, it rests for `REST_SECONDS`. If no descriptors are left, that is no failure of the listener: it logs
/// it, rests and tries again, however long that lasts.
#[derive(Drop)]
pub struct Connections<'a, R: Clock, F: StopFlag> {
    rt: &'a R,
    alloc: Global,
    listener: &'a TcpListener,
    stop: &'a F,
    failures: u64,
}

impl<'a, R: Clock, F: StopFlag> Connections<'a, R, F> {
    /// A listener at a socket of `bind_clients`.
    pub fn new(
        rt: &'a R,
        alloc: Global,
        listener: &'a TcpListener,
        stop: &'a F,
    ) -> Connections<'a, R, F>
        ensures { result.failures ≡ 0 }
    {
        Connections {
            rt,
            alloc,
            listener,
            stop,
            failures: 0,
        }
    }

    /// The next connection: one handle to read from it, one to write to it.
    fn next(&self) -> io::Result<(TcpStream, TcpStream)> {
        let (stream, _) = self.listener.accept()?;
        stream.set_nodelay(true)?;
        let other = stream.try_clone()?;
        Ok((stream, other))
    }

    /// Waits before the next try.
    fn rest(&self) {
        thread::sleep(self.rt, Duration::from_secs(REST_SECONDS));
    }
}

impl<'a, R: Wait + Clock + Log, F: StopFlag> Connections<'a, R, F> {
    /// Tries again while no descriptors are left, until a connection comes in, the stop flag is set, or accepting fails.
    fn come(&self) -> io::Result<Option<(TcpStream, TcpStream)>>
        // It ends only if the flag is set, and the error is never that no descriptors are left.
        ensures ended { IfOk result (λ came. IsNone came → F.stopped) }
        ensures err { IfErr result (λ error. ¬ LacksDescriptors error) }
    {
        for _ in self.rt.forever() {
            if self.stop.is_set() {
                return Ok(None);
            }
            match self.next() {
                Ok(connection) => return Ok(Some(connection)),
                Err(error) => {
                    if is_wait_over(&error) {
                        continue;
                    }
                    if !lacks_descriptors(&error) {
                        return Err(error);
                    }
                    warn!(self.rt; "{DEVICE_FAULT}");
                    self.rest();
                }
            }
        }
        unreachable!()
    }
}

impl<'a, R: Wait + Clock + Log, F: StopFlag> Listener<
    FrameReader<'a, R, F, TcpStream>,
    FrameWriter<'a, R, F, TcpStream>,
> for Connections<'a, R, F> {
    // It ends only if the flag is set. Nothing is known of who connects.
    ghost accepts = { λ _ came _. IfOk came (λ came. IsNone came → F.stopped) };

    ghost failures = { λ connections. connections.failures };

    fn accept(
        &mut self,
    ) -> Result<
        Option<
            (
                FrameReader<'a, R, F, TcpStream>,
                FrameWriter<'a, R, F, TcpStream>,
            ),
        >,
        DeviceFault,
    > {
        let (stream, other) = match self.come() {
            Ok(Some(connection)) => connection,
            Ok(None) => return Ok(None),
            Err(_) => {
                self.rest();
                self.failures = self.failures.saturating_add(1);
                return Err(DeviceFault::Device);
            }
        };
        // It came to wake the worker, or too late.
        if self.stop.is_set() {
            return Ok(None);
        }
        match FrameReader::new(self.rt, self.alloc, stream, self.stop) {
            Ok(reader) => {
                let writer = CountedWriter::new(StreamWriter::new(self.rt, other, self.stop));
                Ok(Some((reader, writer)))
            }
            Err(_) => Err(DeviceFault::NoMemory),
        }
    }
}
