//! A worker that serves connections, one after another.

ghost use Rattle.std.specs.Prelude.{◌≡◌, ◌+◌, ◌≤◌, ◌<◌};
ghost use Rattle.streams.specs.declared.engine.TheConstants.{MOST_READS};
ghost use Rattle.streams.specs.declared.source.TheConstants.{MOST_COUNTED};
ghost use Rattle.replies.specs.declared.limits.TheConstants.{MOST_FAILURES};
ghost use Rattle.plain_workers.specs.declared.work_end.WorkEnd.TheVariants.{Failing};
ghost use Rattle.plain_workers.specs.States.{ClientServed, ConnectionsServed};
ghost use Rattle.plain_workers.specs.Working.{HasFailed};

use crate::exchange::Exchange;
use crate::listener::Listener;
use crate::stream::serve_stream;
use crate::tools::Tools;
use crate::work_end::WorkEnd;
use clock::Clock;
use history::Desk;
use log::{Log, warn};
use rand_core::Rng;
use replies::MOST_FAILURES;
use std::alloc::Global;
use std::sync::Wait;
use streams::{Sink, Source};
use system::{DEVICE_FAULT, DeviceFault, WORKER_ENDED};

/// Serves a connection as a stream of messages, and closes it.
pub(crate) fn serve_connection<
    D: Desk,
    X: Exchange,
    C: Clock,
    G: Rng,
    S: Source + Drop,
    W: Sink + Drop,
>(alloc: Global, desk: &mut D, tools: &mut Tools<X, C, G>, mut reader: S, mut writer: W)
    requires reads { S.calls reader + MOST_READS ≤ MOST_COUNTED }
    requires writes { W.failures writer < MOST_COUNTED }
    ensures server_port { tools.new.server_port ≡ tools.old.server_port }
    ensures streamed { ClientServed D.calls X.asks C.ticks G.stream S.Source W.Sink (reader, writer) desk.old tools.old desk.new tools.new }
{
    // A fault ends this connection alone.
    let _ = serve_stream(alloc, desk, tools, &mut reader, &mut writer);
}

/// Serves connections, one after another, until the listener has ended, or has failed `MOST_FAILURES` times in a row.
pub fn work_tcp<
    D: Desk,
    L: Listener<S, W>,
    S: Source + Drop,
    W: Sink + Drop,
    X: Exchange,
    C: Clock,
    G: Rng,
    R: Wait + Log,
>(rt: &R, alloc: Global, desk: &mut D, listener: &mut L, tools: &mut Tools<X, C, G>) -> WorkEnd
    ensures server_port { tools.new.server_port ≡ tools.old.server_port }
    // Each connection was served as a stream before the next was accepted.
    ensures works { ConnectionsServed D.calls X.asks C.ticks G.stream L.accepts S.Source W.Sink
        result desk.old tools.old listener.old desk.new tools.new listener.new }
    ensures failing { result ≡ Failing → HasFailed MOST_FAILURES (L.failures listener.old) (L.failures listener.new) }
{
    let mut failed = 0u8;
    for _ in rt.forever() {
        match listener.accept() {
            Ok(Some((reader, writer))) => {
                failed = 0;
                serve_connection(alloc, desk, tools, reader, writer);
            }
            Ok(None) => return WorkEnd::Ended,
            Err(DeviceFault::NoMemory) => {}
            Err(DeviceFault::Device) => {
                warn!(rt; "{DEVICE_FAULT}");
                failed += 1;
                if failed == MOST_FAILURES {
                    warn!(rt; "{WORKER_ENDED}");
                    return WorkEnd::Failing;
                }
            }
        }
    }
    unreachable!()
}
