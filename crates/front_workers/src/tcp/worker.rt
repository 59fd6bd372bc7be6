//! A worker that serves many connections, with many questions in flight.

ghost use Rattle.std.specs.Prelude.{◌≡◌, IfOk};
ghost use Rattle.replies.specs.declared.limits.TheConstants.{MOST_FAILURES};
ghost use Rattle.plain_workers.specs.declared.work_end.WorkEnd.TheVariants.{Ended, Failing};
ghost use Rattle.plain_workers.specs.Working.{HasFailed};
ghost use Rattle.front_workers.specs.Asking.{asking_at};
ghost use Rattle.front.specs.Memory.{KeepLittle};
ghost use Rattle.front_workers.specs.Streaming.{StreamRunsFromNone, fresh_worker};

use crate::asking::AskingTerms;
use crate::table_seed::TableSeed;
use crate::tally::Tally;
use crate::tcp::turns::TcpTurns;
use clock::{Clock, Elapsing, StopFlag};
use dns_text::NoMemory;
use flight::{Flight, Numbered};
use front::{ClientListener, ClientStream, TcpPoll};
use log::{Log, warn};
use mio::net::{TcpListener, TcpStream};
use outside::ReadyNet;
use plain_workers::WorkEnd;
use rand_core::Rng;
use replies::MOST_FAILURES;
use std::alloc::Global;
use std::marker::Model;
use std::sync::Wait;
use std::time::Instant;
use system::{DEVICE_FAULT, WORKER_ENDED, cause_of, lacks_descriptors};

/// A worker that takes messages by connections. Contracts see how it asks name servers, its counters, its clock, and the connections of
/// its clients.
#[derive(Drop)]
pub struct TcpWorker<'a, R, S: ClientStream = TcpStream, L = TcpListener> {
    turns: TcpTurns<'a, R, S, L>,
}

impl<'a, R, S: ClientStream, L> Model for TcpWorker<'a, R, S, L> {
    ghost use Rattle.front_workers.specs.Streaming.{StreamWorker};

    ghost Value = { StreamWorker S };

    ghost view = { λ worker. worker.turns };
}

impl<'a, R: ReadyNet + Log + Elapsing + Wait, S: ClientStream, L: ClientListener<S>> TcpWorker<
    'a,
    R,
    S,
    L,
> {
    /// Accepts connections at a listener, of which at most `connections` may be open. Exchanges and connections are timed from `start` on.
    /// What it does is counted in a tally.
    pub fn new(
        rt: &'a R,
        tally: &'a Tally,
        alloc: Global,
        listener: TcpPoll<L>,
        connections: usize,
        asking: AskingTerms<'a>,
        seed: TableSeed,
        start: Instant,
    ) -> Result<TcpWorker<'a, R, S, L>, NoMemory>
        ensures { IfOk result (λ worker. worker ≡ fresh_worker (asking_at listener.place asking.entry) start) }
    {
        Ok(TcpWorker {
            turns: TcpTurns::new(rt, tally, alloc, listener, connections, asking, seed, start)?,
        })
    }
}

/// Serves connections until the stop flag is set, or until `MOST_FAILURES` turns have failed in a row. At most `limit` exchanges are under
/// way. Questions of one connection are in flight together, and each reply leaves as it comes (RFC 7766, sections 6.2.1.1 and 7). The
/// listener's waker makes the worker see the flag at once. Connections are closed then, and questions under way are dropped.
///
/// A connection is closed if it is idle for `MOST_IDLE`, if a message has not come whole or a reply is not read within `MOST_STUCK`, if it
/// fails, or if another needs its place and it has been quiet longest. The worker logs what `fly_udp` logs.
pub fn fly_tcp<
    D: Numbered,
    C: Clock + Drop,
    G: Rng + Drop,
    R: Wait + ReadyNet + Log + Elapsing,
    S: ClientStream,
    L: ClientListener<S>,
    F: StopFlag,
>(
    rt: &R,
    alloc: Global,
    desk: &mut D,
    clock: C,
    ids: G,
    worker: &mut TcpWorker<'_, R, S, L>,
    limit: usize,
    stop: &F,
) -> WorkEnd
    // Each message that came whole by a connection began once, as a client of that connection, and no other client came. One reply came to
    // be owed to its connection for each client that got one, unless the connection had ended, and no other. What a connection was sent is
    // the first of what it is owed, in order. Each message was settled once, and each exchange that began ended once, except those that
    // wait at the end. No exchange begins later than the last moment of the worker's clock.
    ensures runs { StreamRunsFromNone S.reads S.writes S.drained limit worker.old worker.new }
    // Beyond what each may keep at rest, the connections keep no more memory than all may.
    ensures kept { KeepLittle worker.new.connections }
    // It asked name servers in one way throughout.
    ensures asks { worker.new.asking ≡ worker.old.asking }
    ensures ended { result ≡ Ended → F.stopped }
    ensures failing { result ≡ Failing → HasFailed MOST_FAILURES worker.old.failures worker.new.failures }
{
    let mut questions = Flight::new(alloc, clock, ids, limit);
    let mut failed = 0u8;
    for _ in rt.forever() {
        worker.turns.keep_little();
        if stop.is_set() {
            return WorkEnd::Ended;
        }
        match worker.turns.turn(desk, &mut questions) {
            Ok(_turned) => failed = 0,
            Err(error) => {
                let cause = cause_of(&error);
                warn!(rt; "{DEVICE_FAULT}: no connection is accepted: {cause}");
                // A connection or an exchange that ends gives a descriptor back.
                if lacks_descriptors(&error) {
                    continue;
                }
                worker.turns.count_failure();
                failed += 1;
                if failed == MOST_FAILURES {
                    worker.turns.keep_little();
                    warn!(rt; "{WORKER_ENDED}");
                    return WorkEnd::Failing;
                }
            }
        }
    }
    unreachable!()
}
