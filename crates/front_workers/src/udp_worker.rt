//! A worker that keeps many questions in flight.

ghost use Rattle.std.specs.Prelude.{◌≡◌, ◌≤◌, [], ℕ, IfOk};
ghost use Rattle.replies.specs.declared.limits.TheConstants.{MOST_FAILURES};
ghost use Rattle.plain_workers.specs.declared.work_end.WorkEnd.TheVariants.{Ended, Failing};
ghost use Rattle.plain_workers.specs.Working.{HasFailed};
ghost use Rattle.front_workers.specs.Accounts.{Accounts, fresh_worker};
ghost use Rattle.front_workers.specs.Asking.{asking_at};
ghost use Rattle.front_workers.specs.Begun.{RunsFromNone};

use crate::asking::AskingTerms;
use crate::table_seed::TableSeed;
use crate::tally::Tally;
use crate::turns::Turns;
use clock::{Clock, Elapsing, StopFlag};
use dns_text::NoMemory;
use flight::{Flight, Numbered};
use front::{Inbox, ServiceSocket, UdpListener};
use log::{Log, warn};
use mio::net::UdpSocket;
use outside::ReadyNet;
use plain_workers::WorkEnd;
use rand_core::Rng;
use replies::MOST_FAILURES;
use std::alloc::Global;
use std::marker::Model;
use std::sync::Wait;
use std::time::Instant;
use system::{DEVICE_FAULT, WORKER_ENDED, cause_of};

/// A worker that takes datagrams. Contracts see how it asks name servers, its counters, its clock, the socket of the service, and
/// the replies that wait to be sent by it.
#[derive(Drop)]
pub struct UdpWorker<'a, R, S: ServiceSocket = UdpSocket> {
    inbox: Inbox<S>,
    turns: Turns<'a, R, S>,
}

impl<'a, R, S: ServiceSocket> Model for UdpWorker<'a, R, S> {
    ghost use Rattle.front_workers.specs.Accounts.{WorkerState};

    ghost Value = { WorkerState S };

    ghost view = { λ worker. worker.turns };
}

impl<'a, R: ReadyNet + Log + Elapsing + Wait, S: ServiceSocket> UdpWorker<'a, R, S> {
    /// Takes datagrams at a listener. Exchanges are timed from `start` on. What it does is counted in a tally.
    pub fn new(
        rt: &'a R,
        tally: &'a Tally,
        alloc: Global,
        listener: UdpListener<S>,
        asking: AskingTerms<'a>,
        seed: TableSeed,
        start: Instant,
    ) -> Result<UdpWorker<'a, R, S>, NoMemory>
        ensures { IfOk result (λ worker. worker ≡ fresh_worker listener.socket (asking_at listener.place asking.entry) start) }
    {
        Ok(UdpWorker {
            inbox: Inbox::new(alloc)?,
            turns: Turns::new(rt, tally, alloc, listener, asking, seed, start)?,
        })
    }
}

/// Answers datagrams until the stop flag is set, or until `MOST_FAILURES` turns have failed in a row. At most `limit`
/// exchanges are under way, and a question that waits for one keeps no other waiting. The listener's waker makes the worker
/// see the flag at once. Questions under way are dropped then.
///
/// The worker logs a line for each of these:
/// - a turn that failed, or a reply that could not be sent
/// - an exchange that brought no reply
/// - a client that gets SERVFAIL because there is no memory, because it would need an exchange above the limit, or because its question
///   took too long or kept too much
pub fn fly_udp<
    D: Numbered,
    C: Clock + Drop,
    G: Rng + Drop,
    R: Wait + ReadyNet + Log + Elapsing,
    S: ServiceSocket,
    F: StopFlag,
>(
    rt: &R,
    alloc: Global,
    desk: &mut D,
    clock: C,
    ids: G,
    worker: &mut UdpWorker<'_, R, S>,
    limit: usize,
    stop: &F,
) -> WorkEnd
    // Each query that was taken was settled once, and each exchange that began ended once, except those that wait at the end. One
    // datagram left for each query that got a reply, one for each datagram that is too long and was refused, and no other.
    ensures accounts { (waiting : ℕ) × (waiting ≤ limit) × Accounts S.takes S.sends 0 worker.old waiting worker.new }
    // Each datagram that was taken began once, as a client of its own, and no other client came. What the questions that wait keep
    // is within its bound. No exchange began later than the clock says.
    ensures runs { RunsFromNone S.takes S.sends limit worker.old worker.new }
    // It asked name servers in one way throughout.
    ensures asks { worker.new.asking ≡ worker.old.asking }
    // No reply waits at the end.
    ensures unsent { worker.old.outbox.waiting ≡ [] → worker.new.outbox.waiting ≡ [] }
    ensures ended { result ≡ Ended → F.stopped }
    ensures failing { result ≡ Failing → HasFailed MOST_FAILURES worker.old.failures worker.new.failures }
{
    let mut questions = Flight::new(alloc, clock, ids, limit);
    let mut more = false;
    let mut failed = 0u8;
    for _ in rt.forever() {
        if stop.is_set() {
            return WorkEnd::Ended;
        }
        let turned = worker
            .turns
            .turn(desk, &mut questions, &mut worker.inbox, more);
        match turned {
            Ok(turned) => {
                more = turned.has_more();
                failed = 0;
            }
            Err(error) => {
                let cause = cause_of(&error);
                warn!(rt; "{DEVICE_FAULT}: no datagram is received: {cause}");
                worker.turns.count_failure();
                more = true;
                failed += 1;
                if failed == MOST_FAILURES {
                    warn!(rt; "{WORKER_ENDED}");
                    return WorkEnd::Failing;
                }
            }
        }
    }
    unreachable!()
}
