//! The turns of a worker that takes messages by connections. In each it waits, goes on with its exchanges, and serves connections.

ghost use Rattle.std.specs.Prelude.{◌≡◌, ◌≤◌, IfOk, OnOk};
ghost use Rattle.system.specs.Counts.{Rises};
ghost use Rattle.clock.specs.Moments.{millis_at};
ghost use Rattle.flight.specs.declared.table.TheConstants.{PATIENCE, QUESTION_PATIENCE};
ghost use Rattle.flight.specs.declared.kept.TheConstants.{MOST_AT_REST};
ghost use Rattle.flight.specs.Bounds.{AllGoOn, Relieves, kept_all};
ghost use Rattle.flight.specs.Waiting.{IsPatient, IsTimely};
ghost use Rattle.front_workers.specs.Asking.{asking_at};
ghost use Rattle.front_workers.specs.Sockets.{asking_of};
ghost use Rattle.front.specs.Connections.{Tends};
ghost use Rattle.front_workers.specs.Looked.{AllLookedAt, EndOverdue, LooksAtAllBy};
ghost use Rattle.front.specs.Memory.{KeepLittle};
ghost use Rattle.front_workers.specs.Streaming.{BeginsClient, StreamEndsOverdue, StreamGoesOn, fresh_worker};

use crate::asking::AskingTerms;
use crate::table_seed::TableSeed;
use crate::tally::Tally;
use crate::turns::{begin_anew, look_all, patience};
use crate::worker_sockets::WorkerSockets;
use clock::{Clock, Elapsing, MonotonicClock};
use dns_text::NoMemory;
use flight::{Flight, Numbered};
use front::{
    ClientListener, ClientStream, SERVICE, TakenMessage, TcpClient, TcpFront, TcpPoll, key_of,
};
use log::Log;
use mio::Events;
use outside::{PermittedNet, ReadyNet, SocketLine};
use rand_core::Rng;
use replies::{MOST_DATAGRAM, is_dear, wants_reply};
use std::alloc::Global;
use std::io;
use std::marker::Model;
use std::sync::Wait;
use std::time::{Duration, Instant};
use system::would_wait;

/// The most events that are handled in one turn, so that none waits after too many others.
const MOST_READY: usize = 64;

/// The most connections that begin in one turn.
const MOST_ACCEPTED: usize = 16;

/// The most calls that read one connection in one turn. Then it waits behind the others.
const MOST_READS: usize = 32;

/// The most connections that are served in one turn, so that a turn is short: new connections and `stop` wait for it.
const MOST_SERVED: usize = 64;

/// The milliseconds between two looks for connections whose time is up.
const LOOK_EVERY: u64 = 250;

/// The milliseconds in which no connection is accepted after accepting one failed, for instance since no descriptor was left.
const REST: u64 = 1_000;

/// The questions of a worker that are in flight.
pub(crate) type Questions<D, C, G, R, S> = Flight<D, SocketLine<R>, C, G, TcpClient<S>>;

/// A turn that did not fail. Only `TcpTurns::turn` makes one, so whoever has one took a turn.
#[derive(Drop)]
pub(crate) struct TcpTurnTaken {
    made: (),
}

/// The state of a worker between its turns. Contracts see how it asks name servers, its counters, its clock, what its poll reported last,
/// and the connections of its clients.
#[derive(Drop)]
pub(crate) struct TcpTurns<'a, R, S: ClientStream, L> {
    sockets: WorkerSockets<'a, R, R, TcpFront<S>>,
    listener: L,
    clock: MonotonicClock<'a, R>,
    events: Events,
    taken: u64,
    failures: u64,
    /// Whether connections may be there to be accepted.
    may_accept: bool,
    /// The moment before which none is accepted.
    rests_until: u64,
    /// The moment of the next look for connections whose time is up.
    next_look: u64,
}

impl<'a, R, S: ClientStream, L> Model for TcpTurns<'a, R, S, L> {
    ghost use Rattle.mio.specs.Events.{items};
    ghost use Rattle.front_workers.specs.Sockets.{asking_of};
    ghost use Rattle.front_workers.specs.Streaming.{StreamWorker};

    ghost Value = { StreamWorker S };

    ghost view = { λ turns. record {
      asking = asking_of turns.sockets;
      taken = turns.taken;
      failures = turns.failures;
      connections = turns.sockets.outbox;
      counts = turns.sockets.counts;
      clock = turns.clock;
      reported = items turns.events;
    } };
}

impl<'a, R: ReadyNet + Log + Elapsing + Wait, S: ClientStream, L: ClientListener<S>> TcpTurns<
    'a,
    R,
    S,
    L,
> {
    /// Accepts connections at a listener, of which at most `connections` may be open. Exchanges and connections are timed from `start` on.
    /// What it does is counted in a tally.
    pub fn new(
        rt: &'a R,
        tally: &'a Tally,
        alloc: Global,
        listener: TcpPoll<L>,
        connections: usize,
        asking: AskingTerms<'a>,
        seed: TableSeed,
        start: Instant,
    ) -> Result<TcpTurns<'a, R, S, L>, NoMemory>
        ensures { IfOk result (λ turns. turns ≡ fresh_worker (asking_at listener.place asking.entry) start) }
    {
        let TcpPoll {
            poll,
            listener,
            place,
        } = listener;
        let front = TcpFront::new(alloc, connections)?;
        Ok(TcpTurns {
            sockets: WorkerSockets::new(
                rt,
                PermittedNet::new(rt),
                tally,
                alloc,
                poll,
                place,
                front,
                asking,
                seed,
            )?,
            listener,
            clock: MonotonicClock::new(rt, start),
            events: Events::with_capacity(alloc, MOST_READY)?,
            taken: 0,
            failures: 0,
            may_accept: true,
            rests_until: 0,
            next_look: 0,
        })
    }

    /// Counts a turn that failed.
    pub fn count_failure(&mut self)
        ensures failures { Rises self.old.failures self.new.failures }
        ensures taken { self.new.taken ≡ self.old.taken }
        ensures counts { self.new.counts ≡ self.old.counts }
        ensures connections { self.new.connections ≡ self.old.connections }
        ensures clock { self.new.clock ≡ self.old.clock }
        ensures asks { self.new.asking ≡ self.old.asking }
    {
        self.failures = self.failures.saturating_add(1);
    }

    /// The law of what its connections keep. It does nothing.
    pub fn keep_little(&self)
        ensures { KeepLittle self.now.connections }
    {
        self.sockets.outbox.keep_little();
    }

    /// Reads the clock, in milliseconds. What happens from now on happens at this moment.
    fn set_now(&mut self) -> u64
        ensures now { result ≡ millis_at self.new.clock.last }
        ensures onward { self.old.clock.last ≤ self.new.clock.last }
        ensures kept { self.new.connections ≡ self.old.connections }
        ensures counts { self.new.counts ≡ self.old.counts }
        ensures taken { self.new.taken ≡ self.old.taken }
        ensures failures { self.new.failures ≡ self.old.failures }
        ensures asks { self.new.asking ≡ self.old.asking }
        ensures reported { self.new.reported ≡ self.old.reported }
    {
        let now = self.clock.millis();
        let sockets = &mut self.sockets;
        sockets.set_now(&self.clock);
        sockets.outbox.set_now(now);
        now
    }

    /// Puts a connection into the queue of those that are to be served.
    fn queue(&mut self, key: usize)
        ensures { self.new ≡ self.old }
    {
        let sockets = &mut self.sockets;
        sockets.outbox.queue(key);
    }

    /// Writes what a connection is owed, as far as it takes octets.
    fn write_on(&mut self, key: usize)
        ensures tends { Tends S.reads S.writes self.old.connections self.new.connections }
        ensures kept { self.new ≡ record self.old { connections = self.new.connections } }
    {
        let sockets = &mut self.sockets;
        sockets.outbox.write_on(key);
    }

    /// Takes the next connection out of the queue of those that are to be served.
    fn next_queued(&mut self) -> Option<usize>
        ensures { self.new ≡ self.old }
    {
        let sockets = &mut self.sockets;
        sockets.outbox.next_queued()
    }

    /// Begins the question of a message that came by the connection under a key, at the last moment of the clock.
    fn begin<D: Numbered, C: Clock, G: Rng>(
        &mut self,
        desk: &mut D,
        questions: &mut Questions<D, C, G, R, S>,
        client: TcpClient<S>,
        octets: &[u8],
    )
        requires { octets.now ≡ client.message.value }
        ensures ends { BeginsClient S.reads S.writes S.drained client questions.old self.old questions.new self.new }
        ensures reported { self.new.reported ≡ self.old.reported }
    {
        let now = self.clock.last_millis();
        self.taken = self.taken.saturating_add(1);
        self.sockets.tally.take();
        if octets.len() > MOST_DATAGRAM && is_dear(octets) && wants_reply(octets) {
            self.sockets.refuse_dear(client, octets);
        } else {
            questions.begin(desk, &mut self.sockets, now, client, octets);
        }
        self.sockets.tally.count_hit_or_miss();
    }

    /// Takes the next message of a connection, if one has come, and begins its question. Returns whether more may be there.
    fn take_message<D: Numbered, C: Clock, G: Rng>(
        &mut self,
        desk: &mut D,
        questions: &mut Questions<D, C, G, R, S>,
        key: usize,
    ) -> bool
        ensures goes_on { StreamGoesOn S.reads S.writes S.drained questions.old self.old questions.new self.new }
        ensures reported { self.new.reported ≡ self.old.reported }
    {
        let sockets = &mut self.sockets;
        match sockets.outbox.take_message(key) {
            TakenMessage::Nothing => false,
            TakenMessage::More => true,
            TakenMessage::Message(serial, network, message) => {
                let client = TcpClient::new(key, serial, network, &message, desk);
                self.begin(desk, questions, client, message.as_slice());
                true
            }
        }
    }

    /// Serves a connection: writes what it is owed, and takes messages of it, but no more than a turn may.
    fn serve<D: Numbered, C: Clock, G: Rng>(
        &mut self,
        desk: &mut D,
        questions: &mut Questions<D, C, G, R, S>,
        key: usize,
    )
        ensures goes_on { StreamGoesOn S.reads S.writes S.drained questions.old self.old questions.new self.new }
        ensures reported { self.new.reported ≡ self.old.reported }
    {
        self.write_on(key);
        for _ in 0..MOST_READS {
            if !self.take_message(desk, questions, key) {
                return;
            }
        }
        self.queue(key);
    }

    /// Serves the connections that are in the queue by now, each once, but no more than a turn may.
    fn serve_queued<D: Numbered, C: Clock, G: Rng>(
        &mut self,
        desk: &mut D,
        questions: &mut Questions<D, C, G, R, S>,
    )
        ensures goes_on { StreamGoesOn S.reads S.writes S.drained questions.old self.old questions.new self.new }
        ensures reported { self.new.reported ≡ self.old.reported }
    {
        for _ in 0..self.sockets.outbox.queued().min(MOST_SERVED) {
            let Some(key) = self.next_queued() else {
                return;
            };
            let _ = self.set_now();
            self.serve(desk, questions, key);
        }
    }

    /// Accepts one connection. Returns whether more may be there.
    fn accept(&mut self) -> io::Result<bool>
        ensures tends { Tends S.reads S.writes self.old.connections self.new.connections }
        ensures kept { self.new ≡ record self.old { connections = self.new.connections } }
    {
        match self.listener.accept_client() {
            Ok((stream, peer)) => {
                self.sockets.begin_connection(stream, peer);
                Ok(true)
            }
            Err(error) => Ok(!would_wait(error)?),
        }
    }

    /// Accepts the connections that are there, but no more than a turn may.
    fn accept_each(&mut self, now: u64) -> io::Result<()>
        ensures tends { Tends S.reads S.writes self.old.connections self.new.connections }
        ensures kept { self.new ≡ record self.old { connections = self.new.connections } }
    {
        if now < self.rests_until {
            return Ok(());
        }
        for _ in 0..MOST_ACCEPTED {
            if !self.may_accept {
                return Ok(());
            }
            match self.accept() {
                Ok(more) => self.may_accept = more,
                Err(error) => {
                    self.rests_until = now.saturating_add(REST);
                    return Err(error);
                }
            }
        }
        Ok(())
    }

    /// Ends the connections whose time is up, if it is time to look for them.
    fn end_overdue(&mut self, now: u64)
        ensures tends { Tends S.reads S.writes self.old.connections self.new.connections }
        ensures kept { self.new ≡ record self.old { connections = self.new.connections } }
    {
        if now < self.next_look {
            return;
        }
        self.next_look = now.saturating_add(LOOK_EVERY);
        let sockets = &mut self.sockets;
        sockets.outbox.expire();
    }

    /// Listens to the exchanges that the poll reported.
    fn look<D: Numbered, C: Clock, G: Rng>(
        &mut self,
        desk: &mut D,
        questions: &mut Questions<D, C, G, R, S>,
    )
        ensures goes_on { StreamGoesOn S.reads S.writes S.drained questions.old self.old questions.new self.new }
        ensures looked { AllLookedAt self.old.reported questions.old self.old.counts questions.new self.new.counts }
        ensures reported { self.new.reported ≡ self.old.reported }
    {
        look_all(
            &self.events,
            &mut self.sockets,
            &mut self.clock,
            desk,
            questions,
        );
    }

    /// Ends each exchange that is overdue. Then questions whose exchanges wait for a permit begin anew.
    fn expire<D: Numbered, C: Clock, G: Rng>(
        &mut self,
        desk: &mut D,
        questions: &mut Questions<D, C, G, R, S>,
    )
        ensures goes_on { StreamGoesOn S.reads S.writes S.drained questions.old self.old questions.new self.new }
        ensures patient { IsPatient PATIENCE (millis_at self.new.clock.last) questions.new }
        ensures timely { IsTimely QUESTION_PATIENCE (millis_at self.new.clock.last) questions.new }
        ensures early { EndOverdue (millis_at self.new.clock.last) questions.old questions.new }
        ensures reported { self.new.reported ≡ self.old.reported }
    {
        let now = self.set_now();
        questions.expire(desk, &mut self.sockets, now);
        begin_anew(&mut self.sockets, desk, questions, now);
    }

    /// Ends the questions that keep most, one after another, until all that wait keep at most `MOST_AT_REST`.
    fn relieve<D: Numbered, C: Clock, G: Rng>(&mut self, questions: &mut Questions<D, C, G, R, S>)
        ensures goes_on { StreamGoesOn S.reads S.writes S.drained questions.old self.old questions.new self.new }
        ensures clock { self.new.clock ≡ self.old.clock }
        ensures relieved { kept_all questions.new ≤ MOST_AT_REST }
        ensures relieves { Relieves MOST_AT_REST questions.old questions.new }
        ensures others { AllGoOn questions.old questions.new }
        ensures reported { self.new.reported ≡ self.old.reported }
    {
        questions.relieve(&mut self.sockets);
    }

    /// Goes on with the questions that wait: listens to their exchanges, ends those that are overdue, begins those anew for which a
    /// permit is free, and then ends the questions that keep too much.
    fn go_on<D: Numbered, C: Clock, G: Rng>(
        &mut self,
        desk: &mut D,
        questions: &mut Questions<D, C, G, R, S>,
    )
        ensures goes_on { StreamGoesOn S.reads S.writes S.drained questions.old self.old questions.new self.new }
        ensures patient { IsPatient PATIENCE (millis_at self.new.clock.last) questions.new }
        ensures timely { IsTimely QUESTION_PATIENCE (millis_at self.new.clock.last) questions.new }
        ensures looks { LooksAtAllBy self.old.reported self.new.clock
            questions.old self.old.counts questions.new self.new.counts }
        ensures reported { self.new.reported ≡ self.old.reported }
    {
        self.look(desk, questions);
        self.expire(desk, questions);
        self.relieve(questions);
    }

    /// Notes which connections the poll reported, and whether connections may be there to be accepted.
    fn note(&mut self)
        ensures { self.new ≡ self.old }
    {
        if note_events(&self.events, &mut self.sockets) {
            self.may_accept = true;
        }
    }

    /// Tends the connections: ends those whose time is up, and accepts those that are there.
    fn tend(&mut self) -> io::Result<()>
        ensures tends { Tends S.reads S.writes self.old.connections self.new.connections }
        ensures taken { self.new.taken ≡ self.old.taken }
        ensures counts { self.new.counts ≡ self.old.counts }
        ensures failures { self.new.failures ≡ self.old.failures }
        ensures asks { self.new.asking ≡ self.old.asking }
        ensures onward { self.old.clock.last ≤ self.new.clock.last }
        ensures reported { self.new.reported ≡ self.old.reported }
    {
        self.note();
        let now = self.set_now();
        self.end_overdue(now);
        self.accept_each(now)
    }

    /// Waits for events. It does not wait if connections are in the queue, or are to be accepted.
    fn wait<D: Numbered, C: Clock, G: Rng>(
        &mut self,
        questions: &Questions<D, C, G, R, S>,
    ) -> io::Result<()>
        ensures taken { self.new.taken ≡ self.old.taken }
        ensures counts { self.new.counts ≡ self.old.counts }
        ensures connections { self.new.connections ≡ self.old.connections }
        ensures failures { self.new.failures ≡ self.old.failures }
        ensures asks { self.new.asking ≡ self.old.asking }
        ensures onward { self.old.clock.last ≤ self.new.clock.last }
    {
        let now = self.clock.millis();
        let accepts = self.may_accept && now >= self.rests_until;
        let most = if accepts || self.sockets.outbox.queued() > 0 {
            Duration::ZERO
        } else {
            self.sockets
                .most_wait()
                .min(Duration::from_millis(LOOK_EVERY))
        };
        let wait = patience(&mut self.clock, questions, most);
        self.sockets.wait(&mut self.events, wait)
    }

    /// Waits for events, and handles them.
    pub fn turn<D: Numbered, C: Clock, G: Rng>(
        &mut self,
        desk: &mut D,
        questions: &mut Questions<D, C, G, R, S>,
    ) -> io::Result<TcpTurnTaken>
        ensures goes_on { StreamGoesOn S.reads S.writes S.drained questions.old self.old questions.new self.new }
        ensures overdue { OnOk result (StreamEndsOverdue S.reads S.writes S.drained questions.old self.old questions.new self.new) }
    {
        self.wait(questions)?;
        self.go_on(desk, questions);
        let tended = self.tend();
        self.serve_queued(desk, questions);
        tended?;
        Ok(TcpTurnTaken { made: () })
    }
}

/// Puts the connections that events name into the queue. Returns whether connections may be there to be accepted.
fn note_events<R: Log, S: ClientStream>(
    events: &Events,
    sockets: &mut WorkerSockets<'_, R, R, TcpFront<S>>,
) -> bool
    ensures connections { sockets.new.outbox ≡ sockets.old.outbox }
    ensures counts { sockets.new.counts ≡ sockets.old.counts }
    ensures asks { asking_of sockets.new ≡ asking_of sockets.old }
{
    let mut may_accept = false;
    for event in events.iter() {
        let token = event.token();
        if token == SERVICE {
            may_accept = true;
        } else if let Some(key) = key_of(token) {
            sockets.outbox.queue(key);
        }
    }
    may_accept
}
