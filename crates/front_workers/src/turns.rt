//! The turns of a worker. In each it waits, goes on with its exchanges, and takes datagrams.

ghost use Rattle.std.specs.Prelude.{◌≡◌, ◌≤◌, [], false, max, IfOk, OnErr, OnOk};
ghost use Rattle.std.specs.Duration.{as_nanos};
ghost use Rattle.system.specs.Counts.{Rises};
ghost use Rattle.mio.specs.Events.{items};
ghost use Rattle.clock.specs.Moments.{millis_at, IsRead};
ghost use Rattle.flight.specs.declared.kept.TheConstants.{MOST_AT_REST};
ghost use Rattle.flight.specs.declared.table.TheConstants.{PATIENCE, QUESTION_PATIENCE};
ghost use Rattle.flight.specs.Bounds.{AllGoOn, Relieves, kept_all};
ghost use Rattle.flight.specs.Waiting.{IsPatient, IsTimely, JoinsNone, outstanding, time_left};
ghost use Rattle.front_workers.specs.Accounts.{GoesOn, KeepsTime, fresh_worker};
ghost use Rattle.front_workers.specs.Asking.{asking_at};
ghost use Rattle.front_workers.specs.Sockets.{QuestionsGoOnBy};
ghost use Rattle.front_workers.specs.Begun.{AllBegin, BatchBegins, IsBegun, Runs, TakesNone};
ghost use Rattle.front.specs.Batch.{batch_of};
ghost use Rattle.front_workers.specs.Looked.{AllLookedAt, EndOverdue, LooksAtAllBy};
ghost use Rattle.front_workers.specs.Patience.{AreRead, EndsOverdue, IsReadOn, NoneOverdue, patience_of};
ghost use Rattle.front.specs.Taken.{IsQuery};

use crate::asking::AskingTerms;
use crate::table_seed::TableSeed;
use crate::tally::Tally;
use crate::worker_sockets::WorkerSockets;
use clock::{Clock, Elapsing, MonotonicClock};
use dns_text::NoMemory;
use flight::{Client, Flight, Numbered};
use front::{
    Arrival, BATCH, Inbox, InboxSlot, Outbox, ReplySender, SERVICE, ServiceSocket, UdpClient,
    UdpListener,
};
use log::Log;
use mio::Events;
use outside::{PermittedNet, ReadyNet, SocketLine};
use rand_core::Rng;
use std::alloc::Global;
use std::io;
use std::marker::Model;
use std::sync::Wait;
use std::time::{Duration, Instant};

/// The most datagrams that are taken in one turn.
const MOST_TAKEN: usize = 256;

/// The time for taking datagrams in one turn, in milliseconds. The batch in progress may overrun it.
const MOST_TAKING: u64 = 10;

/// The most events that are handled in one turn, so that a datagram does not wait after many replies.
const MOST_READY: usize = 16;

/// The most questions that begin anew in one turn, since a permit is free. Most of them are settled by what an equal question cached.
const MOST_ANEW: usize = 64;

/// The questions of a worker that are in flight.
pub(crate) type Questions<D, C, G, R, S> = Flight<D, SocketLine<R>, C, G, UdpClient<S>>;

/// A turn that did not fail. Only `Turns::turn` makes one, so whoever has one took a turn.
#[derive(Drop)]
pub(crate) struct TurnTaken {
    more: bool,
}

impl TurnTaken {
    /// Whether more datagrams may be there.
    pub fn has_more(&self) -> bool
        ensures { result ≡ self.now.more }
    {
        self.more
    }
}

/// The state of a worker between its turns. Contracts see how it asks name servers, its counters, its clock, what its poll reported
/// last, the socket of the service, and the replies that wait to be sent by it.
#[derive(Drop)]
pub(crate) struct Turns<'a, R, S: ServiceSocket> {
    sockets: WorkerSockets<'a, R, R, Outbox<S>>,
    clock: MonotonicClock<'a, R>,
    events: Events,
    taken: u64,
    failures: u64,
}

impl<'a, R, S: ServiceSocket> Model for Turns<'a, R, S> {
    ghost use Rattle.mio.specs.Events.{items};
    ghost use Rattle.front_workers.specs.Accounts.{WorkerState};
    ghost use Rattle.front_workers.specs.Sockets.{asking_of};

    ghost Value = { WorkerState S };

    ghost view = { λ turns. record {
      asking = asking_of turns.sockets;
      taken = turns.taken;
      failures = turns.failures;
      outbox = turns.sockets.outbox;
      counts = turns.sockets.counts;
      clock = turns.clock;
      reported = items turns.events;
    } };
}

impl<'a, R: ReadyNet + Log + Elapsing + Wait, S: ServiceSocket> Turns<'a, R, S> {
    /// Takes datagrams at a listener. Exchanges are timed from `start` on. What it does is counted in a tally.
    pub fn new(
        rt: &'a R,
        tally: &'a Tally,
        alloc: Global,
        listener: UdpListener<S>,
        asking: AskingTerms<'a>,
        seed: TableSeed,
        start: Instant,
    ) -> Result<Turns<'a, R, S>, NoMemory>
        ensures { IfOk result (λ turns. turns ≡ fresh_worker listener.socket (asking_at listener.place asking.entry) start) }
    {
        let UdpListener {
            poll,
            socket,
            place,
        } = listener;
        Ok(Turns {
            sockets: WorkerSockets::new(
                rt,
                PermittedNet::new(rt),
                tally,
                alloc,
                poll,
                place,
                Outbox::new(alloc, socket),
                asking,
                seed,
            )?,
            clock: MonotonicClock::new(rt, start),
            events: Events::with_capacity(alloc, MOST_READY)?,
            taken: 0,
            failures: 0,
        })
    }

    /// Counts a query that was taken.
    fn count_taken(&mut self)
        ensures taken { Rises self.old.taken self.new.taken }
        ensures clock { self.new.clock ≡ self.old.clock }
        ensures reported { self.new.reported ≡ self.old.reported }
        ensures counts { self.new.counts ≡ self.old.counts }
        ensures outbox { self.new.outbox ≡ self.old.outbox }
        ensures failures { self.new.failures ≡ self.old.failures }
        ensures asks { self.new.asking ≡ self.old.asking }
    {
        self.taken = self.taken.saturating_add(1);
    }

    /// Counts a turn that failed.
    pub fn count_failure(&mut self)
        ensures failures { Rises self.old.failures self.new.failures }
        ensures taken { self.new.taken ≡ self.old.taken }
        ensures counts { self.new.counts ≡ self.old.counts }
        ensures outbox { self.new.outbox ≡ self.old.outbox }
        ensures clock { self.new.clock ≡ self.old.clock }
        ensures asks { self.new.asking ≡ self.old.asking }
    {
        self.failures = self.failures.saturating_add(1);
    }

    /// Begins the question of a datagram, at the last moment of the clock.
    fn begin<D: Numbered, C: Clock, G: Rng>(
        &mut self,
        desk: &mut D,
        questions: &mut Questions<D, C, G, R, S>,
        slot: &InboxSlot<S>,
    )
        ensures begun { IsQuery slot.now.came → Rises self.old.taken self.new.taken }
        ensures goes_on { GoesOn S.takes S.sends questions.old self.old questions.new self.new }
        ensures just { IsBegun S.takes S.sends (D.seen desk.old) slot.now.came slot.now.room questions.old self.old questions.new self.new }
        ensures reported { self.new.reported ≡ self.old.reported }
    {
        match slot.taken(desk) {
            Arrival::Passed => {}
            Arrival::TooLong(peer) => self.sockets.refuse(peer, &slot.room),
            Arrival::Query(client) => {
                let octets = &slot.room[..client.count()];
                let now = self.clock.last_millis();
                self.count_taken();
                self.sockets.tally.take();
                questions.begin(desk, &mut self.sockets, now, client, octets);
                self.sockets.tally.count_hit_or_miss();
            }
        }
    }

    /// Begins the question of each datagram.
    fn begin_each<D: Numbered, C: Clock, G: Rng>(
        &mut self,
        desk: &mut D,
        questions: &mut Questions<D, C, G, R, S>,
        inbox: &Inbox<S>,
    )
        ensures goes_on { GoesOn S.takes S.sends questions.old self.old questions.new self.new }
        ensures begin { AllBegin S.takes S.sends (batch_of inbox.now) questions.old self.old questions.new self.new }
        ensures reported { self.new.reported ≡ self.old.reported }
    {
        for slot in inbox.datagrams() {
            self.begin(desk, questions, slot);
        }
    }

    /// Takes a batch of datagrams, which the inbox then has, begins their questions, and sends the replies that are ready. Returns
    /// whether more datagrams may be there: if any came, others may have followed while those were answered.
    fn take_batch<D: Numbered, C: Clock, G: Rng>(
        &mut self,
        desk: &mut D,
        questions: &mut Questions<D, C, G, R, S>,
        inbox: &mut Inbox<S>,
    ) -> io::Result<bool>
        ensures drained { IfOk result (λ more. more ≡ false → S.drained) }
        ensures failed { OnErr result S.failed }
        ensures goes_on { GoesOn S.takes S.sends questions.old self.old questions.new self.new }
        ensures sent { self.new.outbox.waiting ≡ [] }
        ensures begun { BatchBegins S.takes S.sends (batch_of inbox.new) questions.old self.old questions.new self.new }
        ensures reported { self.new.reported ≡ self.old.reported }
    {
        inbox.clear();
        let received = self.sockets.receive(inbox);
        let took = !inbox.datagrams().is_empty();
        self.sockets.set_now(&self.clock);
        self.begin_each(desk, questions, inbox);
        self.sockets.flush();
        Ok(received? || took)
    }

    /// Takes the datagrams that are there, batch by batch, but no more than a turn may. Returns whether more may be there.
    fn take_datagrams<D: Numbered, C: Clock, G: Rng>(
        &mut self,
        desk: &mut D,
        questions: &mut Questions<D, C, G, R, S>,
        inbox: &mut Inbox<S>,
    ) -> io::Result<bool>
        ensures drained { IfOk result (λ more. more ≡ false → S.drained) }
        ensures failed { OnErr result S.failed }
        ensures goes_on { GoesOn S.takes S.sends questions.old self.old questions.new self.new }
        ensures sent { self.old.outbox.waiting ≡ [] → self.new.outbox.waiting ≡ [] }
        ensures runs { Runs S.takes S.sends questions.old self.old questions.new self.new }
        ensures reported { self.new.reported ≡ self.old.reported }
    {
        let begun = self.clock.millis();
        for _ in 0..MOST_TAKEN / BATCH {
            if !self.take_batch(desk, questions, inbox)? {
                return Ok(false);
            }
            let now = self.clock.millis();
            if now.saturating_sub(begun) >= MOST_TAKING {
                return Ok(true);
            }
        }
        Ok(true)
    }

    /// Ends each exchange that is overdue, at a reading of the clock. Then questions whose exchanges wait for a permit begin anew.
    fn expire<D: Numbered, C: Clock, G: Rng>(
        &mut self,
        desk: &mut D,
        questions: &mut Questions<D, C, G, R, S>,
    )
        ensures goes_on { GoesOn S.takes S.sends questions.old self.old questions.new self.new }
        ensures no_more { outstanding questions.new ≤ outstanding questions.old }
        ensures takes_none { TakesNone S.takes S.sends questions.old self.old questions.new self.new }
        ensures read { IsRead R.passed self.old.clock self.new.clock }
        ensures patient { IsPatient PATIENCE (millis_at self.new.clock.last) questions.new }
        ensures timely { IsTimely QUESTION_PATIENCE (millis_at self.new.clock.last) questions.new }
        ensures early { EndOverdue (millis_at self.new.clock.last) questions.old questions.new }
        ensures reported { self.new.reported ≡ self.old.reported }
    {
        let now = self.clock.millis();
        self.sockets.set_now(&self.clock);
        questions.expire(desk, &mut self.sockets, now);
        begin_anew(&mut self.sockets, desk, questions, now);
    }

    /// Ends the questions that keep most, one after another, until all that wait keep at most `MOST_AT_REST`.
    fn relieve<D: Numbered, C: Clock, G: Rng>(&mut self, questions: &mut Questions<D, C, G, R, S>)
        ensures goes_on { GoesOn S.takes S.sends questions.old self.old questions.new self.new }
        ensures no_more { outstanding questions.new ≤ outstanding questions.old }
        ensures takes_none { TakesNone S.takes S.sends questions.old self.old questions.new self.new }
        ensures clock { self.new.clock ≡ self.old.clock }
        ensures relieved { kept_all questions.new ≤ MOST_AT_REST }
        ensures relieves { Relieves MOST_AT_REST questions.old questions.new }
        ensures others { AllGoOn questions.old questions.new }
        ensures reported { self.new.reported ≡ self.old.reported }
    {
        questions.relieve(&mut self.sockets);
    }

    /// Goes on with the questions that wait: listens to their exchanges, ends those that are overdue, begins those anew for which a
    /// permit is free, and then ends the questions that keep too much.
    fn go_on<D: Numbered, C: Clock, G: Rng>(
        &mut self,
        desk: &mut D,
        questions: &mut Questions<D, C, G, R, S>,
    )
        ensures goes_on { GoesOn S.takes S.sends questions.old self.old questions.new self.new }
        ensures no_more { outstanding questions.new ≤ outstanding questions.old }
        ensures sent { self.new.outbox.waiting ≡ [] }
        ensures takes_none { TakesNone S.takes S.sends questions.old self.old questions.new self.new }
        ensures read { IsReadOn R.passed self.old.clock self.new.clock }
        ensures in_time { NoneOverdue self.new.clock questions.new }
        ensures looks { LooksAtAllBy self.old.reported self.new.clock
            questions.old self.old.counts questions.new self.new.counts }
        ensures reported { self.new.reported ≡ self.old.reported }
    {
        look_all(
            &self.events,
            &mut self.sockets,
            &mut self.clock,
            desk,
            questions,
        );
        self.expire(desk, questions);
        self.relieve(questions);
        self.sockets.flush();
    }

    /// Waits for events. It does not wait if the last turn left datagrams.
    fn wait<D: Numbered, C: Clock, G: Rng>(
        &mut self,
        questions: &Questions<D, C, G, R, S>,
        were_left: bool,
    ) -> io::Result<()>
        ensures read { AreRead R.passed self.old.clock self.new.clock }
        ensures taken { self.new.taken ≡ self.old.taken }
        ensures counts { self.new.counts ≡ self.old.counts }
        ensures outbox { self.new.outbox ≡ self.old.outbox }
        ensures failures { self.new.failures ≡ self.old.failures }
        ensures asks { self.new.asking ≡ self.old.asking }
    {
        let wait = if were_left {
            Duration::ZERO
        } else {
            patience(&mut self.clock, questions, self.sockets.most_wait())
        };
        self.sockets.wait(&mut self.events, wait)
    }

    /// Waits for events, and handles them. It does not wait if the last turn left datagrams.
    pub fn turn<D: Numbered, C: Clock, G: Rng>(
        &mut self,
        desk: &mut D,
        questions: &mut Questions<D, C, G, R, S>,
        inbox: &mut Inbox<S>,
        were_left: bool,
    ) -> io::Result<TurnTaken>
        ensures drained { IfOk result (λ turned. turned.more ≡ false → S.drained) }
        ensures goes_on { GoesOn S.takes S.sends questions.old self.old questions.new self.new }
        ensures sent { self.old.outbox.waiting ≡ [] → self.new.outbox.waiting ≡ [] }
        ensures runs { Runs S.takes S.sends questions.old self.old questions.new self.new }
        ensures overdue { OnOk result (EndsOverdue R.passed S.takes S.sends questions.old self.old questions.new self.new) }
    {
        self.wait(questions, were_left)?;
        self.go_on(desk, questions);
        // The event of the service's socket may come after those of many replies.
        let more = self.take_datagrams(desk, questions, inbox)?;
        Ok(TurnTaken { more })
    }
}

/// The time that the next wait may take: at most `most`, and at most until an exchange is overdue.
#[tactic(auto, using(crate::proofs::Durations::shorter_nanos))]
pub(crate) fn patience<D: Numbered, C: Clock, G: Rng, R: ReadyNet + Elapsing, K: Client>(
    clock: &mut MonotonicClock<'_, R>,
    questions: &Flight<D, SocketLine<R>, C, G, K>,
    most: Duration,
) -> Duration
    ensures read { IsRead R.passed clock.old clock.new }
    ensures patience { as_nanos result ≡ patience_of (as_nanos most) (time_left PATIENCE (millis_at clock.new.last) questions.now.begun) }
{
    let now = clock.millis();
    match questions.next_expiry(now) {
        Some(left) => most.min(Duration::from_millis(left)),
        None => most,
    }
}

/// Listens to the exchanges that events name.
pub(crate) fn look_all<
    D: Numbered,
    C: Clock,
    G: Rng,
    R: ReadyNet + Log + Elapsing + Wait,
    K: Client,
    B: ReplySender<K>,
>(
    events: &Events,
    sockets: &mut WorkerSockets<'_, R, R, B>,
    clock: &mut MonotonicClock<'_, R>,
    desk: &mut D,
    questions: &mut Flight<D, SocketLine<R>, C, G, K>,
)
    ensures go_on { QuestionsGoOnBy K.sent B.posts questions.old sockets.old questions.new sockets.new }
    ensures in_time { sockets.new.counts.expired ≡ sockets.old.counts.expired }
    ensures read { AreRead R.passed clock.old clock.new }
    ensures looked { AllLookedAt (items events.now) questions.old sockets.old.counts questions.new sockets.new.counts }
    ensures time { KeepsTime clock.old questions.old clock.new questions.new }
{
    for event in events.iter() {
        let token = event.token();
        if token != SERVICE {
            let now = clock.millis();
            sockets.set_now(clock);
            questions.look(desk, sockets, now, token.0);
        }
    }
}

/// Begins questions anew whose exchanges wait for a permit that is free by now.
pub(crate) fn begin_anew<
    D: Numbered,
    C: Clock,
    G: Rng,
    R: ReadyNet + Log + Wait,
    K: Client,
    B: ReplySender<K>,
>(
    sockets: &mut WorkerSockets<'_, R, R, B>,
    desk: &mut D,
    questions: &mut Flight<D, SocketLine<R>, C, G, K>,
    now: u64,
)
    requires patient { IsPatient PATIENCE now questions.old }
    requires timely { IsTimely QUESTION_PATIENCE now questions.old }
    ensures go_on { QuestionsGoOnBy K.sent B.posts questions.old sockets.old questions.new sockets.new }
    ensures joins_none { JoinsNone questions.old questions.new }
    ensures patient { IsPatient PATIENCE now questions.new }
    ensures timely { IsTimely QUESTION_PATIENCE now questions.new }
    ensures latest { questions.new.latest ≤ max now questions.old.latest }
{
    for _ in 0..MOST_ANEW {
        let Some(key) = sockets.next_permitted() else {
            return;
        };
        questions.look(desk, sockets, now, key);
    }
}
