//! The questions of one worker that are in flight.

ghost use Rattle.std.specs.Prelude.{◌≡◌, ◌⊎◌, ◌<◌, ◌≤◌, ◌+◌, None, IfSome};
ghost use Rattle.system.specs.Counts.{Rises};
ghost use Rattle.flight.specs.Asking.{SettlesOctets};
ghost use Rattle.flight.specs.Bounds.{AllGoOn, EachIsSmall, EndsLargest, Relieves, kept_all};
ghost use Rattle.flight.specs.Clients.{LosesNone, LosesNoneAtAnyTime};
ghost use Rattle.flight.specs.FirstLook.{HeedsLookOf, ListensAt, ListensToEach};
ghost use Rattle.flight.specs.Waiting.{EarlyGoOn, IsPatient, IsPatientUntil, IsTimely, OthersGoOn};
ghost use Rattle.flight.specs.Waiting.{outstanding, since_at, time_left};

use crate::in_flight::InFlight;
use crate::job::Job;
use crate::kept::{MOST_ALL_KEPT, MOST_AT_REST};
use crate::numbered::Numbered;
use crate::refused::{HeardOrRefused, hear, read_question};
use crate::reply::ReplyOctets;
use crate::sockets::{Client, Sockets};
use crate::table::{Cause, PATIENCE, QUESTION_PATIENCE, Table};
use crate::telling::{fault_of, give_up};
use clock::Clock;
use dns_wire::{Asked, one_verdict};
use rand_core::Rng;
use std::alloc::Global;
use std::marker::Model;

/// The questions of one worker that are in flight. Contracts see the exchanges that clients wait for, and when each began.
#[derive(Drop)]
pub struct Flight<D: Numbered, L: InFlight, C: Clock, G: Rng, K: Client> {
    pub(crate) alloc: Global,
    pub(crate) clock: C,
    /// Draws the identifiers of queries.
    pub(crate) ids: G,
    pub(crate) table: Table<D, L, C, G, K>,
}

impl<D: Numbered, L: InFlight, C: Clock, G: Rng, K: Client> Model for Flight<D, L, C, G, K> {
    ghost use Rattle.std.specs.Prelude.{map};
    ghost use Rattle.flight.specs.Waiting.{FlightState};

    ghost Value = { FlightState };

    ghost view = { λ f. record {
      exchanges = f.table.jobs.slots;
      begun = map (λ wait. wait.since) f.table.waits.items;
      latest = f.table.latest;
      limit = f.table.limit;
      tried = f.table.tried;
    } };
}

impl<D: Numbered, L: InFlight, C: Clock, G: Rng, K: Client> Flight<D, L, C, G, K> {
    /// The number of exchanges under way. One client waits for each.
    pub fn outstanding(&self) -> usize
        ensures { result ≡ outstanding self.now }
    {
        self.table.jobs.len()
    }

    /// The octets that the steps of all questions keep which wait, together. Each keeps at most `MOST_KEPT`.
    pub fn kept(&self) -> usize
        ensures sum { result ≡ kept_all self.now }
        ensures most { result ≤ MOST_ALL_KEPT }
        ensures each { EachIsSmall self.now.exchanges }
    {
        self.table.kept()
    }

    /// The milliseconds until `expire` has something to do: the time that the oldest exchange has left. That exchange may have
    /// ended since. Returns `None` only if no exchange is under way.
    pub fn next_expiry(&self, now: u64) -> Option<u64>
        ensures first { result ≡ time_left PATIENCE now self.now.begun }
        ensures idle { result ≡ None → outstanding self.now ≡ 0 }
        ensures soon { IfSome result (λ left. (left ≡ 0) ⊎ IsPatientUntil PATIENCE (now + left) self.now) }
    {
        self.table.next_expiry(now)
    }

    /// Takes the octets of a client. The client gets its reply at once, or waits for an exchange. `now` is in milliseconds.
    pub fn begin<O: Sockets<D, L, C, K>>(
        &mut self,
        desk: &mut D,
        sockets: &mut O,
        now: u64,
        client: K,
        octets: &[u8],
    )
        requires own { K.sent client octets.now }
        ensures settles { SettlesOctets K.Client O.Sockets now client octets.now self.old sockets.old self.new sockets.new }

        // What the first lookup of its question settles is settled at once, and silence is kept.
        ensures heeds { HeedsLookOf D.calls O.outbox octets.now desk.old self.old sockets.old desk.new self.new sockets.new }
    {
        one_verdict();
        let asked = match read_question(self.alloc, octets) {
            Ok(asked) => asked,
            Err(refused) => {
                sockets.fail(Cause::no_memory(refused, client), octets);
                return;
            }
        };
        match asked {
            Asked::Drop => sockets.pass_over(client, octets),
            Asked::Fault(rcode) => {
                let reply = ReplyOctets::Header(fault_of(octets, rcode));
                sockets.give(client, octets, reply);
            }
            Asked::Good(query) => {
                let began = self.table.since(now);
                self.begin_query(desk, sockets, now, client, octets, query, began);
            }
        }
    }

    /// Listens to the exchange under a key, and ends it if something came. Readiness events are only hints: nothing may have
    /// come yet, and the key may name no exchange.
    pub fn look<O: Sockets<D, L, C, K>>(
        &mut self,
        desk: &mut D,
        sockets: &mut O,
        now: u64,
        key: usize,
    )
        ensures listens { IfSome (since_at self.old key) (λ _. Rises (O.counts sockets.old).listened (O.counts sockets.new).listened) }
        ensures hint { since_at self.old key ≡ None → (self.new ≡ self.old) × (sockets.new ≡ sockets.old) }
        ensures others { OthersGoOn key self.old self.new }
        ensures unexpired { (O.counts sockets.new).expired ≡ (O.counts sockets.old).expired }
        ensures loses_none { LosesNone K.sent O.server_port O.counts O.outbox O.posts now self.old sockets.old self.new sockets.new }

        // A question that begins anew heeds its first lookup: if that shows silence, nothing leaves.
        ensures anew { ListensAt D.calls O.listens O.outbox key desk.old self.old sockets.old desk.new self.new sockets.new }
    {
        let Some(job) = self.table.take(key) else {
            return;
        };
        let Job {
            asking,
            octets,
            mut line,
            since,
            kept,
            desk: of,
            clock,
        } = job;
        match hear::<D, L, C, K, O>(sockets, &mut line) {
            HeardOrRefused::Nothing => self.table.put_back(Job {
                asking,
                octets,
                line,
                since,
                kept,
                desk: of,
                clock,
            }),
            heard => {
                drop(line);
                self.go_on(desk, sockets, now, asking, octets, heard);
            }
        }
    }

    /// Ends each exchange that has taken `PATIENCE` milliseconds. A reply that is there by now is still used. No question that
    /// began `QUESTION_PATIENCE` milliseconds ago waits then.
    pub fn expire<O: Sockets<D, L, C, K>>(&mut self, desk: &mut D, sockets: &mut O, now: u64)
        ensures patient { IsPatient PATIENCE now self.new }
        ensures timely { IsTimely QUESTION_PATIENCE now self.new }
        ensures early { EarlyGoOn PATIENCE now self.old self.new }
        ensures loses_none { LosesNone K.sent O.server_port O.counts O.outbox O.posts now self.old sockets.old self.new sockets.new }

        // So does each question here that begins anew.
        ensures anew { ListensToEach D.calls O.listens O.outbox desk.old self.old sockets.old desk.new self.new sockets.new }
    {
        while let Some(wait) = self.table.next_due(now) {
            if let Some(job) = self.table.pass(wait, now) {
                self.end(desk, sockets, now, job);
            }
        }
    }

    /// Ends the question that keeps most in memory, one after another, until all that wait keep at most `MOST_AT_REST` octets. The
    /// clients get SERVFAIL.
    pub fn relieve<O: Sockets<D, L, C, K>>(&mut self, sockets: &mut O)
        ensures relieved { kept_all self.new ≤ MOST_AT_REST }
        ensures relieves { Relieves MOST_AT_REST self.old self.new }
        ensures go_on { AllGoOn self.old self.new }
        ensures loses_none { LosesNoneAtAnyTime K.sent O.server_port O.counts O.outbox O.posts
            self.old sockets.old self.new sockets.new }
        ensures unheard { (O.counts sockets.new).listened ≡ (O.counts sockets.old).listened }
        ensures unexpired { (O.counts sockets.new).expired ≡ (O.counts sockets.old).expired }
    {
        while self.kept() > MOST_AT_REST {
            self.end_largest(sockets);
        }
    }

    /// Ends the question that keeps most.
    fn end_largest<O: Sockets<D, L, C, K>>(&mut self, sockets: &mut O)
        requires { MOST_AT_REST < kept_all self.old }
        ensures largest { EndsLargest self.old self.new }
        ensures fewer { outstanding self.new + 1 ≡ outstanding self.old }
        ensures loses_none { LosesNoneAtAnyTime K.sent O.server_port O.counts O.outbox O.posts
            self.old sockets.old self.new sockets.new }
        ensures unheard { (O.counts sockets.new).listened ≡ (O.counts sockets.old).listened }
        ensures unexpired { (O.counts sockets.new).expired ≡ (O.counts sockets.old).expired }
    {
        let key = self.table.largest();
        let Some(job) = self.table.take(key) else {
            unreachable!()
        };
        give_up::<D, L, C, G, K, O>(&self.table, sockets, job);
    }
}
