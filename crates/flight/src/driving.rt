//! The course of a question from one exchange to the next.

ghost use Rattle.std.specs.Prelude.{◌≡◌, ◌≤◌, ◌+◌, None, IfNone, IfSome, OnSome};
ghost use Rattle.system.specs.Counts.{Rises};
ghost use Rattle.flight.specs.Asking.{AwaitsFor, FliesFor, HasHeardFor, IsAskedBy, SettlesAsking, attempt_of};
ghost use Rattle.flight.specs.Bounds.{IsBounded};
ghost use Rattle.flight.specs.Clients.{EndsWithOneMore};
ghost use Rattle.flight.specs.FirstLook.{HearsOut, HeedsAnew};
ghost use Rattle.flight.specs.Flight.{query_to};
ghost use Rattle.flight.specs.Told.{listened_of, Keeps};
ghost use Rattle.flight.specs.Waiting.{IsAccounted, WaitsFrom, attempted, outstanding};
ghost use Rattle.iterate.specs.declared.want.Want.{Want};

use crate::asking::{Asking, ask_soon};
use crate::engine::Flight;
use crate::in_flight::InFlight;
use crate::job::Job;
use crate::numbered::Numbered;
use crate::refused::{HeardOrRefused, hear};
use crate::sockets::{Client, Sockets};
use crate::table::Cause;
use crate::telling::{conclude, refuse};
use clock::Clock;
use dns_query::Over;
use dns_text::{Addr, Octets, Shared};
use iterate::{Allowance, Input, Want, due_law};
use rand_core::Rng;
use std::marker::PhantomData;

impl<D: Numbered, L: InFlight, C: Clock, G: Rng, K: Client> Flight<D, L, C, G, K> {
    /// Ends the exchange of a question whose time is up. A reply that is there by now is still used.
    pub(crate) fn end<O: Sockets<D, L, C, K>>(
        &mut self,
        desk: &mut D,
        sockets: &mut O,
        now: u64,
        job: Job<D, L, C, G, K>,
    )
        ensures port { O.server_port sockets.new ≡ O.server_port sockets.old }
        ensures ends { EndsWithOneMore K.sent O.posts O.outbox self.old sockets.old self.new sockets.new }
        ensures accounted { IsAccounted 0 (outstanding self.old + 1) (O.counts sockets.old) (outstanding self.new) (O.counts sockets.new) }
        ensures heard { Rises (O.counts sockets.old).listened (O.counts sockets.new).listened }
        ensures waits { WaitsFrom now (λ origin. origin ≡ job.origin) self.old self.new }
        ensures bounded { IsBounded self.old → IsBounded self.new }
        ensures limit { self.new.limit ≡ self.old.limit }
        ensures anew { HearsOut D.calls O.listens O.outbox job desk.old self.old sockets.old desk.new self.new sockets.new }
    {
        let Job {
            asking,
            octets,
            mut line,
            ..
        } = job;
        let heard = hear::<D, L, C, K, O>(sockets, &mut line);
        match &heard {
            HeardOrRefused::Nothing => sockets.expire(line),
            _ => drop(line),
        }
        self.go_on(desk, sockets, now, asking, octets, heard);
    }

    /// Goes on with a question whose exchange ended, by what was heard of it (nothing if its time was up). The desk and the
    /// port must be those with which the question began: a caller that passes others gets SERVFAIL for its client.
    #[tactic(auto, using(crate::proofs::Answering::is_good))]
    pub(crate) fn go_on<O: Sockets<D, L, C, K>>(
        &mut self,
        desk: &mut D,
        sockets: &mut O,
        now: u64,
        asking: Asking<G, K>,
        octets: Octets,
        heard: HeardOrRefused,
    )
        requires asked { IsAskedBy K.sent asking.port octets asking.client asking.query asking.task }
        requires heard { HasHeardFor D.calls D.seen L.hears C.ticks K.since asking (listened_of heard) }
        ensures settles { SettlesAsking K.Client O.Sockets now asking self.old sockets.old self.new sockets.new }

        // A question that begins anew heeds its first lookup.
        ensures anew { HeedsAnew D.calls O.outbox heard asking.query.question
            desk.old self.old sockets.old desk.new self.new sockets.new }
    {
        let input = match heard {
            HeardOrRefused::Came(reply) => {
                let allowance = match asking.task.hunt() {
                    Some(hunt) => sockets.allowance(&hunt.servers.get().zone),
                    None => Allowance::full(),
                };
                Input::Came {
                    octets: reply,
                    allowance,
                }
            }
            HeardOrRefused::Nothing => Input::Failed,
            HeardOrRefused::Broken => Input::Failed,
            HeardOrRefused::NoMemory(refused) => {
                refuse::<D, L, C, G, K, O>(sockets, asking, octets.as_slice(), refused);
                return;
            }
            HeardOrRefused::Anew => {
                self.begin_again(desk, sockets, now, asking, octets.as_slice());
                return;
            }
        };
        if desk.seen() < asking.seen || sockets.server_port() != asking.port {
            let cause = Cause::elsewhere::<D, L, C, G, O>(desk, sockets, asking);
            sockets.fail(cause, octets.as_slice());
            return;
        }
        self.drive(desk, sockets, now, asking, octets.as_slice(), input);
    }

    /// Goes on with a question until it waits for an exchange, or its client is settled.
    pub(crate) fn drive<O: Sockets<D, L, C, K>>(
        &mut self,
        desk: &mut D,
        sockets: &mut O,
        now: u64,
        asking: Asking<G, K>,
        octets: &[u8],
        first: Input,
    )
        requires asked { IsAskedBy K.sent asking.port octets.now asking.client asking.query asking.task }
        requires flies { FliesFor D.calls D.seen L.hears C.ticks K.since asking first }
        requires port { asking.port ≡ O.server_port sockets.old }
        requires known { asking.seen ≤ D.seen desk.old }
        ensures { SettlesAsking K.Client O.Sockets now asking self.old sockets.old self.new sockets.new }
    {
        due_law();
        let mut asking = asking;
        let mut input = first;
        loop {
            let moment = self.clock.now();
            let want = match asking.task.step(moment, &mut self.ids, input) {
                Ok(want) => want,
                Err(refused) => {
                    refuse::<D, L, C, G, K, O>(sockets, asking, octets, refused);
                    return;
                }
            };
            match want {
                Want::Book(event) => {
                    sockets.note(&event);
                    input = ask_soon::<D, L>(desk, &mut asking.seen, event);
                }
                Want::Finish(answer) => {
                    conclude::<D, L, C, G, K, O>(self.alloc, sockets, asking, octets, answer);
                    return;
                }
                Want::Send {
                    server,
                    over,
                    bytes,
                } => {
                    let Some(unsent) = self.send(sockets, now, asking, octets, &server, over, bytes)
                    else {
                        return;
                    };
                    asking = unsent;
                    input = Input::Failed;
                }
            }
        }
    }

    /// Begins the exchange of a query, and keeps its question, which waits for it. If there is no place for the question, its client gets
    /// SERVFAIL. Returns the question if the exchange could not begin.
    fn send<O: Sockets<D, L, C, K>>(
        &mut self,
        sockets: &mut O,
        now: u64,
        asking: Asking<G, K>,
        octets: &[u8],
        server: &Addr,
        over: Over,
        bytes: Shared<Octets>,
    ) -> Option<Asking<G, K>>
        requires asked { IsAskedBy K.sent asking.port octets.now asking.client asking.query asking.task }
        requires awaits { AwaitsFor D.calls D.seen L.hears C.ticks K.since asking (query_to server.now over bytes) }
        ensures settles { IfNone result (SettlesAsking K.Client O.Sockets now asking self.old sockets.old self.new sockets.new) }
        ensures unsent { IfSome result (λ unsent. (unsent ≡ asking) × L.hears (query_to server.now over bytes) None) }
        ensures same { OnSome result (self.new ≡ attempted (attempt_of now asking) self.old) }
        ensures tried { self.new.tried ≡ attempt_of now asking }
        ensures counts { OnSome result (O.counts sockets.new ≡ O.counts sockets.old) }
        ensures keeps { OnSome result (Keeps O.server_port O.outbox sockets.old sockets.new) }
    {
        let (room, asking) = match self.table.room_for(now, asking, octets) {
            Ok(made) => made,
            Err(cause) => {
                sockets.fail(cause, octets);
                return None;
            }
        };
        let key = self.table.vacant_key();
        let Some(line) = sockets.open(key, server, asking.task.hunt(), over, bytes) else {
            return Some(asking);
        };
        let since = self.table.since(now);
        self.table.keep(Job {
            asking,
            octets: room.octets,
            line,
            since,
            kept: room.kept,
            desk: PhantomData,
            clock: PhantomData,
        });
        None
    }
}
