//! The beginning of a question: its first lookup, then its task.

ghost use Rattle.std.specs.Prelude.{◌≡◌, ◌↔◌, ◌≤◌, IsTrue};
ghost use Rattle.dns_wire.specs.declared.server.query.Asked.TheVariants.{Good};
ghost use Rattle.dns_wire.specs.Server.Asking.{AsksFor};
ghost use Rattle.flight.specs.Asking.{HasLooked, IsAskedBy, SettlesAsking, SettlesQuery};
ghost use Rattle.flight.specs.FirstLook.{HeedsInput, HeedsLook, IsSilence};

use crate::asking::{Asking, ask};
use crate::engine::Flight;
use crate::in_flight::InFlight;
use crate::numbered::Numbered;
use crate::refused::{WorkerTask, first_look, settled};
use crate::sockets::{Client, Sockets};
use crate::table::Cause;
use crate::telling::tell;
use clock::Clock;
use dns_wire::Query;
use history::{Reply, Seen};
use iterate::{Input, resolved_law};
use local_zone::Local;
use rand_core::Rng;

/// Whether a local zone says that a question gets no reply.
fn is_dropped(seen: &Seen) -> bool
    ensures { IsTrue result ↔ (seen.now ≡ Seen.Local Local.Drop) }
{
    match seen {
        Seen::Local(answer) => matches!(answer, Local::Drop),
        _ => false,
    }
}

/// Whether a lookup showed that.
fn is_silence(input: &Input) -> bool
    ensures { IsTrue result ↔ IsSilence input.now }
{
    match input {
        Input::Reply(Reply::Seen(seen)) => is_dropped(seen),
        _ => false,
    }
}

impl<D: Numbered, L: InFlight, C: Clock, G: Rng, K: Client> Flight<D, L, C, G, K> {
    /// Begins a question anew, with a lookup and a task of its own. It grows no younger by it.
    pub(crate) fn begin_again<O: Sockets<D, L, C, K>>(
        &mut self,
        desk: &mut D,
        sockets: &mut O,
        now: u64,
        asking: Asking<G, K>,
        octets: &[u8],
    )
        requires asked { IsAskedBy K.sent asking.port octets.now asking.client asking.query asking.task }
        ensures settles { SettlesAsking K.Client O.Sockets now asking self.old sockets.old self.new sockets.new }
        ensures heeds { HeedsLook D.calls O.outbox asking.query.question desk.old self.old sockets.old desk.new self.new sockets.new }
    {
        let Asking {
            client,
            query,
            began,
            task,
            ..
        } = asking;
        drop(task);
        self.begin_query(desk, sockets, now, client, octets, query, began);
    }

    /// Begins the question of a query by its first lookup. A cached or local answer settles it at once, without a task. The question
    /// counts as begun at `began`, in milliseconds.
    #[tactic(auto, using(crate::proofs::Answering::is_good))]
    pub(crate) fn begin_query<O: Sockets<D, L, C, K>>(
        &mut self,
        desk: &mut D,
        sockets: &mut O,
        now: u64,
        client: K,
        octets: &[u8],
        query: Query,
        began: u64,
    )
        requires own { K.sent client octets.now }
        requires good { AsksFor octets.now (Good query) }
        ensures settles { SettlesQuery K.Client O.Sockets now client query began self.old sockets.old self.new sockets.new }
        ensures heeds { HeedsLook D.calls O.outbox query.question desk.old self.old sockets.old desk.new self.new sockets.new }
    {
        if desk.seen() < client.since() {
            let cause = Cause::behind(desk, client);
            sockets.fail(cause, octets);
            drop(query);
            return;
        }
        let moment = self.clock.now();
        let look = match first_look(&query.question, moment) {
            Ok(look) => look,
            Err(refused) => {
                sockets.fail(Cause::no_memory(refused, client), octets);
                drop(query);
                return;
            }
        };
        let mut seen = client.since();
        let came = ask::<D, L>(desk, &mut seen, look);
        self.begin_looked(
            desk, sockets, now, client, octets, query, began, moment, came, seen,
        );
    }

    /// Begins a question whose first lookup, at this moment, was replied to.
    fn begin_looked<O: Sockets<D, L, C, K>>(
        &mut self,
        desk: &mut D,
        sockets: &mut O,
        now: u64,
        client: K,
        octets: &[u8],
        query: Query,
        began: u64,
        moment: u64,
        came: Input,
        seen: u64,
    )
        requires own { K.sent client octets.now }
        requires good { AsksFor octets.now (Good query) }
        requires looked { HasLooked D.calls D.seen L.hears C.ticks (K.since client) query.question moment came seen }
        requires known { seen ≤ D.seen desk.old }
        ensures settles { SettlesQuery K.Client O.Sockets now client query began self.old sockets.old self.new sockets.new }
        ensures heeds { HeedsInput query.question came
            desk.old self.old (O.outbox sockets.old) desk.new self.new (O.outbox sockets.new) }
    {
        resolved_law();
        if is_silence(&came) {
            sockets.pass_over(client, octets);
            drop(came);
            drop(query);
            return;
        }
        match settled(self.alloc, &query.question, &came) {
            Ok(Some(answer)) => {
                tell::<D, L, C, K, O>(self.alloc, sockets, client, &query, octets, &answer);
                // Dropped by calls: the proof then does not follow what these values may hold.
                drop(answer);
                drop(came);
                drop(query);
            }
            Ok(None) => {
                self.begin_task(
                    desk, sockets, now, client, octets, query, began, moment, came, seen,
                );
            }
            Err(refused) => {
                sockets.fail(Cause::no_memory(refused, client), octets);
                drop(came);
                drop(query);
            }
        }
    }

    /// Begins the task of a question that its first lookup, at this moment, did not settle. It is a function of its own
    /// because a task takes much of the stack.
    #[inline(never)]
    #[tactic(auto, using(crate::proofs::Answering::is_good))]
    fn begin_task<O: Sockets<D, L, C, K>>(
        &mut self,
        desk: &mut D,
        sockets: &mut O,
        now: u64,
        client: K,
        octets: &[u8],
        query: Query,
        began: u64,
        moment: u64,
        came: Input,
        seen: u64,
    )
        requires own { K.sent client octets.now }
        requires good { AsksFor octets.now (Good query) }
        requires looked { HasLooked D.calls D.seen L.hears C.ticks (K.since client) query.question moment came seen }
        requires known { seen ≤ D.seen desk.old }
        ensures { SettlesQuery K.Client O.Sockets now client query began self.old sockets.old self.new sockets.new }
    {
        let port = sockets.server_port();
        let task = match WorkerTask::begun(self.alloc, &query.question, port, moment) {
            Ok(task) => task,
            Err(refused) => {
                sockets.fail(Cause::no_memory(refused, client), octets);
                return;
            }
        };
        let asking = Asking {
            client,
            query,
            port,
            began,
            task,
            seen,
        };
        self.drive(desk, sockets, now, asking, octets, came);
    }
}
