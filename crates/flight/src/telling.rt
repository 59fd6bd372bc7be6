//! The reply to a client.

ghost use Rattle.std.specs.Prelude.{◌≡◌, ◌≢◌, ◌<◌, ◌+◌, Some, length};
ghost use Rattle.dns_wire.specs.declared.server.query.Asked.TheVariants.{Fault, Good};
ghost use Rattle.dns_wire.specs.Server.Asking.{AsksFor};
ghost use Rattle.replies.specs.Reply.{fault_octets};
ghost use Rattle.iterate.specs.declared.answer.Answer.TheVariants.{Silent};
ghost use Rattle.iterate.specs.Told.{IsFit};
ghost use Rattle.flight.specs.Asking.{AnswersAsking, IsAskedBy, LandsFor};
ghost use Rattle.flight.specs.Bounds.{EachKeepsAtMost, kept_by};
ghost use Rattle.flight.specs.Clients.{Settles, SettlesBy};
ghost use Rattle.flight.specs.Flight.{Lands};
ghost use Rattle.flight.specs.Leaving.{Ends};
ghost use Rattle.flight.specs.Waiting.{IsAccounted};

use crate::asking::Asking;
use crate::in_flight::InFlight;
use crate::job::Job;
use crate::kept::MOST_AT_REST;
use crate::numbered::Numbered;
use crate::refused::{Refused, write_answer};
use crate::reply::ReplyOctets;
use crate::sockets::{Client, Sockets};
use crate::table::{Cause, Table};
use clock::Clock;
use dns_wire::{Query, Rcode, fault_reply};
use iterate::Answer;
use rand_core::Rng;
use std::alloc::Global;

/// The header that reports a fault of the client's octets. It takes no memory.
pub(crate) fn fault_of(octets: &[u8], rcode: Rcode) -> [u8; 12]
    requires { AsksFor octets.now (Fault rcode) }
    ensures octets { result ≡ fault_octets octets.now rcode }
    ensures short { length result ≡ 12 }
{
    fault_reply(octets, rcode).unwrap()
}

/// Sends the client of a question SERVFAIL because there is no memory.
pub(crate) fn refuse<D: Numbered, L: InFlight, C: Clock, G: Rng, K: Client, O: Sockets<D, L, C, K>>(
    sockets: &mut O,
    asking: Asking<G, K>,
    octets: &[u8],
    refused: Refused,
)
    requires asked { IsAskedBy K.sent asking.port octets.now asking.client asking.query asking.task }
    ensures { Settles O.server_port O.counts O.outbox O.posts asking.client (Some (fault_octets octets.now 2)) sockets.old sockets.new }
{
    sockets.fail(Cause::no_memory(refused, asking.client), octets);
}

/// Ends a question that was taken out of the table, because it keeps most in memory while all that wait keep too much: its exchange
/// ends, and its client gets SERVFAIL.
pub(crate) fn give_up<
    D: Numbered,
    L: InFlight,
    C: Clock,
    G: Rng,
    K: Client,
    O: Sockets<D, L, C, K>,
>(table: &Table<D, L, C, G, K>, sockets: &mut O, job: Job<D, L, C, G, K>)
    requires much { MOST_AT_REST < kept_by table.now.jobs.slots + job.kept }
    requires most { EachKeepsAtMost job.kept table.now.jobs.slots }
    ensures port { O.server_port sockets.new ≡ O.server_port sockets.old }
    ensures ends { Ends K.sent O.posts 0 1 (O.outbox sockets.old) 0 (O.outbox sockets.new) }
    ensures accounted { IsAccounted 0 1 (O.counts sockets.old) 0 (O.counts sockets.new) }
    ensures unheard { (O.counts sockets.new).listened ≡ (O.counts sockets.old).listened }
    ensures unexpired { (O.counts sockets.new).expired ≡ (O.counts sockets.old).expired }
{
    let Job {
        asking,
        octets,
        line,
        ..
    } = job;
    let cause = Cause::keeps_most(table, asking);
    sockets.abandon(line);
    sockets.fail(cause, octets.as_slice());
}

/// Sends a client the answer to its question, which is no silence, or SERVFAIL if there is no memory to write it.
#[tactic(auto, using(crate::proofs::Answering::is_good))]
fn tell_reply<D: Numbered, L: InFlight, C: Clock, K: Client, O: Sockets<D, L, C, K>>(
    alloc: Global,
    sockets: &mut O,
    client: K,
    query: &Query,
    octets: &[u8],
    answer: &Answer,
)
    requires own { K.sent client octets.now }
    requires good { AsksFor octets.now (Good query.now) }
    requires lands { Lands D.calls D.seen L.hears C.ticks (K.since client) (O.server_port sockets.old) query.now.question answer.now }
    requires fit { IsFit answer.now }
    requires loud { answer.now ≢ Silent }
    ensures { SettlesBy K.over O.server_port O.counts O.outbox O.posts client octets.now query.now answer.now sockets.old sockets.new }
{
    let over = client.over();
    let buffer = sockets.buffer();
    match write_answer(alloc, buffer, over, octets, query, answer) {
        Ok(Some(reply)) => sockets.give(client, octets, ReplyOctets::Message(reply)),
        Ok(None) => sockets.pass_over(client, octets),
        Err(refused) => sockets.fail(Cause::no_memory(refused, client), octets),
    }
}

/// Sends the client of a question its answer, and ends the question.
pub(crate) fn conclude<
    D: Numbered,
    L: InFlight,
    C: Clock,
    G: Rng,
    K: Client,
    O: Sockets<D, L, C, K>,
>(alloc: Global, sockets: &mut O, asking: Asking<G, K>, octets: &[u8], answer: Answer)
    requires asked { IsAskedBy K.sent asking.port octets.now asking.client asking.query asking.task }
    requires lands { LandsFor D.calls D.seen L.hears C.ticks K.since (O.server_port sockets.old) asking answer }
    requires fit { IsFit answer }
    ensures { AnswersAsking K.over O.server_port O.counts O.outbox O.posts asking octets.now answer sockets.old sockets.new }
{
    let Asking {
        client,
        query,
        task,
        ..
    } = asking;
    tell::<D, L, C, K, O>(alloc, sockets, client, &query, octets, &answer);
    // Dropped by calls: the proof then does not follow what these values may hold.
    drop(answer);
    drop(query);
    drop(task);
}

/// Sends a client the answer to its question, or nothing if the answer is silence.
pub(crate) fn tell<D: Numbered, L: InFlight, C: Clock, K: Client, O: Sockets<D, L, C, K>>(
    alloc: Global,
    sockets: &mut O,
    client: K,
    query: &Query,
    octets: &[u8],
    answer: &Answer,
)
    requires own { K.sent client octets.now }
    requires good { AsksFor octets.now (Good query.now) }
    requires lands { Lands D.calls D.seen L.hears C.ticks (K.since client) (O.server_port sockets.old) query.now.question answer.now }
    requires fit { IsFit answer.now }
    ensures { SettlesBy K.over O.server_port O.counts O.outbox O.posts client octets.now query.now answer.now sockets.old sockets.new }
{
    match answer {
        Answer::Silent => sockets.pass_over(client, octets),
        Answer::Reply { .. } => {
            tell_reply::<D, L, C, K, O>(alloc, sockets, client, query, octets, answer);
        }
    }
}
