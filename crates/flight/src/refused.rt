//! The calls of this crate that want memory, those of a task in the module below. Each returns a `Refused` if it got none, and nothing
//! else makes one.

ghost use Rattle.std.specs.Prelude.{◌≡◌, ◌<◌, ◌≤◌, Option, length, option_map, IfErr, IfOk, IfSome, OnOk};
ghost use Rattle.std.specs.VecDeque.{deque_capacity, deque_len};
ghost use Rattle.slab.specs.Slab.{HasRoomFor};
ghost use Rattle.dns_wire.specs.declared.server.query.Asked.TheVariants.{Good};
ghost use Rattle.dns_wire.specs.Server.Asking.{AsksFor, IsGood};
ghost use Rattle.replies.specs.Reply.{most_octets, Tells};
ghost use Rattle.history.specs.declared.event.Ask.TheVariants.{Answer as Asks};
ghost use Rattle.history.specs.declared.event.Event.TheVariants.{Look};
ghost use Rattle.iterate.specs.declared.search.Hunt.{Hunt};
ghost use Rattle.iterate.specs.FirstLookup.{IsSettledBy};
ghost use Rattle.iterate.specs.Told.{IsFit};
ghost use Rattle.flight.specs.Counted.{CountsListened};
ghost use Rattle.flight.specs.Told.{listened_of, IsHeard, Keeps};

use crate::in_flight::InFlight;
use crate::numbered::Numbered;
use crate::sockets::{Client, Listened, Sockets};
use crate::table::Wait;
use clock::Clock;
use dns_query::Over;
use dns_text::{Octets, Question};
use dns_wire::{Asked, Query};
use history::Event;
use iterate::{Answer, Input};
use slab::Slab;
use std::alloc::{AllocError, Global};
use std::collections::VecDeque;

// The task of a question in a worker.
mod worker_task;

pub(crate) use worker_task::WorkerTask;

/// A call wanted memory and got none. It cannot be cloned, and the SERVFAIL for it consumes it.
#[derive(Drop)]
pub(crate) struct Refused {
    by: AllocError,
}

/// The result of listening to an exchange, as `Listened` is, with the refusal if there is no memory for what came.
#[derive(Drop)]
pub(crate) enum HeardOrRefused {
    Nothing,
    Came(Octets),
    Broken,
    NoMemory(Refused),
    Anew,
}

/// Listens to an exchange.
pub(crate) fn hear<D: Numbered, L: InFlight, C: Clock, K: Client, O: Sockets<D, L, C, K>>(
    sockets: &mut O,
    line: &mut L,
) -> HeardOrRefused
    ensures heard { IsHeard (L.hears (L.asked line.old)) (listened_of result) }
    ensures asked { L.asked line.new ≡ L.asked line.old }
    ensures watched { L.key line.new ≡ L.key line.old }
    ensures listed { (hunt : Option Hunt) → L.listed line.old hunt → L.listed line.new hunt }
    ensures listens { O.listens sockets.old line.old (listened_of result) sockets.new }
    ensures listened { CountsListened (listened_of result) (O.counts sockets.old) (O.counts sockets.new) }
    ensures keeps { Keeps O.server_port O.outbox sockets.old sockets.new }
{
    match sockets.hear(line) {
        Listened::Nothing => HeardOrRefused::Nothing,
        Listened::Came(octets) => HeardOrRefused::Came(octets),
        Listened::Broken => HeardOrRefused::Broken,
        Listened::NoMemory => HeardOrRefused::NoMemory(Refused { by: AllocError }),
        Listened::Anew => HeardOrRefused::Anew,
    }
}

/// Reads the request in a client's octets.
pub(crate) fn read_question(alloc: Global, octets: &[u8]) -> Result<Asked, Refused>
    ensures asked { IfOk result (AsksFor octets.now) }
    ensures memory { IfErr result (λ _. IsGood octets.now) }
{
    match dns_wire::read_question(alloc, octets) {
        Ok(asked) => Ok(asked),
        Err(by) => Err(Refused { by }),
    }
}

/// The lookup with which a question begins.
pub(crate) fn first_look(question: &Question, moment: u64) -> Result<Event, Refused>
    ensures { IfOk result (λ event. event ≡ Look moment (Asks question.now)) }
{
    match iterate::first_look(question, moment) {
        Ok(look) => Ok(look),
        Err(by) => Err(Refused { by }),
    }
}

/// The answer to a question that its first lookup settles.
pub(crate) fn settled(
    alloc: Global,
    question: &Question,
    input: &Input,
) -> Result<Option<Answer>, Refused>
    ensures { IsSettledBy question.now input.now result }
{
    match iterate::settled(alloc, question, input) {
        Ok(answer) => Ok(answer),
        Err(by) => Err(Refused { by }),
    }
}

/// Writes the reply to a query in place of what a buffer holds.
pub(crate) fn write_answer(
    alloc: Global,
    buffer: Vec<u8>,
    over: Over,
    octets: &[u8],
    query: &Query,
    answer: &Answer,
) -> Result<Option<Vec<u8>>, Refused>
    requires asks { AsksFor octets.now (Good query.now) }
    requires fit { IsFit answer.now }
    ensures short { IfOk result (λ reply. IfSome reply (λ out. length out.items ≤ most_octets over)) }
    ensures tells { IfOk result (λ reply. Tells over octets.now query.now answer.now (option_map (λ out. out.items) reply)) }
{
    match replies::write_answer(alloc, buffer, over, octets, query, answer) {
        Ok(reply) => Ok(reply),
        Err(by) => Err(Refused { by }),
    }
}

/// Copies the octets of a client, and makes room for its question and its entry of the queue.
pub(crate) fn reserve<T>(
    alloc: Global,
    octets: &[u8],
    waits: &mut VecDeque<Wait>,
    jobs: &mut Slab<T>,
) -> Result<Octets, Refused>
    ensures room { OnOk result (HasRoomFor jobs.new 1) }
    ensures queue_room { OnOk result (deque_len waits.new < deque_capacity waits.new) }
    ensures copy { IfOk result (λ copy. copy ≡ octets.now) }
    ensures jobs { jobs.new ≡ record jobs.old { capacity = jobs.new.capacity } }
    ensures waits { waits.new.items ≡ waits.old.items }
{
    let copy = match Vec::from_slice(alloc, octets) {
        Ok(copy) => copy,
        Err(by) => return Err(Refused { by }),
    };
    if let Err(by) = waits.reserve(1) {
        return Err(Refused { by });
    }
    if let Err(by) = jobs.reserve(1) {
        return Err(Refused { by });
    }
    Ok(Octets::new(copy))
}
