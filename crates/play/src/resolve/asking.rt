//! A question is resolved.

ghost use Rattle.std.specs.Prelude.{ℕ, List, IfOk, IfSome};
ghost use Rattle.iterate.specs.Phase.{Suits};
ghost use Rattle.iterate.specs.Task.{IsDueAt};
ghost use Rattle.iterate.specs.declared.want.Want.TheVariants.{Book as BookWant, Send as SendWant};
ghost use Rattle.dns_text.specs.declared.addr.Addr.{Addr as AddrValue};
ghost use Rattle.dns_query.specs.declared.over.Over.{Over as OverValue};

use crate::queries::push_query;
use crate::resolve::telling::{answer_words, came_words, event_words};
use crate::resolve::world::World;
use crate::said::said_in;
use crate::stop::Stop;
use crate::words::next_line;
use dns_query::Over;
use dns_text::{Addr, Octets, Question, Shared};
use history::Event;
use iterate::{Allowance, Answer, Input, Task, Want, due_law};
use std::alloc::Global;
use std::io::{BufRead, Write};

/// Writes a line.
pub fn tell(rt: &HostRuntime, mut text: Vec<u8>) -> Result<(), Stop> {
    text.push(b'\n')?;
    Ok(rt.stdout().write_all(&text)?)
}

/// What a line says that came of a query. A line of another kind says that nothing did.
fn came_in(alloc: Global, query: &[u8], line: &[u8]) -> Result<Input, Stop>
    ensures { IfOk result (λ input. (server : AddrValue) (over : OverValue) (bytes : List ℕ) → Suits (SendWant server over bytes) input) }
{
    let Some(said) = said_in(alloc, line)? else {
        return Ok(Input::Failed);
    };
    match said.octets(alloc, query)? {
        Some(octets) => Ok(Input::Came {
            octets,
            allowance: Allowance::full(),
        }),
        None => Ok(Input::Failed),
    }
}

/// Writes a query, and reads what comes of it.
fn exchange<I: BufRead>(
    rt: &HostRuntime,
    input: &mut I,
    server: &Addr,
    over: Over,
    bytes: &Shared<Octets>,
) -> Result<Input, Stop>
    ensures { IfOk result (λ input. Suits (SendWant server.now over bytes.now) input) }
{
    let query = bytes.get().as_slice();
    let mut sent = Vec::from_slice(rt.alloc(), b"send ")?;
    push_query(server, over, query, &mut sent)?;
    rt.stdout().write_all(sent.as_slice())?;
    let mut line = Vec::new(rt.alloc());
    if !next_line(input, &mut line)? {
        return Err(Stop::Device);
    }
    came_in(rt.alloc(), query, line.as_slice())
}

fn tell_event(rt: &HostRuntime, event: &Event) -> Result<(), Stop> {
    tell(rt, event_words(rt.alloc(), event)?)
}

fn tell_came(rt: &HostRuntime, came: &Input) -> Result<(), Stop> {
    tell(rt, came_words(rt.alloc(), came)?)
}

/// Gives the book an event, and writes it and what comes of it. Calls drop what is owned: the prover follows any other drop
/// variant by variant.
fn look(rt: &HostRuntime, world: &mut World, event: Event) -> Result<Input, Stop>
    ensures { IfOk result (λ input. Suits (BookWant event) input) }
{
    match tell_event(rt, &event) {
        Ok(()) => {}
        Err(stop) => {
            drop(event);
            return Err(stop);
        }
    }
    let came = world.call(event);
    match tell_came(rt, &came) {
        Ok(()) => Ok(came),
        Err(stop) => {
            drop(came);
            Err(stop)
        }
    }
}

/// Writes an answer.
fn finish(rt: &HostRuntime, answer: Answer) -> Result<(), Stop> {
    let words = answer_words(rt.alloc(), &answer);
    drop(answer);
    tell(rt, words?)
}

/// One step of a task, and what comes of its want; none where it wants no more.
fn turn<I: BufRead>(
    rt: &HostRuntime,
    lines: &mut I,
    world: &mut World,
    task: &mut Task,
    input: Input,
) -> Result<Option<Input>, Stop>
    requires { IsDueAt task.old.phase task.old.steps.items input }
    ensures { IfOk result (λ found. IfSome found (λ next. IsDueAt task.new.phase task.new.steps.items next)) }
{
    due_law();
    match task.step(world.moment, &mut world.ids, input)? {
        Want::Book(event) => Ok(Some(look(rt, world, event)?)),
        Want::Send {
            server,
            over,
            bytes,
        } => Ok(Some(exchange(rt, lines, &server, over, &bytes)?)),
        Want::Finish(answer) => {
            finish(rt, answer)?;
            Ok(None)
        }
    }
}

/// Resolves a question.
pub fn ask<I: BufRead>(
    rt: &HostRuntime,
    lines: &mut I,
    world: &mut World,
    question: Question,
) -> Result<(), Stop> {
    due_law();
    let mut task = Task::new(rt.alloc(), question, world.port);
    let mut input = Input::Begin;
    for _ in 0..u64::MAX {
        match turn(rt, lines, world, &mut task, input)? {
            Some(next) => input = next,
            None => return Ok(()),
        }
    }
    Ok(())
}
