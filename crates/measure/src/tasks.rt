//! Questions that the first look answers: tasks and looks, many times.

ghost use Rattle.iterate.specs.Task.{IsDueAt};

use crate::books::filled_book;
use crate::calls::run_calls;
use anyhow::anyhow;
use dns_name::Name;
use dns_text::Question;
use dns_text::types::A;
use history::{Ask, Book, Event, Reply, Seen};
use iterate::{Answer, Input, Task, Want, due_law};
use rand_pcg::Pcg32;
use std::alloc::Global;

/// What a question is asked for.
#[derive(Clone, Copy)]
enum Call {
    /// Its answer, by a task.
    Resolve,
    /// The first look alone.
    Look,
}

/// The question for the address of a name. A short name takes no memory.
fn question(name: &Name) -> anyhow::Result<Question> {
    Ok(Question {
        owner: name.clone()?,
        kind: A,
    })
}

/// The answer that a task ends with, if it ends.
fn answer_in(want: Want) -> Option<Answer> {
    match want {
        Want::Finish(answer) => Some(answer),
        other => {
            drop(other);
            None
        }
    }
}

/// The answer of a task whose first look ends it; none if that does not. Calls drop what is owned: the prover follows any other
/// drop variant by variant.
fn end<B: Book>(book: &B, ids: &mut Pcg32, task: &mut Task) -> anyhow::Result<Option<Answer>>
    requires { IsDueAt task.old.phase task.old.steps.items Input.Begin }
{
    due_law();
    match task.step(0, ids, Input::Begin)? {
        Want::Book(Event::Look { ask, .. }) => {
            let seen = book.seen(&ask, 0);
            drop(ask);
            let reply = Reply::Seen(seen?);
            Ok(answer_in(task.step(0, ids, Input::Reply(reply))?))
        }
        other => {
            drop(other);
            Ok(None)
        }
    }
}

/// The same of a new task.
fn resolve<B: Book>(
    alloc: Global,
    book: &B,
    ids: &mut Pcg32,
    name: &Name,
) -> anyhow::Result<Option<Answer>> {
    due_law();
    let mut task = Task::new(alloc, question(name)?, 53);
    let answer = end(book, ids, &mut task);
    drop(task);
    answer
}

/// 1 for what the look of a task tells. Calls drop what is owned: the prover follows any other drop variant by variant.
fn look<B: Book>(book: &B, name: &Name) -> anyhow::Result<u32> {
    let ask = Ask::Answer(question(name)?);
    let seen = book.seen(&ask, 0);
    drop(ask);
    let seen = seen?;
    let told = match &seen {
        Seen::Held(_) | Seen::Local(_) => 1,
        _ => 0,
    };
    drop(seen);
    Ok(told)
}

/// 1 for an answer.
fn answered<B: Book>(alloc: Global, book: &B, ids: &mut Pcg32, name: &Name) -> anyhow::Result<u32> {
    let answer = resolve(alloc, book, ids, name)?;
    let told = match &answer {
        Some(Answer::Reply { .. }) => 1,
        _ => 0,
    };
    drop(answer);
    Ok(told)
}

/// One call about a name: 1 if it told something.
fn call_once<B: Book>(
    alloc: Global,
    book: &B,
    call: Call,
    ids: &mut Pcg32,
    name: &Name,
) -> anyhow::Result<u32> {
    match call {
        Call::Resolve => answered(alloc, book, ids, name),
        Call::Look => look(book, name),
    }
}

/// So many calls about a name, and how many of them told something. It is any book, since the prover follows the drop of a certain
/// one field by field.
fn repeat_with<B: Book>(
    alloc: Global,
    book: B,
    call: Call,
    name: &Name,
    count: u32,
) -> anyhow::Result<u32> {
    let mut ids = Pcg32::new(1, 1);
    let mut sum = 0u32;
    for _ in 0..count {
        sum = sum.wrapping_add(call_once(alloc, &book, call, &mut ids, name)?);
    }
    Ok(sum)
}

fn repeat(alloc: Global, call: Call, text: &[u8], count: u32) -> anyhow::Result<u32> {
    let name = Name::from_text(alloc, text)?;
    repeat_with(alloc, filled_book(alloc)?, call, &name, count)
}

const HELD: &[u8] = b"www.example.to";

const LOCAL: &[u8] = b"www.example.net";

const REFUSED: &[u8] = b"www.example.org";

/// So many calls, and how many of them told something.
fn run(alloc: Global, call: &str, count: u32) -> anyhow::Result<u32> {
    match call {
        "held" => repeat(alloc, Call::Resolve, HELD, count),
        "local" => repeat(alloc, Call::Resolve, LOCAL, count),
        "refused" => repeat(alloc, Call::Resolve, REFUSED, count),
        "held_look" => repeat(alloc, Call::Look, HELD, count),
        "local_look" => repeat(alloc, Call::Look, LOCAL, count),
        "refused_look" => repeat(alloc, Call::Look, REFUSED, count),
        _ => Err(anyhow!("there is no such call")),
    }
}

/// Every call, in the order in which it is shown.
const CALLS: [&str; 6] = [
    "held",
    "local",
    "refused",
    "held_look",
    "local_look",
    "refused_look",
];

/// Makes calls, and prints how many told something.
pub fn measure_tasks<R: Print>(rt: &R, alloc: Global, words: &[String]) -> anyhow::Result<()> {
    run_calls(rt, words, &CALLS, 64, |call, count| run(alloc, call, count))
}
