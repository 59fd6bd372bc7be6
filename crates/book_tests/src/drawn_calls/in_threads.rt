//! Two callers of one book, each in a thread of its own, for tests that refuse allocations of one thread. One sets a zone and undoes
//! that, and the other brings an address. Each looks at what it did.
ghost use Rattle.shared_book.specs.Fresh.{CanShare, IsKnownAs};

use crate::drawn_calls::callers::joined;
use crate::drawn_calls::replayed::closed;
use crate::drawn_calls::texts::{Shows, text_of};
use crate::events::{of_the_first, of_the_second};
use crate::handed::{Handed, keep};
use crate::stop::Stop;
use dns_text::Shared;
use history::{Book, Event};
use shared_book::{Blank, CallFault, CallLedger, Pass, Receipt, SharedBook};
use std::alloc::Global;
use std::io::Write;
use std::sync::Wait;
use std::thread::Threads;
use std::{io, thread};

/// How many calls the window can have.
pub const RECORDED_OF_TWO: u64 = 100;

/// What a call gave, or why it gave nothing.
type Answer = Result<Receipt, CallFault>;

/// A caller before its calls: its pass, what it calls with, and room for the answers.
#[derive(Drop)]
struct Caller<L: CallLedger> {
    pass: Pass<L>,
    events: Vec<Shared<Event>>,
    answers: Vec<Answer>,
}

/// A caller's pass, and what its calls gave.
#[derive(Drop)]
struct Called<L: CallLedger> {
    pass: Pass<L>,
    answers: Vec<Answer>,
}

/// A caller with room for the answer to each event.
fn with_room<L: CallLedger>(
    alloc: Global,
    pass: Pass<L>,
    events: Vec<Shared<Event>>,
) -> Result<Caller<L>, Stop> {
    let mut answers = Vec::new(alloc);
    match answers.reserve(events.len()) {
        Ok(()) => Ok(Caller {
            pass,
            events,
            answers,
        }),
        Err(_) => Err(Stop),
    }
}

/// Both callers of a book, by its first pass.
fn callers_of<B: Book, L: CallLedger, R: Wait>(
    rt: &R,
    alloc: Global,
    book: &SharedBook<B, L>,
    mut one: Pass<L>,
) -> Result<(Caller<L>, Caller<L>), Stop> {
    let Ok(two) = book.split(rt, &mut one) else {
        return Err(Stop);
    };
    let Ok(ones) = of_the_first(alloc) else {
        return Err(Stop);
    };
    let Ok(twos) = of_the_second(alloc) else {
        return Err(Stop);
    };
    Ok((with_room(alloc, one, ones)?, with_room(alloc, two, twos)?))
}

/// Calls with each event. Since there is room for each answer, only the calls take memory.
fn calls<B: Book, L: CallLedger, R: Wait>(
    rt: &R,
    book: &SharedBook<B, L>,
    caller: Caller<L>,
) -> Result<Called<L>, Stop> {
    let Caller {
        mut pass,
        events,
        mut answers,
    } = caller;
    for event in events {
        let answer = book.call(rt, &mut pass, event);
        if answers.push(answer).is_err() {
            return Err(Stop);
        }
    }
    Ok(Called { pass, answers })
}

/// A line of its own, written at once: tests refuse allocations between two of these.
fn mark<R: Print>(rt: &R, line: &[u8]) -> Result<(), Stop> {
    match io::writer(rt).write_all(line) {
        Ok(()) => Ok(()),
        Err(_) => Err(Stop),
    }
}

/// What a call gave, on one line.
fn answer_shown(alloc: Global, answer: &Answer) -> Result<String, Stop> {
    match answer {
        Ok(receipt) => text_of(alloc, Shows::Reply(&receipt.reply)),
        Err(CallFault::Step(fault)) => text_of(alloc, Shows::Fault(fault)),
        Err(CallFault::Behind { .. }) => Err(Stop),
    }
}

/// Prints what each call gave.
fn show_all<R: Print>(rt: &R, alloc: Global, caller: u64, answers: &[Answer]) -> Result<(), Stop> {
    for answer in answers {
        let text = answer_shown(alloc, answer)?;
        if println!(rt; "caller {caller}: {text}").is_err() {
            return Err(Stop);
        }
    }
    Ok(())
}

/// The receipts among the answers.
fn receipts_in(alloc: Global, answers: Vec<Answer>) -> Result<Vec<Receipt>, Stop> {
    let mut receipts = Vec::new(alloc);
    for answer in answers {
        if let Ok(receipt) = answer {
            keep(&mut receipts, receipt)?;
        }
    }
    Ok(receipts)
}

/// Prints what each call of a caller gave. It hands in the pass and the receipts.
fn shown<L: CallLedger, R: Print>(
    rt: &R,
    alloc: Global,
    called: Called<L>,
) -> Result<Handed<L>, Stop> {
    let Called { pass, answers } = called;
    show_all(rt, alloc, pass.caller(), answers.as_slice())?;
    let receipts = receipts_in(alloc, answers)?;
    Ok(Handed { pass, receipts })
}

/// Prints what the calls of both gave, and hands in what both have.
fn both_shown<B: Book, L: CallLedger, R: Print + Wait>(
    rt: &R,
    alloc: Global,
    book: &SharedBook<B, L>,
    one: Called<L>,
    two: Called<L>,
) -> Result<Handed<L>, Stop> {
    let one = shown(rt, alloc, one)?;
    let two = shown(rt, alloc, two)?;
    joined(rt, book, one, two)
}

/// Makes the calls of both, the first caller's in a new thread.
fn call_in_threads<B: Book + Send, L: CallLedger + Send + Sync, R: Print + Threads + Wait + Sync>(
    rt: &R,
    alloc: Global,
    book: &SharedBook<B, L>,
    pass: Pass<L>,
) -> Result<Handed<L>, Stop> {
    let (one, two) = callers_of(rt, alloc, book, pass)?;
    mark(rt, b"calls\n")?;
    let (a, b) = thread::join(rt, || calls(rt, book, one), || calls(rt, book, two));
    mark(rt, b"done\n")?;
    both_shown(rt, alloc, book, a?, b?)
}

/// Closes the book. It prints how many calls the window has, and to how many calls a new book replies the same.
fn show_closed<B: Book, L: CallLedger, R: Print>(
    rt: &R,
    alloc: Global,
    book: SharedBook<B, L>,
    handed: Result<Handed<L>, Stop>,
) -> Result<(), Stop> {
    let shown = match closed(alloc, book, handed?)? {
        Some(closed) => println!(rt;
            "{} entries, {} replied alike",
            closed.recorded, closed.alike
        ),
        None => println!(rt; "not closed"),
    };
    match shown {
        Ok(()) => Ok(()),
        Err(_) => Err(Stop),
    }
}

/// Both callers of a book, from its first call to its closing.
pub fn two_threads<B: Book + Send, L: CallLedger + Send + Sync, R: Print + Threads + Wait + Sync>(
    rt: &R,
    alloc: Global,
    blank: Blank,
    book: B,
    opening: B,
) -> Result<(), Stop>
    requires known { IsKnownAs L.name L.parts L.limit L.settings blank RECORDED_OF_TWO (B.settings book) }
    requires books { CanShare B.stands_for B.settings book opening }
{
    let made = SharedBook::<B, L>::new(alloc, blank, book, opening, RECORDED_OF_TWO);
    let Ok((shared, pass)) = made else {
        return Err(Stop);
    };
    let handed = call_in_threads(rt, alloc, &shared, pass);
    show_closed(rt, alloc, shared, handed)
}
