//! Workers that share a book, each in a thread of its own.

use crate::serve::pieces::PieceWriter;
use crate::serve::world::LineClock;
use crate::stop::Stop;
use command_text::serve_control;
use history::Book;
use shared_book::{CallLedger, Pass, Seat, SharedBook};
use std::alloc::Global;
use std::sync::Wait;
use std::thread;
use std::thread::Threads;
use streams::{CountedReader, CountedWriter, Ended, ScriptFault};

/// A worker before it begins.
#[derive(Drop)]
pub struct Worker<L: CallLedger> {
    pub pass: Pass<L>,
    /// Its lines of control.
    pub text: Vec<u8>,
}

/// The replies to a worker, or the reason that it broke off.
pub type Told = Result<Vec<u8>, Stop>;

/// Obeys the lines of a worker, all at moment 0, and writes the replies to `out`.
fn obey_text<B: Book, L: CallLedger, R: Wait>(
    rt: &R,
    alloc: Global,
    book: &SharedBook<B, L>,
    worker: Worker<L>,
    out: &mut PieceWriter,
) -> Result<Ended, ScriptFault> {
    let Worker { pass, text } = worker;
    let mut seat = Seat::new(rt, book, pass);
    let mut clock = LineClock { moment: 0 };
    let mut reader = CountedReader::new(text.as_slice());
    let mut writer = CountedWriter::new(out);
    serve_control(alloc, &mut seat, &mut clock, &mut reader, &mut writer)
}

/// Runs a worker to its end.
pub fn work<B: Book, L: CallLedger, R: Wait>(
    rt: &R,
    alloc: Global,
    book: &SharedBook<B, L>,
    worker: Worker<L>,
) -> Told {
    let mut out = PieceWriter::new(alloc, usize::MAX, 0);
    match obey_text(rt, alloc, book, worker, &mut out) {
        Ok(_) => Ok(out.octets),
        Err(_) => Err(Stop::Device),
    }
}

/// A worker for each text. Each takes half of what the pass has left.
pub fn workers_for<B: Book, L: CallLedger, R: Wait>(
    rt: &R,
    alloc: Global,
    book: &SharedBook<B, L>,
    pass: &mut Pass<L>,
    texts: Vec<Vec<u8>>,
) -> Result<Vec<Worker<L>>, Stop> {
    let mut workers = Vec::new(alloc);
    for text in texts {
        let Ok(half) = book.split(rt, pass) else {
            return Err(Stop::Device);
        };
        workers.push(Worker { pass: half, text })?;
    }
    Ok(workers)
}

/// Runs each worker in a thread of its own, and returns what each was told.
pub fn run_all<B: Book + Send, L: CallLedger + Send + Sync, R: Threads + Wait + Sync>(
    rt: &R,
    alloc: Global,
    book: &SharedBook<B, L>,
    workers: Vec<Worker<L>>,
) -> Result<Vec<Told>, Stop> {
    match thread::map_vec(rt, workers, &|worker| work(rt, alloc, book, worker)) {
        Ok(told) => Ok(told),
        Err(_) => Err(Stop::NoMemory),
    }
}
