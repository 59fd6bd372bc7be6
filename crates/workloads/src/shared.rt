//! Jobs of a worker at a shared book, whose window has as many calls as that of a service.
ghost use Rattle.shared_book.specs.Fresh.{CanShare, IsKnownAs};

use crate::answers::answer;
use crate::block_list::block;
use crate::internet::{Internet, hints};
use crate::resolving::resolve;
use crate::worker::Worker;
use dns_text::{Addr, Items};
use flight::Numbered;
use history::{Book, MOST_CELLS, Settings};
use shared_book::{Blank, CallLedger, Seat, SharedBook};
use std::alloc::Global;
use std::marker::Brand;
use std::sync::Wait;
use undo_book::ShelfBook;

/// What the worker does.
#[derive(Clone, Copy, PartialEq, Eq)]
pub enum Job {
    Answers,
    Resolving,
    BlockList,
}

/// Does a job at a desk.
fn work_at<D: Numbered + Drop>(
    alloc: Global,
    desk: D,
    job: Job,
    seed: u32,
    size: u32,
    count: u32,
) -> anyhow::Result<u64> {
    let internet = match job {
        Job::Resolving => Some(Internet::new(seed, size)),
        _ => None,
    };
    let mut worker = Worker::new(alloc, desk, seed, internet)?;
    match job {
        Job::Answers => answer(alloc, &mut worker, seed, size, count)?,
        Job::Resolving => resolve(alloc, &mut worker, seed, size, count)?,
        Job::BlockList => block(alloc, &mut worker, seed, size, count)?,
    }
    Ok(worker.network.digest.sum())
}

/// The calls that the window has, as many as a service's by default.
const WINDOW: u64 = 10_000;

/// Does a job at a shared book that is empty.
fn work_over<B: Book, L: CallLedger, R: Wait>(
    rt: &R,
    alloc: Global,
    blank: Blank,
    book: B,
    opening: B,
    job: Job,
    seed: u32,
    size: u32,
    count: u32,
) -> anyhow::Result<u64>
    requires known { IsKnownAs L.name L.parts L.limit L.settings blank WINDOW (B.settings book) }
    requires books { CanShare B.stands_for B.settings book opening }
{
    let (book, pass) = SharedBook::<B, L>::new(alloc, blank, book, opening, WINDOW)?;
    work_at(alloc, Seat::new(rt, &book, pass), job, seed, size, count)
}

/// The settings of the book.
fn settings(alloc: Global) -> anyhow::Result<Settings> {
    let servers: Vec<Addr> = hints(alloc)?;
    Ok(Settings {
        journal: 64,
        cells: MOST_CELLS,
        hints: Items::new(servers),
        server_port: 53,
    })
}

/// Does a job, and returns the digest of what clients and operators got.
pub fn shared_job<R: Wait>(
    rt: &R,
    alloc: Global,
    job: Job,
    seed: u32,
    size: u32,
    count: u32,
) -> anyhow::Result<u64> {
    let settings = settings(alloc)?;
    let opening = ShelfBook::lagging(alloc, &settings)?;
    let book = ShelfBook::new(alloc, settings)?;
    work_over::<ShelfBook, Brand, R>(
        rt,
        alloc,
        Blank::new(1),
        book,
        opening,
        job,
        seed,
        size,
        count,
    )
}
