//! A worker of a service, in a thread of its own.

ghost use Rattle.std.specs.Prelude.{◌≡◌, ◌+◌, ◌≤◌, vec_len};
ghost use Rattle.resolver_args.specs.declared.mode.TheConstants.{MOST_WORKERS};

use crate::gauges::Gauges;
use crate::sockets::{DescriptorShares, SharedSockets};
use clock::MonotonicClock;
use front::{TcpPoll, UdpListener};
use front_workers::{AskingTerms, TableSeed, Tally, TcpWorker, UdpWorker, fly_tcp, fly_udp};
use log::Log;
use operators::{CliFault, WatchedBook};
use rand::rngs::StdRng;
use rand_core::SeedableRng;
use shared_book::{CallLedger, Pass, Seat, SharedBook};
use std::alloc::Global;
use std::io;
use std::net::{Net, SocketAddr, TcpStream};
use std::random::RandomSource;
use std::rt::Clock;
use std::sync::Wait;
use std::sync::atomic::AtomicBool;
use std::time::Instant;
use store::ShelfBook;

/// The book of a service.
pub(crate) type ServiceBook = WatchedBook<ShelfBook>;

/// The fixed settings of a service that do not belong to its book.
#[derive(Clone, Copy)]
pub(crate) struct Terms<'a> {
    /// The address at which queries arrive.
    pub place: SocketAddr,
    /// The number of UDP workers.
    pub udp: u8,
    /// The number of TCP workers.
    pub tcp: u8,
    /// The seed of the identifiers of queries, if the operator fixed one.
    pub seed: Option<u32>,
    /// The descriptors that workers may have.
    pub shares: DescriptorShares,
    /// How name servers are asked.
    pub asking: AskingTerms<'a>,
    /// The instant from which every worker's clock counts.
    pub start: Instant,
}

/// The parts of a service that every thread borrows.
#[derive(Drop)]
pub(crate) struct Lent<'a, L: CallLedger> {
    pub book: &'a SharedBook<ServiceBook, L>,
    pub gauges: &'a Gauges,
    pub sockets: &'a SharedSockets,
    pub stop: &'a AtomicBool,
    pub terms: Terms<'a>,
}

/// The parts that a UDP worker owns.
#[derive(Drop)]
pub(crate) struct OverUdp<'a, L: CallLedger, R: Net<Stream = TcpStream> + Log + Clock> {
    pass: Pass<L>,
    ids: StdRng,
    worker: UdpWorker<'a, R>,
}

/// The parts that a TCP worker owns.
#[derive(Drop)]
pub(crate) struct OverTcp<'a, L: CallLedger, R: Net<Stream = TcpStream> + Log + Clock> {
    pass: Pass<L>,
    ids: StdRng,
    worker: TcpWorker<'a, R>,
}

/// The generator of a worker's query identifiers. It is seeded with the fixed seed and the worker's number if there is a fixed
/// seed, and with the system's randomness otherwise.
fn generator<R: RandomSource>(rt: &R, seed: Option<u32>, number: u8) -> Result<StdRng, CliFault> {
    let made = match seed {
        Some(seed) => Ok(StdRng::seed_from_u64(u64::from(seed) + (u64::from(number) << 32))),
        None => rand::make_rng(rt),
    };
    made.map_err(|_: io::Error| CliFault::cannot_start())
}

/// The seed of a worker's tables. It is drawn apart, so that a fixed seed still gives the same query identifiers.
fn table_seed<R: RandomSource>(
    rt: &R,
    seed: Option<u32>,
    number: u8,
) -> Result<TableSeed, CliFault> {
    let mut drawn = generator(rt, seed, number)?;
    Ok(TableSeed::draw(&mut drawn))
}

/// A pass to the book for one thread.
pub(crate) fn pass_of<L: CallLedger, R: Wait>(
    rt: &R,
    book: &SharedBook<ServiceBook, L>,
    pass: &mut Pass<L>,
) -> Result<Pass<L>, CliFault> {
    match book.split(rt, pass) {
        Ok(own) => Ok(own),
        Err(_) => Err(CliFault::cannot_start()),
    }
}

/// A UDP worker for each listener. They are numbered from 0.
pub(crate) fn udp_workers<'a, L: CallLedger, R>(
    rt: &'a R,
    alloc: Global,
    book: &SharedBook<ServiceBook, L>,
    pass: &mut Pass<L>,
    terms: &Terms<'a>,
    tallies: &'a [Tally],
    listeners: Vec<UdpListener>,
) -> Result<Vec<OverUdp<'a, L, R>>, CliFault>
where
    R: Wait + Clock + Log + RandomSource + Net<Stream = TcpStream>,
{
    let mut workers = Vec::new(alloc);
    for ((number, tally), listener) in (0..terms.udp).zip(tallies).zip(listeners) {
        let own = pass_of(rt, book, pass)?;
        let ids = generator(rt, terms.seed, number)?;
        let seed = table_seed(rt, terms.seed, number)?;
        let Ok(worker) = UdpWorker::new(rt, tally, alloc, listener, terms.asking, seed, terms.start)
        else {
            return Err(CliFault::no_memory());
        };
        let worker = OverUdp {
            pass: own,
            ids,
            worker,
        };
        if workers.push(worker).is_err() {
            return Err(CliFault::no_memory());
        }
    }
    Ok(workers)
}

/// A TCP worker for each listener. Their numbers follow those of the UDP workers.
pub(crate) fn tcp_workers<'a, L: CallLedger, R>(
    rt: &'a R,
    alloc: Global,
    book: &SharedBook<ServiceBook, L>,
    pass: &mut Pass<L>,
    terms: &Terms<'a>,
    tallies: &'a [Tally],
    listeners: Vec<TcpPoll>,
) -> Result<Vec<OverTcp<'a, L, R>>, CliFault>
where
    R: Wait + Clock + Log + RandomSource + Net<Stream = TcpStream>,
    requires { terms.now.udp + terms.now.tcp ≤ MOST_WORKERS }
{
    let mut workers = Vec::new(alloc);
    let numbers = terms.udp..terms.udp + terms.tcp;
    for ((number, tally), listener) in numbers.zip(tallies).zip(listeners) {
        let own = pass_of(rt, book, pass)?;
        let ids = generator(rt, terms.seed, number)?;
        let seed = table_seed(rt, terms.seed, number)?;
        let Ok(worker) = TcpWorker::new(
            rt,
            tally,
            alloc,
            listener,
            terms.shares.connections,
            terms.asking,
            seed,
            terms.start,
        ) else {
            return Err(CliFault::no_memory());
        };
        let worker = OverTcp {
            pass: own,
            ids,
            worker,
        };
        if workers.push(worker).is_err() {
            return Err(CliFault::no_memory());
        }
    }
    Ok(workers)
}

/// Answers queries over UDP until the service stops.
pub(crate) fn run_udp<L: CallLedger, R>(
    rt: &R,
    alloc: Global,
    lent: &Lent<'_, L>,
    over: OverUdp<'_, L, R>,
)
where
    R: Wait + Clock + Log + Net<Stream = TcpStream>,
{
    let OverUdp {
        pass,
        ids,
        mut worker,
    } = over;
    let mut desk = Seat::new(rt, lent.book, pass);
    let clock = MonotonicClock::new(rt, lent.terms.start);
    fly_udp(
        rt,
        alloc,
        &mut desk,
        clock,
        ids,
        &mut worker,
        lent.terms.shares.exchanges,
        lent.stop,
    );
}

/// Answers queries over TCP until the service stops.
pub(crate) fn run_tcp<L: CallLedger, R>(
    rt: &R,
    alloc: Global,
    lent: &Lent<'_, L>,
    over: OverTcp<'_, L, R>,
)
where
    R: Wait + Clock + Log + Net<Stream = TcpStream>,
{
    let OverTcp {
        pass,
        ids,
        mut worker,
    } = over;
    let mut desk = Seat::new(rt, lent.book, pass);
    let clock = MonotonicClock::new(rt, lent.terms.start);
    fly_tcp(
        rt,
        alloc,
        &mut desk,
        clock,
        ids,
        &mut worker,
        lent.terms.shares.exchanges,
        lent.stop,
    );
}
