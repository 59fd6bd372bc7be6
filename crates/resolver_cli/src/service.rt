//! The mode `serve`: workers and a sweeper in threads of their own over one shared book, and operators at the control socket.

ghost use Rattle.std.specs.Prelude.{◌+◌, ◌≤◌, IfOk};
ghost use Rattle.shared_book.specs.declared.kept.TheConstants.{MOST_RECORDED};
ghost use Rattle.resolver_args.specs.declared.mode.TheConstants.{MOST_WORKERS};
ghost use Rattle.resolver_args.specs.Mode.{IsService};
ghost use Rattle.shared_book.specs.Fresh.{CanShare, IsKnownAs};
ghost use Rattle.resolver_cli.specs.Books.{CanShareBoth, IsOpening};

use crate::control_socket::obey_operators;
use crate::first_phase::obey_first;
use crate::gauges::Gauges;
use crate::log_writer::write_often;
use crate::sockets::{Bound, share_descriptors, wake_all};
use crate::sweeper::sweep_often;
use crate::worker::{
    Lent, OverTcp, OverUdp, ServiceBook, Terms, pass_of, run_tcp, run_udp, tcp_workers, udp_workers,
};
use cell_store::NameSeed;
use dns_text::Shared;
use front_workers::{AskingTerms, Waker, ZoneShares};
use history::{Book, MakeFault, Settings};
use log::{Log, info};
use operators::{BookFigures, CliFault, OperatorQueue, ServiceLog, ServiceRuntime, WatchedBook};
use outside::Permits;
use resolver_args::Service;
use shared_book::{Blank, CallLedger, Pass, Seat, SharedBook};
use std::alloc::Global;
use std::marker::Brand;
use std::net::{Net, TcpListener, TcpStream};
use std::random::RandomSource;
use std::rt::{Clock, Files};
use std::sync::Wait;
use std::sync::atomic::{AtomicBool, Ordering};
use std::thread;
use std::thread::Threads;
use std::time::Instant;
use store::ShelfBook;
use system::place_of;

/// The parts of the first pass. Each new pass takes half of what is left, so this bounds the number of passes.
const PARTS: u64 = 1 << 32;

/// The workers of a service, before they begin.
#[derive(Drop)]
struct Workers<'a, L: CallLedger, R: Clock + Log + Net<Stream = TcpStream>> {
    /// The sweeper's place at the book.
    sweeper: Pass<L>,
    udp: Vec<OverUdp<'a, L, R>>,
    tcp: Vec<OverTcp<'a, L, R>>,
    /// The waker of each worker.
    wakers: Vec<Waker>,
}

/// Prints that the service is ready, and obeys operators until one sends `stop`.
fn obey<L: CallLedger, R: Wait + Clock + Log + Print>(
    rt: &R,
    alloc: Global,
    lent: &Lent<'_, L>,
    queue: OperatorQueue<'_, R>,
    pass: Pass<L>,
) -> Result<(), CliFault> {
    info!(rt; "resolver: started");
    if println!(rt; "ready").is_err() {
        return Err(CliFault::failed_write());
    }
    let desk = Seat::thorough(rt, lent.book, pass);
    obey_operators(rt, alloc, lent, queue, desk);
    Ok(())
}

/// Runs the sweeper, the writer of the log and each worker in a thread of its own, and obeys operators in this one. After `stop` it wakes
/// all workers, and waits until the last of them has ended.
fn run<L: CallLedger + Send + Sync, R>(
    rt: &R,
    alloc: Global,
    lent: &Lent<'_, L>,
    workers: Workers<'_, L, R>,
    queue: OperatorQueue<'_, R>,
    pass: Pass<L>,
) -> Result<(), CliFault>
where
    R: Threads
        + Wait
        + Clock
        + Log
        + Print
        + Sync
        + Net<Stream = TcpStream, Listener = TcpListener>,
{
    let Workers {
        sweeper,
        udp,
        wakers,
        tcp,
    } = workers;
    thread::scope(thread::scope_env(), rt, |scope| {
        let mut started = scope.spawn(move || sweep_often(rt, lent, sweeper)).is_ok();
        started &= scope.spawn(move || write_often(rt, lent)).is_ok();
        for worker in udp {
            started &= scope
                .spawn(move || run_udp(rt, alloc, lent, worker))
                .is_ok();
        }
        for worker in tcp {
            started &= scope
                .spawn(move || run_tcp(rt, alloc, lent, worker))
                .is_ok();
        }
        let ended = if started {
            obey(rt, alloc, lent, queue, pass)
        } else {
            // std reports a thread that cannot be started as memory that ran out.
            Err(CliFault::no_memory())
        };
        lent.stop.store(true, Ordering::SeqCst);
        wake_all(wakers.as_slice());
        ended
    })
}

/// Obeys the lines of the file, if there is one, and then serves, unless an operator sent `stop` meanwhile.
fn begin<'a, L: CallLedger + Send + Sync, R, F: Files>(
    rt: &'a R,
    files: &F,
    alloc: Global,
    lent: &Lent<'a, L>,
    workers: Workers<'_, L, R>,
    commands: &Option<String>,
    pass: Pass<L>,
) -> Result<(), CliFault>
where
    R: Threads
        + Wait
        + Clock
        + Log
        + Print
        + Sync
        + Net<Stream = TcpStream, Listener = TcpListener>,
{
    let mut queue = OperatorQueue::new(rt, alloc, &lent.sockets.control);
    match obey_first(rt, files, alloc, lent, commands, &mut queue, pass)? {
        Some(pass) => run(rt, alloc, lent, workers, queue, pass),
        None => Ok(()),
    }
}

/// Serves at these sockets, over two books that have taken no event yet, of which the opening book lags behind. First it obeys the
/// lines of the file, if there is one: queries that arrive meanwhile wait in the sockets.
fn serve_over<L: CallLedger + Send + Sync, R, F: Files>(
    rt: &R,
    files: &F,
    alloc: Global,
    blank: Blank,
    book: ServiceBook,
    opening: ServiceBook,
    record_limit: u64,
    terms: Terms<'_>,
    gauges: &Gauges,
    stop: &AtomicBool,
    bound: Bound,
    commands: &Option<String>,
) -> Result<(), CliFault>
where
    R: Threads
        + Wait
        + Clock
        + Log
        + Print
        + RandomSource
        + Sync
        + Net<Stream = TcpStream, Listener = TcpListener>,
    requires known { IsKnownAs L.name L.parts L.limit L.settings blank record_limit (⟦<WatchedBook<ShelfBook> as Book>⟧.settings book) }
    requires counts { (1 ≤ blank.parts) × ((1 ≤ record_limit) × (record_limit ≤ MOST_RECORDED)) }
    requires few_workers { terms.udp + terms.tcp ≤ MOST_WORKERS }
    requires books { CanShare ⟦<WatchedBook<ShelfBook> as Book>⟧.stands_for ⟦<WatchedBook<ShelfBook> as Book>⟧.settings book opening }
{
    let made = SharedBook::<ServiceBook, L>::new(alloc, blank, book, opening, record_limit);
    let (shared, mut pass) = match made {
        Ok(made) => made,
        Err(MakeFault::NoMemory) => return Err(CliFault::no_memory()),
        Err(MakeFault::BadSettings) => unreachable!(),
    };
    let Bound {
        sockets,
        udp,
        tcp,
        wakers,
    } = bound;
    let workers = Workers {
        sweeper: pass_of(rt, &shared, &mut pass)?,
        udp: udp_workers(rt, alloc, &shared, &mut pass, &terms, &gauges.udp, udp)?,
        tcp: tcp_workers(rt, alloc, &shared, &mut pass, &terms, &gauges.tcp, tcp)?,
        wakers,
    };
    let lent = Lent {
        book: &shared,
        gauges,
        sockets: &sockets,
        stop,
        terms,
    };
    begin(rt, files, alloc, &lent, workers, commands, pass)
}

/// A seed for the hashes of cached names, from the system's randomness. Strangers choose those names: whoever knew the seed
/// could make them collide.
fn drawn_seed<R: RandomSource>(rt: &R) -> Result<NameSeed, CliFault> {
    let mut octets = [0; 16];
    match rt.fill_bytes(&mut octets) {
        Ok(()) => Ok(NameSeed::new(u128::from_le_bytes(octets))),
        Err(_) => Err(CliFault::cannot_start()),
    }
}

/// An opening book to these settings. Nobody reads its figures.
fn opening_of(alloc: Global, settings: &Settings, seed: NameSeed) -> Result<ServiceBook, CliFault>
    ensures { IfOk result (IsOpening ⟦<WatchedBook<ShelfBook> as Book>⟧ settings.now) }
{
    let Ok(figures) = Shared::new(alloc, BookFigures::new(settings)) else {
        return Err(CliFault::no_memory());
    };
    match ShelfBook::lagging_seeded(alloc, settings, seed) {
        Ok(book) => Ok(WatchedBook::new(alloc, book, figures)),
        Err(_) => {
            drop(figures);
            Err(CliFault::no_memory())
        }
    }
}

/// The service's book, which shows its figures, and an opening book to it. Both have taken no event.
fn new_books<R: RandomSource>(
    rt: &R,
    alloc: Global,
    settings: Settings,
    figures: &Shared<BookFigures>,
) -> Result<(ServiceBook, ServiceBook), CliFault>
    ensures { IfOk result (CanShareBoth ⟦<WatchedBook<ShelfBook> as Book>⟧) }
{
    let seed = drawn_seed(rt)?;
    let Ok(figures) = figures.share() else {
        return Err(CliFault::no_memory());
    };
    // The settings are in range, so only memory can be short.
    let opening = opening_of(alloc, &settings, drawn_seed(rt)?)?;
    let Ok(book) = ShelfBook::seeded(alloc, settings, seed) else {
        return Err(CliFault::no_memory());
    };
    Ok((WatchedBook::new(alloc, book, figures), opening))
}

/// The permits of name servers and the shares of zones, for a cache of so many cells.
fn new_limits<R: RandomSource>(
    rt: &R,
    alloc: Global,
    cells: usize,
) -> Result<(Permits, ZoneShares), CliFault> {
    let Ok(permits) = Permits::new(alloc, drawn_seed(rt)?) else {
        return Err(CliFault::no_memory());
    };
    let Ok(shares) = ZoneShares::new(alloc, cells, drawn_seed(rt)?) else {
        return Err(CliFault::no_memory());
    };
    Ok((permits, shares))
}

/// The instant at which a service starts.
fn start_of<R: Clock>(rt: &R) -> Result<Instant, CliFault> {
    match Instant::now(rt) {
        Ok(start) => Ok(start),
        Err(_) => Err(CliFault::cannot_start()),
    }
}

/// Serves at these sockets until an operator sends `stop`.
fn serve_at<R, F: Files>(
    rt: &R,
    files: &F,
    alloc: Global,
    service: Service,
    bound: Bound,
    gauges: &Gauges,
) -> Result<(), CliFault>
where
    R: Threads
        + Wait
        + Clock
        + Log
        + Print
        + RandomSource
        + Sync
        + Net<Stream = TcpStream, Listener = TcpListener>,
    requires { IsService service }
{
    let start = start_of(rt)?;
    let (permits, zone_shares) = new_limits(rt, alloc, service.settings.cells)?;
    // Moved out of the settings, since the terms borrow it while others are moved.
    let do_not_query = service.do_not_query;
    let (udp, tcp) = (service.udp, service.tcp);
    let shares = share_descriptors(alloc, &bound.sockets.control, udp, tcp)?;
    let terms = Terms {
        place: place_of(&service.listen),
        udp,
        tcp,
        seed: service.seed,
        shares,
        asking: AskingTerms {
            server_port: service.settings.server_port,
            do_not_query: do_not_query.as_slice(),
            permits: &permits,
            shares: &zone_shares,
            renewals: &gauges.book.get().renewals,
        },
        start,
    };
    let record_limit = service.record_limit;
    let (book, opening) = new_books(rt, alloc, service.settings, &gauges.book)?;
    let stop = AtomicBool::new(false);
    serve_over::<Brand, R, F>(
        rt,
        files,
        alloc,
        Blank::new(PARTS),
        book,
        opening,
        record_limit,
        terms,
        gauges,
        &stop,
        bound,
        &service.commands,
    )
}

/// Binds the sockets, and serves until an operator sends `stop`.
fn serve<R, F: Files>(rt: &R, files: &F, alloc: Global, service: Service) -> Result<(), CliFault>
where
    R: Threads
        + Wait
        + Clock
        + Log
        + Print
        + RandomSource
        + Sync
        + Net<Stream = TcpStream, Listener = TcpListener>,
    requires { IsService service }
{
    let bound = Bound::new(
        rt,
        alloc,
        &service.listen,
        &service.control,
        service.udp,
        service.tcp,
        service.backlog,
    )?;
    let Ok(gauges) = Gauges::new(alloc, service.udp, service.tcp, &service.settings) else {
        return Err(CliFault::no_memory());
    };
    serve_at(rt, files, alloc, service, bound, &gauges)
}

/// Serves until an operator sends `stop`, with its log on standard error.
pub(crate) fn serve_and_log<R>(rt: &R, alloc: Global, service: Service) -> Result<(), CliFault>
where
    R: Threads
        + Wait
        + Clock
        + Files
        + Print
        + Eprint
        + RandomSource
        + Sync
        + Net<Stream = TcpStream, Listener = TcpListener>,
    requires { IsService service }
{
    let start = start_of(rt)?;
    let Ok(log) = ServiceLog::new(rt, alloc, start) else {
        return Err(CliFault::no_memory());
    };
    let logged = ServiceRuntime::new(rt, &log);
    let served = serve(&logged, rt, alloc, service);
    if served.is_ok() {
        log.finish();
        info!(logged; "resolver: stopped");
    }
    // All other threads have ended.
    logged.flush();
    served
}
