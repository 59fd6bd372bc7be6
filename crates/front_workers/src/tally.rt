//! The counters of a worker that others read while it works.

use dns_query::Over;
use std::sync::atomic::{AtomicBool, AtomicU64, Ordering};

/// The counters of one worker. Only the worker adds to them. Anyone reads them, without a lock, so neither waits.
#[derive(Drop)]
pub struct Tally {
    queries: AtomicU64,
    hits: AtomicU64,
    misses: AtomicU64,
    dropped: AtomicU64,
    exceeded: AtomicU64,
    no_error: AtomicU64,
    format_error: AtomicU64,
    server_failure: AtomicU64,
    name_error: AtomicU64,
    not_implemented: AtomicU64,
    refused: AtomicU64,
    udp_out: AtomicU64,
    tcp_out: AtomicU64,
    answered: AtomicU64,
    unanswered: AtomicU64,
    /// Whether the query that was taken last wanted a name server.
    wants_server: AtomicBool,
    /// Whether the query that was taken last is neither a hit nor a miss yet.
    unsorted: AtomicBool,
    /// Keeps the counters of two workers out of one line of a processor's cache.
    apart: [u64; 16],
}

/// The sums of the counters of several workers.
#[derive(Clone, Copy)]
pub struct Sums {
    /// The queries that were taken.
    pub queries: u64,
    /// The queries for which no name server was asked.
    pub hits: u64,
    /// The queries for which a name server was asked, or would have been if an exchange had been free.
    pub misses: u64,
    /// The queries that got no reply.
    pub dropped: u64,
    /// The queries that got SERVFAIL because no exchange was free, or because they took too long or kept too much.
    pub exceeded: u64,
    /// The replies with RCODE 0.
    pub no_error: u64,
    /// The replies with RCODE 1.
    pub format_error: u64,
    /// The replies with RCODE 2.
    pub server_failure: u64,
    /// The replies with RCODE 3.
    pub name_error: u64,
    /// The replies with RCODE 4.
    pub not_implemented: u64,
    /// The replies with RCODE 5.
    pub refused: u64,
    /// The exchanges over UDP that were begun, or tried in vain to begin.
    pub udp_out: u64,
    /// The same over TCP.
    pub tcp_out: u64,
    /// The exchanges that brought a response.
    pub answered: u64,
    /// The exchanges that ended without one.
    pub unanswered: u64,
}

/// Counts one more.
fn rise(counter: &AtomicU64) {
    let _ = counter.fetch_add(1, Ordering::SeqCst);
}

/// Adds what a counter has to a sum, which stops at 2^64 - 1.
fn sum_up(sum: &mut u64, counter: &AtomicU64) {
    *sum = sum.saturating_add(counter.load(Ordering::SeqCst));
}

impl Sums {
    /// The sums of no worker.
    pub fn new() -> Sums {
        Sums {
            queries: 0,
            hits: 0,
            misses: 0,
            dropped: 0,
            exceeded: 0,
            no_error: 0,
            format_error: 0,
            server_failure: 0,
            name_error: 0,
            not_implemented: 0,
            refused: 0,
            udp_out: 0,
            tcp_out: 0,
            answered: 0,
            unanswered: 0,
        }
    }

    /// The replies, whatever their RCODE.
    pub fn replies(&self) -> u64 {
        self.no_error
            .saturating_add(self.format_error)
            .saturating_add(self.server_failure)
            .saturating_add(self.name_error)
            .saturating_add(self.not_implemented)
            .saturating_add(self.refused)
    }

    /// The queries that still wait for their reply.
    pub fn waiting(&self) -> u64 {
        let ended = self.replies().saturating_add(self.dropped);
        self.queries.saturating_sub(ended)
    }

    /// The exchanges that have not ended.
    pub fn under_way(&self) -> u64 {
        let ended = self.answered.saturating_add(self.unanswered);
        let begun = self.udp_out.saturating_add(self.tcp_out);
        begun.saturating_sub(ended)
    }
}

impl Tally {
    /// All counters at zero.
    pub fn new() -> Tally {
        Tally {
            queries: AtomicU64::new(0),
            hits: AtomicU64::new(0),
            misses: AtomicU64::new(0),
            dropped: AtomicU64::new(0),
            exceeded: AtomicU64::new(0),
            no_error: AtomicU64::new(0),
            format_error: AtomicU64::new(0),
            server_failure: AtomicU64::new(0),
            name_error: AtomicU64::new(0),
            not_implemented: AtomicU64::new(0),
            refused: AtomicU64::new(0),
            udp_out: AtomicU64::new(0),
            tcp_out: AtomicU64::new(0),
            answered: AtomicU64::new(0),
            unanswered: AtomicU64::new(0),
            wants_server: AtomicBool::new(false),
            unsorted: AtomicBool::new(false),
            apart: [0; 16],
        }
    }

    /// Counts a query that was taken.
    pub fn take(&self) {
        self.wants_server.store(false, Ordering::SeqCst);
        self.unsorted.store(true, Ordering::SeqCst);
        rise(&self.queries);
    }

    /// Counts the query that was taken last as a hit or as a miss, unless that was done: once it waits for a name server, or before its
    /// reply leaves.
    pub fn count_hit_or_miss(&self) {
        if !self.unsorted.load(Ordering::SeqCst) {
            return;
        }
        self.unsorted.store(false, Ordering::SeqCst);
        if self.wants_server.load(Ordering::SeqCst) {
            rise(&self.misses);
        } else {
            rise(&self.hits);
        }
    }

    /// Counts a query that gets no reply.
    pub fn pass_over(&self) {
        rise(&self.dropped);
    }

    /// Counts a query that gets SERVFAIL because no exchange is free, or because it took too long or kept too much.
    pub fn exceed(&self) {
        self.wants_server.store(true, Ordering::SeqCst);
        rise(&self.exceeded);
    }

    /// Counts a reply that is about to leave, by the RCODE in its header (RFC 1035, section 4.1.1).
    pub fn reply(&self, reply: &[u8]) {
        self.count_hit_or_miss();
        let Some(octet) = reply.get(3) else {
            return;
        };
        match *octet & 15 {
            0 => rise(&self.no_error),
            1 => rise(&self.format_error),
            2 => rise(&self.server_failure),
            3 => rise(&self.name_error),
            4 => rise(&self.not_implemented),
            _ => rise(&self.refused),
        }
    }

    /// Counts an exchange that begins, or tries to.
    pub fn ask(&self, over: Over) {
        self.wants_server.store(true, Ordering::SeqCst);
        match over {
            Over::Udp => rise(&self.udp_out),
            Over::Tcp => rise(&self.tcp_out),
        }
    }

    /// Notes that the query that was taken last wants a name server, but waits before it is asked.
    pub fn put_off(&self) {
        self.wants_server.store(true, Ordering::SeqCst);
    }

    /// Counts an exchange that brought a response.
    pub fn answer(&self) {
        rise(&self.answered);
    }

    /// Counts an exchange that ended without a response.
    pub fn give_up(&self) {
        rise(&self.unanswered);
    }

    /// Adds the counters to these sums. What ended is read before what began, so that no more seems to have ended than began.
    pub fn add_to(&self, sums: &mut Sums) {
        sum_up(&mut sums.answered, &self.answered);
        sum_up(&mut sums.unanswered, &self.unanswered);
        sum_up(&mut sums.udp_out, &self.udp_out);
        sum_up(&mut sums.tcp_out, &self.tcp_out);
        sum_up(&mut sums.dropped, &self.dropped);
        sum_up(&mut sums.exceeded, &self.exceeded);
        sum_up(&mut sums.no_error, &self.no_error);
        sum_up(&mut sums.format_error, &self.format_error);
        sum_up(&mut sums.server_failure, &self.server_failure);
        sum_up(&mut sums.name_error, &self.name_error);
        sum_up(&mut sums.not_implemented, &self.not_implemented);
        sum_up(&mut sums.refused, &self.refused);
        sum_up(&mut sums.hits, &self.hits);
        sum_up(&mut sums.misses, &self.misses);
        sum_up(&mut sums.queries, &self.queries);
    }
}
