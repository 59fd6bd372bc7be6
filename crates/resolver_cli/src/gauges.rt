//! What an operator can read of a service while it runs: the replies to `status` and `stats`.

use dns_text::Shared;
use front_workers::{Sums, Tally};
use history::Settings;
use operators::{BookFigures, read_figure};
use resolver_args::VERSION;
use std::alloc::{AllocError, Global};
use std::sync::atomic::AtomicU64;

/// The counters and figures of a service. Anyone reads them, and nobody waits for that.
#[derive(Drop)]
pub(crate) struct Gauges {
    /// The counters of each UDP worker.
    pub udp: Vec<Tally>,
    /// The counters of each TCP worker.
    pub tcp: Vec<Tally>,
    /// The figures of its book.
    pub book: Shared<BookFigures>,
    /// The lines that operators have sent, without empty lines and comments.
    pub lines: AtomicU64,
}

/// The counters of so many workers.
fn tallies(alloc: Global, count: u8) -> Result<Vec<Tally>, AllocError> {
    let mut tallies = Vec::new(alloc);
    for _ in 0..count {
        tallies.push(Tally::new())?;
    }
    Ok(tallies)
}

/// Adds the counters of workers to sums.
fn add_each(tallies: &[Tally], sums: &mut Sums) {
    for tally in tallies {
        tally.add_to(sums);
    }
}

/// Writes a line for each counter: its name, `=` and its value.
fn push_each(
    alloc: Global,
    out: &mut String,
    counters: &[(&'static str, u64)],
) -> Result<(), AllocError> {
    for (name, value) in counters {
        out.push_str(format!(in alloc; "{name}={value}\n")?.as_str())?;
    }
    Ok(())
}

/// The counters of queries.
fn queries_of(sums: &Sums) -> [(&'static str, u64); 6] {
    [
        ("total.num.queries", sums.queries),
        ("total.num.cachehits", sums.hits),
        ("total.num.cachemiss", sums.misses),
        ("total.num.dropped", sums.dropped),
        ("total.requestlist.exceeded", sums.exceeded),
        ("total.requestlist.current.all", sums.waiting()),
    ]
}

/// The counters of replies, by RCODE.
fn replies_of(sums: &Sums) -> [(&'static str, u64); 6] {
    [
        ("num.answer.rcode.NOERROR", sums.no_error),
        ("num.answer.rcode.FORMERR", sums.format_error),
        ("num.answer.rcode.SERVFAIL", sums.server_failure),
        ("num.answer.rcode.NXDOMAIN", sums.name_error),
        ("num.answer.rcode.NOTIMPL", sums.not_implemented),
        ("num.answer.rcode.REFUSED", sums.refused),
    ]
}

/// The counters of exchanges with name servers.
fn exchanges_of(sums: &Sums) -> [(&'static str, u64); 5] {
    [
        ("num.query.udpout", sums.udp_out),
        ("num.query.tcpout", sums.tcp_out),
        ("num.exchange.answered", sums.answered),
        ("num.exchange.unanswered", sums.unanswered),
        ("num.exchange.current", sums.under_way()),
    ]
}

/// The figures of a book.
fn figures_of(book: &BookFigures) -> [(&'static str, u64); 10] {
    [
        ("cache.cells", read_figure(&book.cells)),
        ("cache.cells.max", book.most_cells),
        ("cache.full", read_figure(&book.full)),
        ("cache.forgotten", read_figure(&book.forgotten)),
        ("local.zones", read_figure(&book.zones)),
        ("local.records", read_figure(&book.records)),
        ("stubs", read_figure(&book.stubs)),
        ("commands.done", read_figure(&book.done)),
        ("commands.undone", read_figure(&book.undone)),
        ("commands.digest", read_figure(&book.digest)),
    ]
}

impl Gauges {
    /// The gauges of a service with so many workers that has done nothing yet.
    pub fn new(alloc: Global, udp: u8, tcp: u8, settings: &Settings) -> Result<Gauges, AllocError> {
        Ok(Gauges {
            udp: tallies(alloc, udp)?,
            tcp: tallies(alloc, tcp)?,
            book: Shared::new(alloc, BookFigures::new(settings))?,
            lines: AtomicU64::new(0),
        })
    }

    /// The reply to `stats`, so many seconds after the start.
    pub fn stats(&self, alloc: Global, seconds: u64) -> Result<String, AllocError> {
        let mut sums = Sums::new();
        add_each(&self.tcp, &mut sums);
        let over_tcp = sums.queries;
        add_each(&self.udp, &mut sums);
        let mut out = String::new(alloc);
        push_each(alloc, &mut out, &queries_of(&sums))?;
        push_each(alloc, &mut out, &[("num.query.tcp", over_tcp)])?;
        push_each(alloc, &mut out, &replies_of(&sums))?;
        push_each(alloc, &mut out, &exchanges_of(&sums))?;
        push_each(alloc, &mut out, &figures_of(self.book.get()))?;
        push_each(
            alloc,
            &mut out,
            &[
                ("control.lines", read_figure(&self.lines)),
                ("time.up", seconds),
            ],
        )?;
        out.push_str("end\n")?;
        Ok(out)
    }

    /// The part of the reply to `status` that says what the book holds.
    fn holdings(&self, alloc: Global) -> Result<String, AllocError> {
        let book = self.book.get();
        let cells = read_figure(&book.cells);
        let forgotten = read_figure(&book.forgotten);
        let zones = read_figure(&book.zones);
        let records = read_figure(&book.records);
        let stubs = read_figure(&book.stubs);
        let mut out = format!(in alloc;
            "cells: {cells} of {}\nforgotten: {forgotten}\n",
            book.most_cells
        )?;
        out.push_str(format!(in alloc;
            "zones: {zones}\nrecords: {records}\nstubs: {stubs}\n"
        )?.as_str())?;
        let done = read_figure(&book.done);
        let undone = read_figure(&book.undone);
        let most = book.most_commands;
        out.push_str(format!(in alloc;
            "commands: {done} done, {undone} undone, {most} at most\n"
        )?.as_str())?;
        let ticket = read_figure(&book.ticket);
        let digest = read_figure(&book.digest);
        out.push_str(format!(in alloc; "ticket: {ticket}\ndigest: {digest}\n")?.as_str())?;
        Ok(out)
    }

    /// The reply to `status`, so many seconds after the start.
    pub fn status(&self, alloc: Global, seconds: u64) -> Result<String, AllocError> {
        let (udp, tcp) = (self.udp.len(), self.tcp.len());
        let mut sums = Sums::new();
        add_each(&self.tcp, &mut sums);
        add_each(&self.udp, &mut sums);
        let mut out = format!(in alloc; "version: {VERSION}\nuptime: {seconds} seconds\n")?;
        out.push_str(format!(in alloc; "workers: {udp} over UDP, {tcp} over TCP\n")?.as_str())?;
        out.push_str(self.holdings(alloc)?.as_str())?;
        let waiting = sums.waiting();
        out.push_str(format!(in alloc; "queries: {waiting} under way\nend\n")?.as_str())?;
        Ok(out)
    }
}
