//! Modes of the program, with their settings.

ghost use Rattle.std.specs.Prelude.{◌≡◌, ◌↔◌, ◌<◌, ◌^◌, IsTrue, IsSome, IfOk, IfErr, IfSome};
ghost use Rattle.history.specs.Event.{AreSettings};
ghost use Rattle.resolver_args.specs.Blame.{BlamesHints, BlamesCount, CannotRun};
ghost use Rattle.resolver_args.specs.Mode.{IsLoopback, HasCounts, IsService, settings_with};

use crate::fault::{ArgsFault, BadArgument};
use dns_text::{Addr, Ip, Items};
use history::{MOST_CELLS, MOST_COMMANDS, MOST_HINTS, Settings};
use shared_book::MOST_RECORDED;
use system::AddressRange;

/// A mode of the program.
#[derive(Drop)]
pub enum Mode {
    /// Obeys the lines of standard input.
    Script(Settings),
    /// Answers queries until an operator stops it.
    Serve(Service),
    /// Sends a service one line, or each line of standard input, and waits for each reply for so many seconds.
    Control {
        addr: Addr,
        seconds: u32,
        line: Option<String>,
    },
}

/// The settings of a service.
#[derive(Drop)]
pub struct Service {
    /// The settings of its cache.
    pub settings: Settings,
    /// The address on which queries arrive, over UDP and TCP.
    pub listen: Addr,
    /// The address of the control socket, on which an operator's lines arrive.
    pub control: Addr,
    /// The number of UDP workers.
    pub udp: u8,
    /// The number of TCP workers.
    pub tcp: u8,
    /// The most TCP connections that wait to be accepted.
    pub backlog: u16,
    /// The length of the call log, in calls.
    pub record_limit: u64,
    /// The seed of the query IDs, if they are not to come from the system's randomness.
    pub seed: Option<u32>,
    /// The path of a file of lines to obey before the first query is answered.
    pub commands: Option<String>,
    /// The addresses that are queried only as those of stubs or hints.
    pub do_not_query: Items<AddressRange>,
}

/// The most workers, UDP and TCP together.
pub const MOST_WORKERS: u8 = 16;

/// The most connections that a service may let wait to be accepted.
pub(crate) const MOST_BACKLOG: u16 = 65_535;

/// These settings, if each number is in its range.
pub(crate) fn settings_of(
    journal: u32,
    cells: u32,
    hints: Items<Addr>,
    server_port: u32,
) -> Option<Settings>
    ensures some { IsSome result ↔ (AreSettings (settings_with journal cells hints server_port) × (server_port < 2 ^ 16)) }
    ensures value { IfSome result (λ settings. settings ≡ settings_with journal cells hints server_port) }
{
    let settings = Settings {
        journal: journal as usize,
        cells: cells as usize,
        hints,
        server_port: u16::try_from(server_port).ok()?,
    };
    let has_journal = settings.journal >= 1 && settings.journal <= MOST_COMMANDS;
    let has_cells = settings.cells >= 1 && settings.cells <= MOST_CELLS;
    let has_hints = settings.hints.as_slice().len() <= MOST_HINTS;
    if has_journal && has_cells && has_hints && settings.server_port >= 1 {
        Some(settings)
    } else {
        None
    }
}

/// The number that does not fit, of settings with so many hints. `clap` holds the others to their ranges.
pub(crate) fn misfit_of(hints: usize) -> BadArgument
    ensures { BlamesHints hints result }
{
    if hints > MOST_HINTS {
        return BadArgument::ManyHints(hints);
    }
    BadArgument::Unfit("--journal, --cells or --server-port")
}

/// Whether only this machine can send to the address.
fn is_loopback(ip: &Ip) -> bool
    ensures { IsTrue result ↔ IsLoopback ip.now }
{
    match ip {
        Ip::V4(octets) => octets[0] == 127,
        Ip::V6(octets) => *octets == [0, 0, 0, 0, 0, 0, 0, 0, 0, 0, 0, 0, 0, 0, 0, 1],
    }
}

impl Service {
    /// Whether there is a hint, and each number is in its range.
    fn has_counts(&self) -> bool
        ensures { IsTrue result ↔ HasCounts self.now }
    {
        let has_hints = !self.settings.hints.as_slice().is_empty();
        let has_each = self.udp >= 1 && self.tcp >= 1;
        let has_few = u16::from(self.udp) + u16::from(self.tcp) <= u16::from(MOST_WORKERS);
        let has_backlog = self.backlog >= 1;
        let has_record = self.record_limit >= 1 && self.record_limit <= MOST_RECORDED;
        has_hints && has_each && has_few && has_backlog && has_record
    }

    /// The number that does not fit, if not all of them do.
    fn misfit(&self) -> BadArgument
        ensures { BlamesCount self.now result }
    {
        if self.settings.hints.as_slice().is_empty() {
            return BadArgument::NoHint;
        }
        let (udp, tcp) = (self.udp, self.tcp);
        if u16::from(udp) + u16::from(tcp) > u16::from(MOST_WORKERS) {
            return BadArgument::ManyWorkers { udp, tcp };
        }
        BadArgument::Unfit("--udp, --tcp, --backlog or --record")
    }

    /// Returns the service if it can run. Checks its numbers before its control address.
    pub(crate) fn checked(self) -> Result<Service, ArgsFault>
        requires { AreSettings self.settings }
        ensures same { IfOk result (λ service. service ≡ self) }
        ensures fit { IfOk result IsService }
        ensures fault { IfErr result (CannotRun self) }
    {
        if !self.has_counts() {
            return Err(ArgsFault::BadArguments(self.misfit()));
        }
        if !is_loopback(&self.control.ip) {
            return Err(ArgsFault::NotLoopback);
        }
        Ok(self)
    }
}
