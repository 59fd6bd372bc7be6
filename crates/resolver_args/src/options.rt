//! Subcommands of the program and their options, as `clap` reads them and as help shows them.

ghost use Rattle.std.specs.Prelude.{◌≡◌, false, IfOk};
ghost use Rattle.clap.specs.declared.builder.command.Command.TheViews.{out-Command as fields_of};
ghost use Rattle.clap.specs.Walk.{rule_of};
ghost use Rattle.clap.specs.Simple.{app_of, shape_of};
ghost use Rattle.resolver_args.specs.CommandLine.{AddsRules, option_rule, number_rule, count_rule};
ghost use Rattle.resolver_args.specs.CommandLine.{limit_rules, server_rules, patience_rules, line_rules};
ghost use Rattle.resolver_args.specs.CommandLine.{address_rules, file_rules, worker_rules, record_rules};
ghost use Rattle.resolver_args.specs.CommandLine.{script_shape, serve_shape, control_shape, resolver_app};

use crate::mode::{MOST_BACKLOG, MOST_WORKERS};
use clap::builder::ValueParser;
use clap::{Arg, ArgAction, Command};
use command_text::{Channel, help_text};
use history::{MOST_CELLS, MOST_COMMANDS};
use shared_book::MOST_RECORDED;
use std::alloc::{AllocError, Global};

/// The last part of the help on a subcommand: the lines that it takes.
#[derive(Drop)]
pub(crate) struct LinesHelp {
    script: String,
    control: String,
}

impl LinesHelp {
    /// The lines of each channel.
    pub fn new(alloc: Global) -> Result<LinesHelp, AllocError> {
        Ok(LinesHelp {
            script: lines_of(alloc, Channel::Script)?,
            control: lines_of(alloc, Channel::Control)?,
        })
    }
}

/// The lines of a channel, as help shows them.
fn lines_of(alloc: Global, channel: Channel) -> Result<String, AllocError> {
    let mut text = String::from_str(alloc, "Lines:\n")?;
    let lines = help_text(alloc, channel)?;
    text.push_str(lines.as_str())?;
    Ok(text)
}

/// The version of the program. CHANGELOG.md lists what came with it.
pub const VERSION: &str = "0.1.0";

/// The last part of the help on `serve`.
const SERVE_HELP: &str = "\
This service is for trials, not for production: there is no access list, and a few clients can hold all TCP workers.
The line `stop` on the control socket ends the service.";

/// The default of `--journal`.
pub const DEFAULT_JOURNAL: u32 = 64;

/// `DEFAULT_JOURNAL` as text.
const JOURNAL_TEXT: &str = "64";

/// The default of `--cells`.
pub const DEFAULT_CELLS: u32 = 100_000;

/// `DEFAULT_CELLS` as text.
const CELLS_TEXT: &str = "100000";

/// The default of `--server-port`, the port of DNS (RFC 1035, section 4.2).
pub const DEFAULT_SERVER_PORT: u32 = 53;

/// `DEFAULT_SERVER_PORT` as text.
const SERVER_PORT_TEXT: &str = "53";

/// The default of `--udp` and of `--tcp`.
pub const DEFAULT_WORKERS: u32 = 1;

/// `DEFAULT_WORKERS` as text.
const WORKERS_TEXT: &str = "1";

/// The default of `--backlog`, as unbound has it.
pub const DEFAULT_BACKLOG: u32 = 256;

/// `DEFAULT_BACKLOG` as text.
const BACKLOG_TEXT: &str = "256";

/// The default of `--record`.
pub const DEFAULT_RECORD: u32 = 10_000;

/// `DEFAULT_RECORD` as text.
const RECORD_TEXT: &str = "10000";

/// The default of `--seconds`. A service gets to an operator within seconds, and replies in less.
pub const DEFAULT_SECONDS: u32 = 10;

/// `DEFAULT_SECONDS` as text.
const SECONDS_TEXT: &str = "10";

/// The most seconds that `control` waits: a day.
const MOST_SECONDS: u32 = 86_400;

/// The greatest port.
const MOST_PORT: u32 = 65_535;

/// An option with a value.
fn option<'a>(alloc: Global, name: &'a str, value: &'a str, help: &'a str) -> Arg<'a>
    ensures rule { rule_of result ≡ option_rule name.now }
    ensures local { result.global ≡ false }
{
    Arg::new(alloc, name)
        .long(name)
        .value_name(value)
        .help(help)
        .action(ArgAction::Set)
}

/// An option with a number in a range.
fn number<'a>(alloc: Global, name: &'a str, least: u32, most: u32, help: &'a str) -> Arg<'a>
    ensures rule { rule_of result ≡ number_rule name.now least most }
    ensures local { result.global ≡ false }
{
    option(alloc, name, "N", help).value_parser(ValueParser::Signed(
        i64::from(least),
        i64::from(most),
    ))
}

/// An option with a number from 1 on, and with a default.
fn count<'a>(alloc: Global, name: &'a str, default: &'a str, most: u32, help: &'a str) -> Arg<'a>
    ensures rule { rule_of result ≡ count_rule name.now default.now most }
    ensures local { result.global ≡ false }
{
    number(alloc, name, 1, most, help).default_value(default)
}

/// The options on the size of the cache and of the journal.
fn with_limits<'a>(alloc: Global, command: Command<'a>) -> Result<Command<'a>, AllocError>
    ensures { IfOk result (AddsRules command.entry limit_rules) }
{
    let journal = count(
        alloc,
        "journal",
        JOURNAL_TEXT,
        MOST_COMMANDS as u32,
        "The number of commands that can be undone, 1 to 256",
    );
    let cells = count(
        alloc,
        "cells",
        CELLS_TEXT,
        MOST_CELLS as u32,
        "The most sets and negative answers that the cache holds, 1 to 1000000",
    );
    command.arg(journal)?.arg(cells)
}

/// The arguments on name servers: their port, and the root servers.
fn with_servers<'a>(
    alloc: Global,
    command: Command<'a>,
    help: &'a str,
) -> Result<Command<'a>, AllocError>
    ensures { IfOk result (AddsRules command.entry server_rules) }
{
    let port = count(
        alloc,
        "server-port",
        SERVER_PORT_TEXT,
        MOST_PORT,
        "The port of the name servers that the cache knows, 1 to 65535",
    );
    let hints = Arg::new(alloc, "HINT")
        .help(help)
        .action(ArgAction::Append)
        .num_args(0..);
    command.arg(port)?.arg(hints)
}

/// The addresses at which a service listens, and those that it leaves alone.
fn with_addresses<'a>(alloc: Global, command: Command<'a>) -> Result<Command<'a>, AllocError>
    ensures { IfOk result (AddsRules command.entry address_rules) }
{
    let listen = option(
        alloc,
        "listen",
        "ADDR",
        "The address on which queries arrive, over UDP and TCP: IP@PORT, or IP for port 53",
    )
    .required(true);
    let control = option(
        alloc,
        "control",
        "ADDR",
        "The address of the control socket, in 127.0.0.0/8 or ::1: IP@PORT, or IP for port 53",
    )
    .required(true);
    let ranges = option(
        alloc,
        "do-not-query",
        "RANGE",
        "Addresses to query only if a stub or a hint has them: IP/BITS, or IP for one address; may be repeated",
    )
    .action(ArgAction::Append);
    command.arg(listen)?.arg(control)?.arg(ranges)
}

/// The file of a service's first lines.
fn with_file<'a>(alloc: Global, command: Command<'a>) -> Result<Command<'a>, AllocError>
    ensures { IfOk result (AddsRules command.entry file_rules) }
{
    let file = option(
        alloc,
        "commands",
        "FILE",
        "A file of lines to obey before `ready`, as the control socket would; a refused line ends the start",
    );
    command.arg(file)
}

/// The workers of a service, and the connections that wait for them.
fn with_workers<'a>(alloc: Global, command: Command<'a>) -> Result<Command<'a>, AllocError>
    ensures { IfOk result (AddsRules command.entry worker_rules) }
{
    let udp = count(
        alloc,
        "udp",
        WORKERS_TEXT,
        u32::from(MOST_WORKERS),
        "The number of UDP workers, at least 1, and with the TCP workers at most 16",
    );
    let tcp = count(
        alloc,
        "tcp",
        WORKERS_TEXT,
        u32::from(MOST_WORKERS),
        "The number of TCP workers, at least 1",
    );
    let backlog = count(
        alloc,
        "backlog",
        BACKLOG_TEXT,
        u32::from(MOST_BACKLOG),
        "The most TCP connections that wait to be accepted, 1 to 65535; the system may allow fewer",
    );
    command.arg(udp)?.arg(tcp)?.arg(backlog)
}

/// The call log of a service, and the seed of its query IDs.
fn with_record<'a>(alloc: Global, command: Command<'a>) -> Result<Command<'a>, AllocError>
    ensures { IfOk result (AddsRules command.entry record_rules) }
{
    let record = count(
        alloc,
        "record",
        RECORD_TEXT,
        MOST_RECORDED as u32,
        "The length of the call log, 1 to 1000000 calls",
    );
    let seed = number(
        alloc,
        "seed",
        0,
        u32::MAX,
        "For trials: draws the query IDs from this number, 0 to 4294967295, instead of the system's randomness",
    );
    command.arg(record)?.arg(seed)
}

/// The subcommand `script`. Its help ends with these lines.
fn script_command<'a>(alloc: Global, lines: &'a str) -> Result<Command<'a>, AllocError>
    ensures shape { IfOk result (λ command. shape_of command ≡ script_shape) }
    ensures local { IfOk result (λ command. (fields_of command).has_globals ≡ false) }
{
    let command = Command::new(alloc, "script")
        .about("Obeys the lines of standard input, and writes the reply to each")
        .after_help(lines);
    let command = with_limits(alloc, command)?;
    with_servers(
        alloc,
        command,
        "The addresses of the root servers, each IP@PORT, or IP for port 53; at most 16",
    )
}

/// The subcommand `serve`.
fn serve_command<'a>(alloc: Global) -> Result<Command<'a>, AllocError>
    ensures shape { IfOk result (λ command. shape_of command ≡ serve_shape) }
    ensures local { IfOk result (λ command. (fields_of command).has_globals ≡ false) }
{
    let command = Command::new(alloc, "serve")
        .about("Answers queries over UDP and TCP, and obeys an operator's lines")
        .after_help(SERVE_HELP);
    let command = with_addresses(alloc, command)?;
    let command = with_file(alloc, command)?;
    let command = with_workers(alloc, command)?;
    let command = with_limits(alloc, command)?;
    let command = with_record(alloc, command)?;
    with_servers(
        alloc,
        command,
        "The addresses of the root servers, each IP@PORT, or IP for port 53; 1 to 16",
    )
}

/// The time that a client has patience with a service.
fn with_patience<'a>(alloc: Global, command: Command<'a>) -> Result<Command<'a>, AllocError>
    ensures { IfOk result (AddsRules command.entry patience_rules) }
{
    let seconds = count(
        alloc,
        "seconds",
        SECONDS_TEXT,
        MOST_SECONDS,
        "The most seconds to wait for a connection, and then for a reply, 1 to 86400",
    );
    command.arg(seconds)
}

/// The address of a service, and a line for it.
fn with_line<'a>(alloc: Global, command: Command<'a>) -> Result<Command<'a>, AllocError>
    ensures { IfOk result (AddsRules command.entry line_rules) }
{
    let addr = Arg::new(alloc, "ADDR")
        .help("The control address of the service: IP@PORT, or IP for port 53")
        .required(true);
    let line = Arg::new(alloc, "LINE")
        .help("The line. Its words may be separate arguments")
        .action(ArgAction::Append)
        .num_args(0..)
        .trailing_var_arg(true);
    command.arg(addr)?.arg(line)
}

/// The subcommand `control`. Its help ends with these lines.
fn control_command<'a>(alloc: Global, lines: &'a str) -> Result<Command<'a>, AllocError>
    ensures shape { IfOk result (λ command. shape_of command ≡ control_shape) }
    ensures local { IfOk result (λ command. (fields_of command).has_globals ≡ false) }
{
    let command = Command::new(alloc, "control")
        .about("Sends a service one line, or each line of standard input, and writes the replies")
        .after_help(lines);
    let command = with_patience(alloc, command)?;
    with_line(alloc, command)
}

/// The program with its subcommands. It is called `resolver`, whatever its file is called.
pub(crate) fn command<'a>(alloc: Global, lines: &'a LinesHelp) -> Result<Command<'a>, AllocError>
    ensures { IfOk result (λ command. app_of command ≡ resolver_app) }
{
    Command::new(alloc, "resolver")
        .bin_name("resolver")?
        .version(VERSION)
        .subcommand_required(true)
        .subcommand(script_command(alloc, lines.script.as_str())?)?
        .subcommand(serve_command(alloc)?)?
        .subcommand(control_command(alloc, lines.control.as_str())?)
}
