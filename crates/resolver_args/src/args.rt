//! The mode that the arguments give.

ghost use Rattle.std.specs.Prelude.{◌≡◌, ◌≢◌, ◌⊎◌, ◌∷◌, None, Some, map, option_map, codes, IfOk, IfErr};
ghost use Rattle.std.specs.List.{join_with_byte};
ghost use Rattle.clap.specs.Simple.{subcommand_rows_of};
ghost use Rattle.clap.specs.Values.{kind_of};
ghost use Rattle.clap.specs.declared.error.kind.ErrorKind.TheVariants.{OutOfMemory};
ghost use Rattle.history.specs.Event.{AreSettings};
ghost use Rattle.resolver_args.specs.declared.mode.Mode.TheVariants.{Control, Serve};
ghost use Rattle.resolver_args.specs.declared.fault.ArgsFault.TheVariants.{NoMemory};
ghost use Rattle.resolver_args.specs.Given.{GivesAddr, GivesAddrs, GivesLine, GivesNumber, GivesText, rows_in};
ghost use Rattle.resolver_args.specs.Given.{GivesEach, LacksAddr, LacksAddrs, LacksEach, LacksNumber, LacksOption, MayGive};
ghost use Rattle.resolver_args.specs.Mode.{HasNumbers, IsLoopback};
ghost use Rattle.resolver_args.specs.Ranges.{range_in};
ghost use Rattle.resolver_args.specs.Says.{Gives, GivesService, GivesSettings, IsBad, IsGuarded, IsUsage, LacksControl, LacksSettings};
ghost use Rattle.resolver_args.specs.Says.{RefusedFor, Refuses, RefusesMode, RefusesService, Says, text_of};

use crate::address::{addr_of, addrs_of};
use crate::fault::{ArgsFault, BadArgument};
use crate::mode::{Mode, Service, misfit_of, settings_of};
use crate::options::{LinesHelp, command};
use crate::range::ranges_of;
use clap::error::ErrorKind;
use clap::{ArgMatches, Error};
use dns_text::{Addr, Items};
use history::Settings;
use std::alloc::{AllocError, Global};
use system::AddressRange;

/// The lines that `clap` writes, also for help and the version, unless it ran out of memory.
fn usage(alloc: Global, error: &Error) -> ArgsFault
    ensures { (result ≡ NoMemory) ⊎ (IsUsage result × (kind_of error.now ≢ OutOfMemory)) }
{
    if matches!(error.kind(), ErrorKind::OutOfMemory) {
        return ArgsFault::NoMemory;
    }
    match error.to_string(alloc) {
        Ok(text) => ArgsFault::Usage(text),
        Err(_) => ArgsFault::NoMemory,
    }
}

/// An option or a command that `clap` should have rejected.
fn unfit(shown: &'static str) -> ArgsFault
    ensures { IsBad result }
{
    ArgsFault::BadArguments(BadArgument::Unfit(shown))
}

/// The number of an option, if it has one.
fn number_in(
    found: &ArgMatches<'_>,
    name: &str,
    shown: &'static str,
) -> Result<Option<u32>, ArgsFault>
    ensures given { IfOk result (MayGive (rows_in found.now) name.now) }
    ensures fault { IfErr result (RefusedFor (LacksOption (rows_in found.now) name.now)) }
{
    match found.try_get_one::<u32>(name) {
        Ok(number) => Ok(number),
        Err(_) => Err(unfit(shown)),
    }
}

/// The number of an option that has one, if only by default.
fn count_in(found: &ArgMatches<'_>, name: &str, shown: &'static str) -> Result<u32, ArgsFault>
    ensures given { IfOk result (GivesNumber (rows_in found.now) name.now) }
    ensures fault { IfErr result (RefusedFor (LacksNumber 32 (rows_in found.now) name.now)) }
{
    match number_in(found, name, shown)? {
        Some(count) => Ok(count),
        None => Err(unfit(shown)),
    }
}

/// The number of workers of an option.
fn workers_in(found: &ArgMatches<'_>, name: &str, shown: &'static str) -> Result<u8, ArgsFault>
    ensures given { IfOk result (GivesNumber (rows_in found.now) name.now) }
    ensures fault { IfErr result (RefusedFor (LacksNumber 8 (rows_in found.now) name.now)) }
{
    match u8::try_from(count_in(found, name, shown)?) {
        Ok(workers) => Ok(workers),
        Err(_) => Err(unfit(shown)),
    }
}

/// The most connections that wait to be accepted.
fn backlog_in(found: &ArgMatches<'_>) -> Result<u16, ArgsFault>
    ensures given { IfOk result (GivesNumber (rows_in found.now) (codes "backlog")) }
    ensures fault { IfErr result (RefusedFor (LacksNumber 16 (rows_in found.now) (codes "backlog"))) }
{
    match u16::try_from(count_in(found, "backlog", "--backlog")?) {
        Ok(backlog) => Ok(backlog),
        Err(_) => Err(unfit("--backlog")),
    }
}

/// The address of an option or argument, which is shown by this name.
fn addr_in(
    alloc: Global,
    found: &ArgMatches<'_>,
    name: &str,
    shown: &'static str,
) -> Result<Addr, ArgsFault>
    ensures given { IfOk result (GivesAddr (rows_in found.now) name.now) }
    ensures fault { IfErr result (RefusedFor (LacksAddr (rows_in found.now) name.now)) }
{
    match found.get_str(name) {
        Some(text) => addr_of(alloc, shown, text),
        None => Err(unfit(shown)),
    }
}

/// The text of an option, if it has one.
fn text_in(alloc: Global, found: &ArgMatches<'_>, name: &str) -> Result<Option<String>, AllocError>
    ensures { IfOk result (λ text. GivesText (rows_in found.now) name.now (text_of text)) }
{
    match found.get_str(name) {
        Some(text) => Ok(Some(String::from_str(alloc, text)?)),
        None => Ok(None),
    }
}

/// The hints, in order.
fn hints_in(alloc: Global, found: &ArgMatches<'_>) -> Result<Items<Addr>, ArgsFault>
    ensures given { IfOk result (GivesAddrs (rows_in found.now) (codes "HINT")) }
    ensures fault { IfErr result (RefusedFor (LacksAddrs (rows_in found.now) (codes "HINT"))) }
{
    match found.get_strs("HINT") {
        Some(texts) => Ok(Items::new(addrs_of(alloc, "HINT", texts)?)),
        None => Ok(Items::new(Vec::new(alloc))),
    }
}

/// The addresses that are queried only as those of stubs or hints.
fn ranges_in(alloc: Global, found: &ArgMatches<'_>) -> Result<Items<AddressRange>, ArgsFault>
    ensures given { IfOk result (GivesEach range_in (rows_in found.now) (codes "do-not-query")) }
    ensures fault { IfErr result (RefusedFor (LacksEach range_in (rows_in found.now) (codes "do-not-query"))) }
{
    match found.get_strs("do-not-query") {
        Some(texts) => Ok(Items::new(ranges_of(alloc, "--do-not-query", texts)?)),
        None => Ok(Items::new(Vec::new(alloc))),
    }
}

/// The settings of a cache.
fn settings_in(alloc: Global, found: &ArgMatches<'_>) -> Result<Settings, ArgsFault>
    ensures given { IfOk result (GivesSettings (rows_in found.now)) }
    ensures in_range { IfOk result (λ settings. AreSettings settings) }
    ensures fault { IfErr result (RefusedFor (LacksSettings (rows_in found.now))) }
{
    let journal = count_in(found, "journal", "--journal")?;
    let cells = count_in(found, "cells", "--cells")?;
    let hints = hints_in(alloc, found)?;
    let server_port = count_in(found, "server-port", "--server-port")?;
    let misfit = misfit_of(hints.as_slice().len());
    match settings_of(journal, cells, hints, server_port) {
        Some(settings) => Ok(settings),
        None => Err(ArgsFault::BadArguments(misfit)),
    }
}

/// The settings of a service.
fn service_in(alloc: Global, found: &ArgMatches<'_>) -> Result<Service, ArgsFault>
    ensures given { IfOk result (GivesService (rows_in found.now)) }
    ensures in_range { IfOk result (λ service. HasNumbers (Serve service) × IsLoopback service.control.ip) }
    ensures fault { IfErr result (RefusesService (rows_in found.now)) }
{
    let service = Service {
        settings: settings_in(alloc, found)?,
        listen: addr_in(alloc, found, "listen", "--listen")?,
        control: addr_in(alloc, found, "control", "--control")?,
        udp: workers_in(found, "udp", "--udp")?,
        tcp: workers_in(found, "tcp", "--tcp")?,
        backlog: backlog_in(found)?,
        record_limit: u64::from(count_in(found, "record", "--record")?),
        seed: number_in(found, "seed", "--seed")?,
        commands: text_in(alloc, found, "commands")?,
        do_not_query: ranges_in(alloc, found)?,
    };
    service.checked()
}

/// A line of these words, the first of them apart.
fn joined(alloc: Global, first: &str, rest: &[&str]) -> Result<String, AllocError>
    ensures { IfOk result (λ line. line.bytes.items ≡ join_with_byte 32 (first.now ∷ map (λ word. word.now) rest.now)) }
{
    let mut line = String::from_str(alloc, first)?;
    for word in rest {
        line.push(' ')?;
        line.push_str(word)?;
    }
    Ok(line)
}

/// A line of these words, with a blank between two.
fn line_of(alloc: Global, words: &[&str]) -> Result<String, AllocError>
    ensures { IfOk result (λ line. line.bytes.items ≡ join_with_byte 32 (map (λ word. word.now) words.now)) }
{
    match words.split_first() {
        Some((first, rest)) => joined(alloc, first, rest),
        None => Ok(String::new(alloc)),
    }
}

/// The line to send, if the arguments have one.
fn line_in(alloc: Global, found: &ArgMatches<'_>) -> Result<Option<String>, AllocError>
    ensures { IfOk result (λ line. GivesLine (rows_in found.now) (codes "LINE") (text_of line)) }
{
    match found.get_strs("LINE") {
        Some(words) => Ok(Some(line_of(alloc, words)?)),
        None => Ok(None),
    }
}

/// The mode that sends lines to a service.
fn control_in(alloc: Global, found: &ArgMatches<'_>) -> Result<Mode, ArgsFault>
    ensures given { IfOk result (λ mode. Gives (codes "control") (rows_in found.now) mode × (HasNumbers mode × IsGuarded mode)) }
    ensures fault { IfErr result (RefusedFor (LacksControl (rows_in found.now))) }
{
    let addr = addr_in(alloc, found, "ADDR", "ADDR")?;
    let seconds = count_in(found, "seconds", "--seconds")?;
    let line = line_in(alloc, found)?;
    Ok(Mode::Control {
        addr,
        seconds,
        line,
    })
}

/// The mode of a subcommand with its arguments.
fn mode_in(alloc: Global, name: &str, found: &ArgMatches<'_>) -> Result<Mode, ArgsFault>
    ensures given { IfOk result (Gives name.now (rows_in found.now)) }
    ensures in_range { IfOk result (λ mode. HasNumbers mode × IsGuarded mode) }
    ensures fault { IfErr result (RefusesMode name.now (rows_in found.now)) }
{
    match name {
        "script" => Ok(Mode::Script(settings_in(alloc, found)?)),
        "serve" => Ok(Mode::Serve(service_in(alloc, found)?)),
        "control" => control_in(alloc, found),
        _ => Err(unfit("COMMAND")),
    }
}

/// The subcommand, and its arguments.
fn command_in<'b, 'a>(found: &'b ArgMatches<'a>) -> Option<(&'a str, &'b ArgMatches<'a>)>
    ensures { option_map (λ command. (command.0.now, rows_in command.1.now)) result ≡ subcommand_rows_of found.now }
{
    found.subcommand()
}

/// Reads the arguments. The first is the program's own name, and is not looked at.
pub fn read_args(alloc: Global, words: &[&str]) -> Result<Mode, ArgsFault>
    ensures said { IfOk result (Says (map (λ word. word.now) words.now)) }
    ensures guarded { IfOk result IsGuarded }
    ensures refused { IfErr result (Refuses (map (λ word. word.now) words.now)) }
{
    let lines = LinesHelp::new(alloc)?;
    let command = command(alloc, &lines)?;
    let found = match command.try_get_matches_from(words) {
        Ok(found) => found,
        Err(error) => return Err(usage(alloc, &error)),
    };
    match command_in(&found) {
        Some((name, inner)) => mode_in(alloc, name, inner),
        None => Err(unfit("COMMAND")),
    }
}
