//! The program `resolver`: `script` obeys the lines of standard input and writes a reply to each, `serve` answers DNS queries
//! until an operator stops it, and `control` sends an operator's lines to a service.
#![tactic(auto)]

// The version, for whoever asks for it alone.
mod version;
// The mode `script`: lines from standard input.
mod script;
// The listening sockets of a service.
mod sockets;
// What an operator can read of a service while it runs.
mod gauges;
// One worker, in a thread of its own.
mod worker;
// The reply to `what_undo`, with how much a flush hides.
mod what_undo;
// An operator's pace: the cache keeps up with the flushes that commands make permanent.
mod keeping_up;
// The lines of an operator: which the service answers by itself, and which its book.
mod operator_lines;
// The control socket of a service.
mod control_socket;
// Sweeps of a service's cache.
mod sweeper;
// The thread that writes the log.
mod log_writer;
// The first phase of a service: the lines of a file, and `stop` alone.
mod first_phase;
// The mode `serve`: workers and operators over one shared book.
mod service;

ghost use Rattle.std.specs.Prelude.{◌≡◌, ◌↔◌, None, map, IfOk, IfSome};
ghost use Rattle.resolver_args.specs.Mode.{HasNumbers};
ghost use Rattle.resolver_args.specs.Says.{Says, IsGuarded};
ghost use Rattle.resolver_cli.specs.Version.{AsksVersion};

use operators::{CliFault, Peer, end_for, send};
use resolver_args::{Mode, read_args};
use script::obey_input;
use service::serve_and_log;
use std::alloc::{AllocError, Global};
use std::io::{ErrorKind, Input, Write};
use std::process::ExitCode;
use std::{env, io};
use version::{asks_version, show_version};

/// The arguments as string slices.
fn texts_of(alloc: Global, words: &[String]) -> Result<Vec<&str>, AllocError>
    ensures { IfOk result (λ texts. map (λ text. text.now) texts.items ≡ map (λ word. word.bytes.items) words.now) }
{
    let mut texts = Vec::new(alloc);
    for word in words {
        texts.push(word.as_str())?;
    }
    Ok(texts)
}

/// The mode that the arguments select.
fn mode_of(alloc: Global, words: &[String]) -> Result<Mode, CliFault>
    ensures said { IfOk result (Says (map (λ word. word.bytes.items) words.now)) }
    ensures guarded { IfOk result IsGuarded }
{
    let Ok(texts) = texts_of(alloc, words) else {
        return Err(CliFault::no_memory());
    };
    match read_args(alloc, texts.as_slice()) {
        Ok(mode) => Ok(mode),
        Err(fault) => Err(end_for(alloc, fault)),
    }
}

/// The mode that the arguments select. None if they ask for the version alone.
fn asked(alloc: Global, words: &[String]) -> Result<Option<Mode>, CliFault>
    ensures version { IfOk result (λ mode. (mode ≡ None) ↔ AsksVersion (map (λ word. word.bytes.items) words.now)) }
    ensures said { IfOk result (λ mode. IfSome mode (Says (map (λ word. word.bytes.items) words.now))) }
    ensures fit { IfOk result (λ mode. IfSome mode (λ mode. HasNumbers mode × IsGuarded mode)) }
{
    if asks_version(words) {
        return Ok(None);
    }
    match mode_of(alloc, words) {
        Ok(mode) => Ok(Some(mode)),
        Err(fault) => Err(fault),
    }
}

/// The arguments as owned strings. It fails if one is not UTF-8, or if memory runs out.
fn words_of(rt: &HostRuntime) -> io::Result<Vec<String>> {
    Ok(env::args(rt)?.collect(rt.alloc())?)
}

/// The mode that the program's arguments select. None if they ask for the version alone.
fn arguments(rt: &HostRuntime) -> Result<Option<Mode>, CliFault>
    ensures fit { IfOk result (λ mode. IfSome mode (λ mode. HasNumbers mode × IsGuarded mode)) }
{
    match words_of(rt) {
        Ok(words) => asked(rt.alloc(), words.as_slice()),
        Err(error) => {
            if error.kind() == ErrorKind::OutOfMemory {
                return Err(CliFault::no_memory());
            }
            Err(CliFault::bad_arguments(rt.alloc(), &"an argument is not UTF-8"))
        }
    }
}

/// Status 0 if all lines were obeyed, and otherwise 1; or the status and the message of the fault.
fn end_control(rt: &HostRuntime, obeyed: Result<bool, CliFault>) -> ExitCode {
    match obeyed {
        Ok(true) => ExitCode::SUCCESS,
        Ok(false) => ExitCode::from(1),
        Err(fault) => exit_with(rt, &fault),
    }
}

/// Writes the message to standard error, and returns the status. If the write fails, only the status is left.
fn exit_with(rt: &HostRuntime, fault: &CliFault) -> ExitCode {
    let _ = rt.stderr().write_all(fault.text.as_slice());
    ExitCode::from(fault.status)
}

/// Status 0, or the status and the message of the fault.
fn end(rt: &HostRuntime, ended: Result<(), CliFault>) -> ExitCode {
    match ended {
        Ok(()) => ExitCode::SUCCESS,
        Err(fault) => exit_with(rt, &fault),
    }
}

fn main(rt: HostRuntime) -> ExitCode {
    match arguments(&rt) {
        Ok(None) => end(&rt, show_version(&rt)),
        Ok(Some(Mode::Script(settings))) => end(&rt, obey_input(&rt, settings)),
        Ok(Some(Mode::Serve(service))) => end(&rt, serve_and_log(&rt, rt.alloc(), service)),
        Ok(
            Some(
                Mode::Control {
                    addr,
                    seconds,
                    line,
                },
            ),
        ) => {
            let peer = Peer::new(addr, seconds);
            end_control(
                &rt,
                send(&rt, rt.alloc(), &peer, rt.reader(), rt.stdout(), line),
            )
        }
        Err(fault) => exit_with(&rt, &fault),
    }
}
