//! Drives a part of the resolver by lines, so that tests can play all that lies around it: `play WORD` reads lines from standard
//! input, and writes the result of each.
//!
//! | Word | What the lines drive |
//! |---|---|
//! | `zones` | local zones and local data |
//! | `stubs` | stubs |
//! | `journal` | changes of both that can be undone and redone: `play journal N` keeps N of them |
//! | `control` | a book, as an operator does over control; `control behind` a desk that is behind |
//! | `script` | the book that keeps its history, as `resolver script` does its own: `play script ARGUMENTS` |
//! | `resolve` | the resolution of questions, at name servers that the lines play |
//! | `serve` | queries, streams and workers, at name servers that the lines play |
//! | `flight` | many questions in flight, at clients, name servers and sockets that the lines play |
//! | `largest` | the book that keeps no history, with the largest settings, and workers that share one |
//!
//! The file of each word says which lines it takes. `play` ends with status 0 at the end of the input, with 1 if a read or a
//! write fails or a line is malformed, and with 3 if there is no memory; `control` has statuses of its own besides.
#![tactic(auto)]

mod stop; // why the program ends
mod words; // lines, and what their words say
mod lines; // lines of standard input, one after another
mod questions; // names and questions in a line
mod books; // a book, and lines of a script for it
mod queries; // queries to name servers, as they are written
mod said; // what a line says that comes of one
mod records; // a record, as it is written
mod changes; // changes of a table that a line keeps, or takes back
mod zones; // local zones and local data
mod stubs; // stubs
mod in_journal; // changes of both that can be undone
mod control; // lines of control
mod script; // a script over the book that replays its history
mod resolve; // one question at a time
mod serve; // queries and streams
mod in_flight; // many questions at once
mod largest; // the largest sizes

use control::play_control;
use in_flight::play_flight;
use in_journal::play_journal;
use largest::play_largest;
use log::Log;
use resolve::play_resolve;
use script::play_script;
use serve::play_serve;
use std::env;
use std::process::ExitCode;
use std::sync::Wait;
use std::thread::Threads;
use stop::Stop;
use stubs::play_stubs;
use zones::play_zones;

/// The program's name and its arguments. An argument that cannot be read counts as one for which there is no memory.
fn arguments(rt: &HostRuntime) -> Result<Vec<String>, Stop> {
    let Ok(words) = env::args(rt) else {
        return Err(Stop::NoMemory);
    };
    match words.collect(rt.alloc()) {
        Ok(words) => Ok(words),
        Err(_) => Err(Stop::NoMemory),
    }
}

/// Plays what the first argument says, and returns the status to end with.
fn play<W: Threads + Wait + Log + Sync>(
    rt: &HostRuntime,
    waiting: &W,
    all: &[String],
) -> Result<u8, Stop> {
    let [_, word, words @ ..] = all else {
        return Err(Stop::Device);
    };
    match word.as_str() {
        "zones" => play_zones(rt)?,
        "stubs" => play_stubs(rt)?,
        "journal" => play_journal(rt, words)?,
        "control" => return play_control(rt, words),
        "script" => play_script(rt, all)?,
        "resolve" => play_resolve(rt)?,
        "serve" => play_serve(rt, waiting)?,
        "flight" => play_flight(rt)?,
        "largest" => play_largest(rt, waiting, words)?,
        _ => return Err(Stop::Device),
    }
    Ok(0)
}

fn main(rt: HostRuntime) -> ExitCode {
    let status = match arguments(&rt) {
        Ok(words) => play(&rt, &rt, words.as_slice()),
        Err(stop) => Err(stop),
    };
    match status {
        Ok(status) => ExitCode::from(status),
        Err(Stop::Device) => ExitCode::from(1),
        Err(Stop::NoMemory) => ExitCode::from(3),
    }
}
