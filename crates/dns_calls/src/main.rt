//! A program that calls the crates of DNS rules. It reads lines from standard input, each a call, and writes one line for
//! each: the result of the call, or `fault` and the fault.
//!
//! A call is a word and its arguments; `calls` has them all. An argument is octets as hexadecimal digits, or `-` for none.
#![tactic(auto)]

mod arguments; // the arguments of a call
mod calls; // each call by its word
mod denials; // what a message denies
mod drawn; // messages by chance
mod fault; // why a call gives nothing
mod harvests; // what a message is believed to say
mod lent; // replies whose records are lent
mod messages; // messages and queries
mod names; // names
mod texts; // records, types and addresses as text
mod verdicts; // queries, and what came of them
mod words; // a message in words

use calls::call;
use std::io;
use std::io::{BufRead, Input, Write};

/// Writes the result of the call of a line.
fn tell(rt: &HostRuntime, line: &[u8]) -> io::Result<()> {
    match call(rt.alloc(), line) {
        Ok(text) => rt.stdout().write_all(&text),
        Err(fault) => println!(rt; "fault {fault}"),
    }
}

fn main(rt: HostRuntime) -> io::Result<()> {
    let mut input = rt.reader();
    let mut line = Vec::new(rt.alloc());
    for _ in 0..u64::MAX {
        if input.read_until(b'\n', &mut line)? == 0 {
            break;
        }
        tell(&rt, line.trim_ascii_end())?;
        line.clear();
    }
    Ok(())
}
