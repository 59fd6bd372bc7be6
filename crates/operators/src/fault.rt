//! The end of a run that failed: its exit status, and the lines for standard error.

ghost use Rattle.std.specs.Prelude.{◌≡◌, ◌++◌, ◌⊎◌, IfOk, OnOk, codes};
ghost use Rattle.dns_text.specs.Addr.{addr_text};
ghost use Rattle.streams.specs.Split.{with_end};
ghost use Rattle.operators.specs.Fault.{ProgramEnds, EndsFor, IsNoMemory, IsBadArguments, IsNotLoopback, HasWhy};
ghost use Rattle.operators.specs.Fault.{IsFailedRead, IsFailedWrite, shown, why_line, CannotStart, CannotListen};
ghost use Rattle.operators.specs.Fault.{HasNoService, HasNoReply, IsRefused, IsUnread, SayUnread, file_reason};

use dns_name::NoMemory;
use dns_text::{Addr, push_addr};
use resolver_args::ArgsFault;
use std::alloc::{AllocError, Global};
use std::fmt::Display;
use std::io;
use streams::Text;

/// The exit status if a service does not reply in time.
const NO_REPLY_STATUS: u8 = 3;

/// A failure that ends the program.
#[derive(Drop)]
pub struct CliFault {
    /// The exit status.
    pub status: u8,
    /// The lines for standard error: what failed, and often a second one that says why.
    pub text: Text,
}

impl CliFault {
    /// Memory ran out at the start.
    pub fn no_memory() -> CliFault
        ensures { IsNoMemory result }
    {
        CliFault {
            status: 1,
            text: Text::Fixed(b"resolver: no memory\n"),
        }
    }

    /// An argument is not UTF-8 or no address, or there are too few or too many hints or workers. The second line says which,
    /// unless there is no memory for it.
    pub fn bad_arguments<W: Display>(alloc: Global, why: &W) -> CliFault
        ensures { IsBadArguments result }
    {
        match explained(alloc, b"resolver: bad arguments", why) {
            Ok(lines) => CliFault {
                status: 2,
                text: Text::Made(lines),
            },
            Err(_) => CliFault {
                status: 2,
                text: Text::Fixed(b"resolver: bad arguments\n"),
            },
        }
    }

    /// Other machines could reach the control address.
    pub fn not_loopback() -> CliFault
        ensures { IsNotLoopback result }
    {
        CliFault {
            status: 2,
            text: Text::Fixed(b"resolver: control must be loopback\n"),
        }
    }

    /// Standard input, or the reply of a service, cannot be read.
    pub fn failed_read() -> CliFault
        ensures { IsFailedRead result }
    {
        CliFault {
            status: 1,
            text: Text::Fixed(b"resolver: read failed\n"),
        }
    }

    /// Standard output cannot be written.
    pub fn failed_write() -> CliFault
        ensures { IsFailedWrite result }
    {
        CliFault {
            status: 1,
            text: Text::Fixed(b"resolver: write failed\n"),
        }
    }

    /// The system denied its clock, its random numbers or its limit of descriptors, or no more callers of the book are counted.
    pub fn cannot_start() -> CliFault
        ensures { CannotStart result }
    {
        CliFault {
            status: 1,
            text: Text::Fixed(b"resolver: cannot start\n"),
        }
    }

    /// The service cannot listen at this address. The second line is what the system says of it.
    pub fn cannot_listen(alloc: Global, addr: &Addr, error: &io::Error) -> CliFault
        ensures { CannotListen addr.now result ⊎ IsNoMemory result }
    {
        match unbound(alloc, addr, error) {
            Ok(lines) => CliFault {
                status: 1,
                text: Text::Made(lines),
            },
            Err(_) => CliFault::no_memory(),
        }
    }

    /// A line of the file of a service's first lines was refused: its number, its reply, and the line.
    pub fn refused(alloc: Global, path: &str, refusal: &[u8]) -> CliFault
        ensures { IsRefused path.now refusal.now result ⊎ IsNoMemory result }
    {
        match file_lines(alloc, b"resolver: cannot start", path, refusal) {
            Ok(lines) => CliFault {
                status: 1,
                text: Text::Made(lines),
            },
            Err(_) => CliFault::no_memory(),
        }
    }

    /// The file of a service's first lines cannot be read. The second line says why.
    pub fn unread<W: Display>(alloc: Global, path: &str, why: &W) -> CliFault
        ensures { IsUnread path.now result ⊎ IsNoMemory result }
    {
        match unread_lines(alloc, path, why) {
            Ok(lines) => CliFault {
                status: 1,
                text: Text::Made(lines),
            },
            Err(_) => CliFault::no_memory(),
        }
    }

    /// No service listens at this address.
    pub fn no_service(alloc: Global, addr: &Addr) -> CliFault
        ensures { HasNoService addr.now result ⊎ IsNoMemory result }
    {
        at_addr(alloc, 1, b"resolver: no service at ", addr)
    }

    /// The service at this address did not reply in time.
    pub fn no_reply(alloc: Global, addr: &Addr) -> CliFault
        ensures { HasNoReply addr.now result ⊎ IsNoMemory result }
    {
        at_addr(alloc, NO_REPLY_STATUS, b"resolver: no reply from ", addr)
    }
}

/// The end of a run whose arguments select no mode.
pub fn end_for(alloc: Global, fault: ArgsFault) -> CliFault
    ensures { EndsFor fault result }
{
    match fault {
        ArgsFault::NoMemory => CliFault::no_memory(),
        ArgsFault::Usage(lines) => CliFault {
            status: 2,
            text: Text::Made(lines.into_bytes()),
        },
        ArgsFault::BadArguments(why) => CliFault::bad_arguments(alloc, &why),
        ArgsFault::NotLoopback => CliFault::not_loopback(),
    }
}

/// An octet as a line shows it: one that would end the line, or move the cursor of a terminal, is a question mark.
fn shown(octet: u8) -> u8
    ensures { result ≡ shown octet }
{
    if octet < 32 || octet == 127 {
        b'?'
    } else {
        octet
    }
}

/// Writes a line that says why.
fn push_why(lines: &mut Vec<u8>, why: &[u8]) -> Result<(), AllocError>
    ensures { OnOk result (lines.new.items ≡ lines.old.items ++ why_line why.now) }
{
    lines.extend_from_slice(b"resolver: ")?;
    for octet in why {
        lines.push(shown(*octet))?;
    }
    lines.push(b'\n')?;
    Ok(())
}

/// A line of these words, and one that says why.
fn with_why(alloc: Global, words: &[u8], why: &[u8]) -> Result<Vec<u8>, AllocError>
    ensures { IfOk result (λ lines. HasWhy words.now lines.items) }
{
    let mut lines = Vec::from_slice(alloc, words)?;
    lines.push(b'\n')?;
    push_why(&mut lines, why)?;
    Ok(lines)
}

/// A line of these words, and one that says why.
fn explained<W: Display>(alloc: Global, words: &[u8], why: &W) -> Result<Vec<u8>, AllocError>
    ensures { IfOk result (λ lines. HasWhy words.now lines.items) }
{
    let why = why.to_string(alloc)?;
    with_why(alloc, words, why.as_bytes())
}

/// The line for an address at which nothing can listen, and one that says why.
fn unbound(alloc: Global, addr: &Addr, error: &io::Error) -> Result<Vec<u8>, NoMemory>
    ensures { IfOk result (λ lines. HasWhy (codes "resolver: cannot listen on " ++ addr_text addr.now) lines.items) }
{
    let why = error.to_string(alloc)?;
    let mut lines = line_of(alloc, b"resolver: cannot listen on ", addr)?;
    push_why(&mut lines, why.as_bytes())?;
    Ok(lines)
}

/// A line of these words, and one with the path of the file of a service's first lines and a reason.
fn file_lines(alloc: Global, words: &[u8], path: &str, reason: &[u8]) -> Result<Vec<u8>, AllocError>
    ensures { IfOk result (λ lines. lines.items ≡ with_end words.now ++ why_line (file_reason path.now reason.now)) }
{
    let mut why = format!(in alloc; "--commands {path}: ")?.into_bytes();
    why.extend_from_slice(reason)?;
    let mut lines = Vec::from_slice(alloc, words)?;
    lines.push(b'\n')?;
    push_why(&mut lines, why.as_slice())?;
    Ok(lines)
}

/// The lines for a file that cannot be read.
fn unread_lines<W: Display>(alloc: Global, path: &str, why: &W) -> Result<Vec<u8>, AllocError>
    ensures { IfOk result (λ lines. SayUnread path.now lines.items) }
{
    let reason = why.to_string(alloc)?;
    file_lines(alloc, b"resolver: read failed", path, reason.as_bytes())
}

/// A line of these words and an address.
fn line_of(alloc: Global, words: &[u8], addr: &Addr) -> Result<Vec<u8>, NoMemory>
    ensures { IfOk result (λ line. line.items ≡ with_end (words.now ++ addr_text addr.now)) }
{
    let mut line = Vec::from_slice(alloc, words)?;
    push_addr(addr, &mut line)?;
    line.push(b'\n')?;
    Ok(line)
}

/// A status, and a line of these words and an address.
fn at_addr(alloc: Global, status: u8, words: &[u8], addr: &Addr) -> CliFault
    ensures { ProgramEnds result status (words.now ++ addr_text addr.now) ⊎ IsNoMemory result }
{
    match line_of(alloc, words, addr) {
        Ok(line) => CliFault {
            status,
            text: Text::Made(line),
        },
        Err(_) => CliFault::no_memory(),
    }
}
