//! Events and replies as text, each on one line.

use crate::stop::Stop;
use command_text::{push_command, reply_text};
use dns_name::{Name, NoMemory};
use dns_text::{Question, push_type};
use history::{Ask, Event, Move, Reply, Seen, StepFault};
use ranked::{SharedFind, Shown};
use shared_book::Receipt;
use std::alloc::Global;

/// Writes the lines of a reply, with `;` for each end but the last.
fn push_reply(alloc: Global, reply: &Reply, out: &mut Vec<u8>) -> Result<(), NoMemory> {
    let text = reply_text(alloc, reply)?;
    for octet in text.as_slice().trim_ascii_end() {
        out.push(if *octet == b'\n' { b';' } else { *octet })?;
    }
    Ok(())
}

/// Writes a find as the reply that it is cached, with its whole time to live.
fn push_find(alloc: Global, found: &SharedFind, out: &mut Vec<u8>) -> Result<(), NoMemory> {
    let find = found.find();
    let shown = Shown {
        rank: find.rank,
        left: find.ttl,
        body: found.share()?,
    };
    let reply = Reply::Seen(Seen::Held(shown));
    let pushed = push_reply(alloc, &reply, out);
    drop(reply);
    pushed
}

fn push_question(question: &Question, out: &mut Vec<u8>) -> Result<(), NoMemory> {
    out.extend_from_slice(b"look ")?;
    question.owner.push_text(out)?;
    out.push(b' ')?;
    push_type(question.kind, out)
}

fn push_servers(name: &Name, out: &mut Vec<u8>) -> Result<(), NoMemory> {
    out.extend_from_slice(b"servers ")?;
    name.push_text(out)
}

fn push_forget(name: &Name, out: &mut Vec<u8>) -> Result<(), NoMemory> {
    out.extend_from_slice(b"forget ")?;
    name.push_text(out)
}

/// Writes what a look asks, in the words of its line.
fn push_ask(alloc: Global, ask: &Ask, out: &mut Vec<u8>) -> Result<(), NoMemory> {
    match ask {
        Ask::Answer(question) => push_question(question, out),
        Ask::Servers(name) => push_servers(name, out),
        Ask::Zones => out.extend_from_slice(b"list_local_zones"),
        Ask::Records => out.extend_from_slice(b"list_local_data"),
        Ask::Stubs => out.extend_from_slice(b"list_stubs"),
        Ask::Commands => out.extend_from_slice(b"list_commands"),
        Ask::Buried => out.extend_from_slice(b"list_buried"),
        Ask::Oldest => out.extend_from_slice(b"oldest"),
        Ask::After { step, question } => push_after(alloc, *step, question, out),
        Ask::NextUndo => out.extend_from_slice(b"what_undo"),
    }
}

/// Writes the lookup of a question right after an undo or a redo.
fn push_after(
    alloc: Global,
    step: Move,
    question: &Question,
    out: &mut Vec<u8>,
) -> Result<(), NoMemory> {
    match step {
        Move::Undo => out.extend_from_slice(b"look_undo")?,
        Move::Redo => out.extend_from_slice(b"look_redo")?,
        Move::UndoOf { ticket } => push_numbered(alloc, "look_without", ticket, out)?,
    }
    out.push(b' ')?;
    question.owner.push_text(out)?;
    out.push(b' ')?;
    push_type(question.kind, out)
}

fn push_numbered(
    alloc: Global,
    word: &str,
    ticket: u64,
    out: &mut Vec<u8>,
) -> Result<(), NoMemory> {
    out.extend_from_slice(format!(in alloc; "{word} {ticket}")?.as_bytes())
}

/// Writes an event in the words of its line, after its moment.
fn push_event(alloc: Global, event: &Event, out: &mut Vec<u8>) -> Result<(), NoMemory> {
    let moment = event.moment();
    out.extend_from_slice(format!(in alloc; "at {moment} ")?.as_bytes())?;
    match event {
        Event::Admit { find, .. } => {
            out.extend_from_slice(b"admit ")?;
            push_find(alloc, find, out)
        }
        Event::Look { ask, .. } => push_ask(alloc, ask, out),
        Event::Sweep { .. } => out.extend_from_slice(b"sweep"),
        Event::Forget { owner, .. } => push_forget(owner, out),
        Event::Do { command, .. } => push_command(command, out),
        Event::Undo { .. } => out.extend_from_slice(b"undo"),
        Event::Redo { .. } => out.extend_from_slice(b"redo"),
        Event::UndoOf { ticket, .. } => push_numbered(alloc, "undo", *ticket, out),
        Event::RedoOf { ticket, .. } => push_numbered(alloc, "redo", *ticket, out),
    }
}

/// What is shown on a line.
#[derive(Clone, Copy)]
pub enum Shows<'a> {
    Reply(&'a Reply),
    Fault(&'a StepFault),
    /// A call of the window: its number, its caller, the event and the reply.
    Entry(&'a Receipt),
}

fn reply_line(alloc: Global, reply: &Reply) -> Result<Vec<u8>, NoMemory> {
    let mut out = Vec::new(alloc);
    push_reply(alloc, reply, &mut out)?;
    Ok(out)
}

fn entry_line(alloc: Global, entry: &Receipt) -> Result<Vec<u8>, NoMemory> {
    let mut out = format!(in alloc; "{} {} ", entry.number, entry.caller)?.into_bytes();
    push_event(alloc, &entry.event, &mut out)?;
    out.extend_from_slice(b": ")?;
    push_reply(alloc, &entry.reply, &mut out)?;
    Ok(out)
}

fn line_of(alloc: Global, shows: Shows<'_>) -> Result<Vec<u8>, NoMemory> {
    match shows {
        Shows::Reply(reply) => reply_line(alloc, reply),
        Shows::Fault(fault) => Ok(format!(in alloc; "{fault}")?.into_bytes()),
        Shows::Entry(entry) => entry_line(alloc, entry),
    }
}

fn as_text(line: Vec<u8>) -> Result<String, Stop> {
    match String::from_utf8(line) {
        Ok(text) => Ok(text),
        Err(_) => Err(Stop),
    }
}

/// What is shown, on one line. A text for which there is no memory is made once more.
pub fn text_of(alloc: Global, shows: Shows<'_>) -> Result<String, Stop> {
    if let Ok(line) = line_of(alloc, shows) {
        return as_text(line);
    }
    match line_of(alloc, shows) {
        Ok(line) => as_text(line),
        Err(_) => Err(Stop),
    }
}
