//! A line is obeyed.

use crate::in_journal::undoable::Undoable;
use crate::stop::Stop;
use change_law::ChangeFault;
use command_text::{Channel, Line, Request, read_line, reply_text};
use dns_name::NoMemory;
use dns_text::{Items, Question};
use history::{
    Ask, Command, Look, Reason, Reply, Seen, Tables, share_records, share_stubs, share_zones,
};
use local_zone::Local;
use std::alloc::Global;
use streams::Text;
use table_changes::TableChange;
use undo_journal::Outcome;

/// The reason that a change tells by this number.
fn reason_coded(code: u8) -> Reason {
    match code {
        1 => Reason::BelowRedirect,
        2 => Reason::DataBelow,
        3 => Reason::CnameClash,
        _ => Reason::TooMany,
    }
}

fn make(tables: &mut Undoable<TableChange>, command: &Command) -> Result<Reply, Stop> {
    let Some(change) = TableChange::of(command)? else {
        return Err(Stop::Device);
    };
    match tables.make(change) {
        Ok(ticket) => Ok(Reply::Done { ticket }),
        Err(ChangeFault::Refused(code)) => Ok(Reply::Refused(reason_coded(code))),
        Err(ChangeFault::NoMemory) => Err(Stop::NoMemory),
    }
}

fn undo(tables: &mut Undoable<TableChange>) -> Result<Reply, Stop> {
    match tables.undo()? {
        Some(ticket) => Ok(Reply::Undone { ticket }),
        None => Ok(Reply::NothingToUndo),
    }
}

fn redo(tables: &mut Undoable<TableChange>) -> Result<Reply, Stop> {
    match tables.redo()? {
        Some(ticket) => Ok(Reply::Redone { ticket }),
        None => Ok(Reply::NothingToRedo),
    }
}

fn undo_of(tables: &mut Undoable<TableChange>, ticket: u64) -> Result<Reply, Stop> {
    match tables.undo_of(ticket)? {
        Outcome::Moved => Ok(Reply::Undone { ticket }),
        Outcome::NotKept => Ok(Reply::NotKept),
        Outcome::Buried { ticket } => Ok(Reply::Buried { ticket }),
    }
}

fn redo_of(tables: &mut Undoable<TableChange>, ticket: u64) -> Result<Reply, Stop> {
    match tables.redo_of(ticket)? {
        Outcome::Moved => Ok(Reply::Redone { ticket }),
        Outcome::NotKept => Ok(Reply::NotKept),
        Outcome::Buried { ticket } => Ok(Reply::Buried { ticket }),
    }
}

fn answer(alloc: Global, tables: &Tables, question: &Question) -> Result<Seen, NoMemory> {
    match tables.local.answer(question) {
        Local::Pass => Ok(Seen::Unknown),
        answer => {
            let look = Look::Local(answer);
            let seen = look.to_seen(alloc);
            drop(look);
            seen
        }
    }
}

fn zones(alloc: Global, tables: &Tables) -> Result<Seen, NoMemory> {
    Ok(Seen::Zones(Items::new(share_zones(alloc, tables.local.zones())?)))
}

fn records(alloc: Global, tables: &Tables) -> Result<Seen, NoMemory> {
    Ok(Seen::Records(Items::new(share_records(alloc, tables.local.records())?)))
}

fn stubs(alloc: Global, tables: &Tables) -> Result<Seen, NoMemory> {
    Ok(Seen::Stubs(Items::new(share_stubs(alloc, tables.stubs.stubs())?)))
}

/// What is seen of what is asked. The tables alone say nothing of servers, of names to forget, nor of the commands that were given.
fn seen(alloc: Global, tables: &Tables, ask: &Ask) -> Result<Seen, Stop> {
    match ask {
        Ask::Answer(question) => Ok(answer(alloc, tables, question)?),
        Ask::Zones => Ok(zones(alloc, tables)?),
        Ask::Records => Ok(records(alloc, tables)?),
        Ask::Stubs => Ok(stubs(alloc, tables)?),
        Ask::Commands | Ask::Buried | Ask::Servers(_) | Ask::Oldest => Err(Stop::Device),
        Ask::After { .. } | Ask::NextUndo => Err(Stop::Device),
    }
}

fn reply(
    alloc: Global,
    tables: &mut Undoable<TableChange>,
    request: &Request,
) -> Result<Reply, Stop> {
    match request {
        Request::Do(command) => make(tables, command),
        Request::Undo => undo(tables),
        Request::Redo => redo(tables),
        Request::UndoOf { ticket } => undo_of(tables, *ticket),
        Request::RedoOf { ticket } => redo_of(tables, *ticket),
        Request::Look(ask) => Ok(Reply::Seen(seen(alloc, tables.world().tables(), ask)?)),
        Request::Sweep | Request::Forget { .. } => Err(Stop::Device),
    }
}

/// The text of the reply to a request. Replies, requests and lines are dropped by calls, since the prover follows any other
/// drop variant by variant.
fn told(
    alloc: Global,
    tables: &mut Undoable<TableChange>,
    request: &Request,
) -> Result<Text, Stop> {
    let reply = reply(alloc, tables, request)?;
    let text = reply_text(alloc, &reply);
    drop(reply);
    Ok(text?)
}

fn obey_said(alloc: Global, tables: &mut Undoable<TableChange>, line: Line) -> Result<Text, Stop> {
    match line {
        Line::Request(request) => {
            let text = told(alloc, tables, &request);
            drop(request);
            text
        }
        Line::Silent => Ok(Text::Fixed(b"")),
        other => {
            drop(other);
            Err(Stop::Device)
        }
    }
}

/// Does what a line says, and returns the reply.
pub fn obey_journal(
    alloc: Global,
    tables: &mut Undoable<TableChange>,
    line: &[u8],
) -> Result<Text, Stop> {
    match read_line(alloc, Channel::Script, line) {
        Ok(line) => obey_said(alloc, tables, line),
        Err(_) => Err(Stop::Device),
    }
}
