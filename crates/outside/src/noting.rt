//! What an exchange says of its server.

ghost use Rattle.outside.specs.Pauses.{EndsEarly, NotesBroken, NotesHeard};

use crate::flaw::Flaw;
use crate::pauses::Pauses;
use dns_query::Over;
use dns_text::Addr;
use flight::Listened;
use std::alloc::Global;

/// Notes that an exchange broke. Over UDP the host of the server reports that the port is closed.
fn note_broken(pauses: &mut Pauses, server: &Addr, over: Over, now: u64)
    ensures { NotesBroken over server.now now pauses.old pauses.new }
{
    match over {
        Over::Udp => pauses.note_closed(server, over, now),
        Over::Tcp => {}
    }
}

/// Notes that an exchange ended before its time: something is wrong with what came, or it broke.
fn note_early_end(
    alloc: Global,
    pauses: &mut Pauses,
    flaw: Option<Flaw>,
    server: &Addr,
    over: Over,
    query: &[u8],
    now: u64,
)
    ensures { EndsEarly flaw server.now over query.now now pauses.old pauses.new }
{
    match flaw {
        None => note_broken(pauses, server, over, now),
        Some(Flaw::Dear) => pauses.note_answered(alloc, server, over, query, now),
        Some(Flaw::Misfits) => pauses.note_misfits(alloc, server, over, query, now),
    }
}

/// Notes what an exchange says of its server: that it answered, even if too dear to read, that its port is closed, or that others
/// may answer in its name.
pub fn note_heard(
    alloc: Global,
    pauses: &mut Pauses,
    heard: &Listened,
    flaw: Option<Flaw>,
    server: &Addr,
    over: Over,
    query: &[u8],
    now: u64,
)
    ensures { NotesHeard heard.now flaw server.now over query.now now pauses.old pauses.new }
{
    match heard {
        Listened::Nothing => {}
        Listened::Anew => {}
        Listened::Came(_) => pauses.note_answered(alloc, server, over, query, now),
        Listened::NoMemory => pauses.note_answered(alloc, server, over, query, now),
        Listened::Broken => note_early_end(alloc, pauses, flaw, server, over, query, now),
    }
}
