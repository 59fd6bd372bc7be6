//! Events by chance, about eight names.

ghost use Rattle.std.specs.Prelude.{◌<◌};

use dns_name::Name;
use dns_text::types::{A, SOA};
use dns_text::{Addr, Ip, Items, Question, Shared, read_record};
use history::{Ask, Command, Event};
use local_zone::ZoneType;
use rand_core::Rng;
use rand_pcg::Pcg32;
use ranked::{Find, Rank, SharedFind};
use std::alloc::{AllocError, Global};
use stub_table::Stub;

const NAMES: [&[u8]; 8] = [b"a", b"b.a", b"c", b"d.c", b"e", b"f.e", b"g.f.e", b"h.f.e"];

const RECORDS: [&[u8]; 8] = [
    b"a 60 A 192.0.2.1",
    b"b.a 60 A 192.0.2.2",
    b"c 60 A 192.0.2.3",
    b"d.c 60 A 192.0.2.4",
    b"e 60 A 192.0.2.5",
    b"f.e 60 A 192.0.2.6",
    b"g.f.e 60 A 192.0.2.7",
    b"h.f.e 60 A 192.0.2.8",
];

const RANKS: [Rank; 4] = [
    Rank::Additional,
    Rank::Answer,
    Rank::Authority,
    Rank::AuthoritativeAnswer,
];

const TYPES: [ZoneType; 4] = [
    ZoneType::Deny,
    ZoneType::Static,
    ZoneType::Transparent,
    ZoneType::Redirect,
];

fn below(rng: &mut Pcg32, end: u32) -> u32
    requires { 0 < end }
    ensures { result < end }
{
    rng.next_u32() % end
}

fn place(rng: &mut Pcg32) -> usize
    ensures { result < 4 }
{
    below(rng, 4) as usize
}

fn name_place(rng: &mut Pcg32) -> usize
    ensures { result < 8 }
{
    below(rng, 8) as usize
}

fn name(rng: &mut Pcg32, alloc: Global) -> Result<Name, AllocError> {
    match Name::from_text(alloc, NAMES[name_place(rng)]) {
        Ok(name) => Ok(name),
        Err(_) => Err(AllocError),
    }
}

fn question(rng: &mut Pcg32, alloc: Global) -> Result<Question, AllocError> {
    Ok(Question {
        owner: name(rng, alloc)?,
        kind: A,
    })
}

fn find(rng: &mut Pcg32, alloc: Global) -> Result<SharedFind, AllocError> {
    let Ok(record) = read_record(alloc, RECORDS[name_place(rng)]) else {
        return Err(AllocError);
    };
    let mut data = Vec::new(alloc);
    data.push(record.body)?;
    let rank = RANKS[place(rng)];
    let ttl = below(rng, 30) + 1;
    match Find::new(record.owner, record.kind, rank, ttl, Items::new(data)) {
        Some(find) => SharedFind::new(alloc, find),
        None => Err(AllocError),
    }
}

/// That there is no such name.
fn denial(rng: &mut Pcg32, alloc: Global) -> Result<SharedFind, AllocError> {
    let owner = name(rng, alloc)?;
    let ttl = below(rng, 30) + 1;
    let Ok(soa) = read_record(alloc, b". 60 SOA . . 1 60 60 60 60") else {
        return Err(AllocError);
    };
    if soa.kind != SOA {
        drop(soa);
        return Err(AllocError);
    }
    match Find::no_name(owner, ttl, Shared::new(alloc, soa)?) {
        Some(find) => SharedFind::new(alloc, find),
        None => Err(AllocError),
    }
}

fn ask(rng: &mut Pcg32, alloc: Global) -> Result<Ask, AllocError> {
    match below(rng, 9) {
        0 => Ok(Ask::Zones),
        1 => Ok(Ask::Records),
        2 => Ok(Ask::Stubs),
        3 => Ok(Ask::Commands),
        4 => Ok(Ask::Servers(name(rng, alloc)?)),
        5 => Ok(Ask::Buried),
        _ => Ok(Ask::Answer(question(rng, alloc)?)),
    }
}

fn flush(rng: &mut Pcg32, alloc: Global) -> Result<Command, AllocError> {
    match below(rng, 3) {
        0 => Ok(Command::FlushType(question(rng, alloc)?)),
        1 => Ok(Command::Flush {
            name: name(rng, alloc)?,
        }),
        _ => Ok(Command::FlushZone {
            name: name(rng, alloc)?,
        }),
    }
}

fn set_zone(rng: &mut Pcg32, alloc: Global) -> Result<Command, AllocError> {
    Ok(Command::SetZone {
        name: name(rng, alloc)?,
        kind: TYPES[place(rng)],
    })
}

fn add_record(rng: &mut Pcg32, alloc: Global) -> Result<Command, AllocError> {
    match read_record(alloc, RECORDS[name_place(rng)]) {
        Ok(record) => Ok(Command::AddRecord {
            record: Shared::new(alloc, record)?,
        }),
        Err(_) => Err(AllocError),
    }
}

/// A stub of one address.
fn set_stub(rng: &mut Pcg32, alloc: Global) -> Result<Command, AllocError> {
    let name = name(rng, alloc)?;
    let mut addrs = Vec::new(alloc);
    addrs.push(Addr {
        ip: Ip::V4([192, 0, 2, 53]),
        port: 53,
    })?;
    let addrs = Items::new(addrs);
    Ok(Command::SetStub {
        stub: Shared::new(alloc, Stub { name, addrs })?,
    })
}

fn removal(rng: &mut Pcg32, alloc: Global) -> Result<Command, AllocError> {
    match below(rng, 3) {
        0 => Ok(Command::DropZone {
            name: name(rng, alloc)?,
        }),
        1 => Ok(Command::DropName {
            name: name(rng, alloc)?,
        }),
        _ => Ok(Command::DropStub {
            name: name(rng, alloc)?,
        }),
    }
}

fn command(rng: &mut Pcg32, alloc: Global) -> Result<Command, AllocError> {
    match below(rng, 5) {
        0 => flush(rng, alloc),
        1 => set_zone(rng, alloc),
        2 => add_record(rng, alloc),
        3 => set_stub(rng, alloc),
        _ => removal(rng, alloc),
    }
}

fn given(rng: &mut Pcg32, alloc: Global, moment: u64) -> Result<Event, AllocError> {
    let command = command(rng, alloc)?;
    Ok(Event::Do { moment, command })
}

/// An undo or a redo of one of the eight tickets up to the newest, or of the next.
fn by_ticket(rng: &mut Pcg32, moment: u64, newest: u64) -> Event {
    let ticket = newest
        .saturating_add(1)
        .saturating_sub(u64::from(below(rng, 9)));
    match below(rng, 2) {
        0 => Event::UndoOf { moment, ticket },
        _ => Event::RedoOf { moment, ticket },
    }
}

/// An event of any kind, within 100 seconds from a moment on. The undos and redos of a ticket are near the newest one.
pub fn event(rng: &mut Pcg32, alloc: Global, from: u64, newest: u64) -> Result<Event, AllocError> {
    let moment = from.saturating_add(u64::from(below(rng, 100)));
    match below(rng, 11) {
        0 => Ok(Event::Undo { moment }),
        1 => Ok(Event::Redo { moment }),
        2 => Ok(Event::Sweep { moment }),
        3 | 4 => given(rng, alloc, moment),
        6 | 7 => Ok(by_ticket(rng, moment, newest)),
        5 => Ok(Event::Admit {
            moment,
            find: find(rng, alloc)?,
        }),
        _ => Ok(Event::Look {
            moment,
            ask: ask(rng, alloc)?,
        }),
    }
}

/// Such an event, which can have many owners. Who draws it does not know the newest ticket.
pub fn shared_event(
    rng: &mut Pcg32,
    alloc: Global,
    from: u64,
) -> Result<Shared<Event>, AllocError> {
    let newest = u64::from(below(rng, 40));
    let event = event(rng, alloc, from, newest)?;
    Ok(Shared::new(alloc, event)?)
}

/// An event of any kind, within 100 seconds from a moment on. It is more often an admission, at times that of a denial, and at times a
/// forget. Of the looks about one in 40 asks for the name to forget first, since the book that replays takes long for that.
pub fn event_or_denial(
    rng: &mut Pcg32,
    alloc: Global,
    from: u64,
    newest: u64,
) -> Result<Event, AllocError> {
    let moment = from.saturating_add(u64::from(below(rng, 100)));
    match below(rng, 12) {
        0 => Ok(Event::Admit {
            moment,
            find: denial(rng, alloc)?,
        }),
        3 => Ok(Event::Forget {
            moment,
            owner: name(rng, alloc)?,
        }),
        1 | 2 => Ok(Event::Admit {
            moment,
            find: find(rng, alloc)?,
        }),
        _ => {
            if below(rng, 150) == 0 {
                let ask = Ask::Oldest;
                return Ok(Event::Look { moment, ask });
            }
            event(rng, alloc, from, newest)
        }
    }
}
