//! Events, lookups and replies of a book.

ghost use Rattle.std.specs.Prelude.{◌≡◌, ⊤, IfOk, MatchOption, Some};
ghost use Rattle.std.specs.Option.{option_map};
ghost use Rattle.local_zone.specs.Answer.{local_now};

use crate::servers::Servers;
use dns_name::{Name, NoMemory};
use dns_text::{Addr, Items, Question, Record, Shared};
use local_zone::{Local, LocalRecord, LocalSet, SeenRecord, Zone, ZoneType, share_seen};
use ranked::{Flush, Held, Reach, SharedFind, Shown};
use std::alloc::Global;
use stub_table::Stub;

/// A question to a book.
#[derive(Drop, PartialEq)]
pub enum Ask {
    /// The answer that the local zones or the cache have for a question.
    Answer(Question),
    /// The local zones.
    Zones,
    /// The local records.
    Records,
    /// The stubs.
    Stubs,
    /// The commands that can be undone or redone.
    Commands,
    /// Those of these commands that need another undone, or redone, before them.
    Buried,
    /// The servers to ask about a name.
    Servers(Name),
    /// The name to forget first when the cells are full.
    Oldest,
    /// The answer for a question right after an undo or a redo, which is not made.
    After { question: Question, step: Move },
    /// The command that an undo would take back.
    NextUndo,
}

/// An undo or a redo.
#[derive(Clone, Copy, PartialEq, Eq, Drop)]
pub enum Move {
    /// Of the newest command that can be undone.
    Undo,
    /// Of the command that was undone last.
    Redo,
    /// Of the command of a ticket: its undo.
    UndoOf { ticket: u64 },
}

impl Move {
    ghost use Rattle.history.specs.Reply.{move_at};

    /// The event of this move at a moment.
    pub fn event(self, moment: u64) -> Event
        ensures { result ≡ move_at moment self }
    {
        match self {
            Move::Undo => Event::Undo { moment },
            Move::Redo => Event::Redo { moment },
            Move::UndoOf { ticket } => Event::UndoOf { moment, ticket },
        }
    }
}

/// A command of the operator, which can be undone.
#[derive(Drop, PartialEq)]
pub enum Command {
    /// Empties the cell of one question.
    FlushType(Question),
    /// Empties the cells of a name of the types that `flush` of `unbound-control(8)` names.
    Flush { name: Name },
    /// Empties the cells of every name at or below a name, of any type.
    FlushZone { name: Name },
    /// Adds a local zone, or gives the zone of this name another type.
    SetZone { name: Name, kind: ZoneType },
    /// Removes a local zone, and the records that lie in it.
    DropZone { name: Name },
    /// Adds a local record, and gives its time to live to its set.
    AddRecord { record: Shared<Record> },
    /// Removes the local records of an owner.
    DropName { name: Name },
    /// Adds a stub, or gives the stub of this name other addresses.
    SetStub { stub: Shared<Stub> },
    /// Removes a stub.
    DropStub { name: Name },
}

impl Command {
    ghost use Rattle.history.specs.Event.{covers, flush_of};
    ghost use Rattle.history.specs.Journal.{table_of};

    /// Whether it empties the cell of the question of this name and type.
    pub fn covers(&self, owner: &Name, kind: u16) -> bool
        ensures { result ≡ covers self.now (record { owner = owner.now; kind = kind }) }
    {
        match self {
            Command::FlushType(target) => {
                Reach::OneType(target.kind).covers(&target.owner, owner, kind)
            }
            Command::Flush { name } => Reach::Name.covers(name, owner, kind),
            Command::FlushZone { name } => Reach::Zone.covers(name, owner, kind),
            _ => false,
        }
    }

    /// The number of the table that it changes. A flush changes none.
    pub fn table(&self) -> Option<u8>
        ensures { result ≡ table_of self.now }
    {
        match self {
            Command::SetZone { .. } => Some(1),
            Command::DropZone { .. } => Some(1),
            Command::AddRecord { .. } => Some(1),
            Command::DropName { .. } => Some(1),
            Command::SetStub { .. } => Some(2),
            Command::DropStub { .. } => Some(2),
            _ => None,
        }
    }

    /// The flush that this command is, if it is one.
    pub fn flush(&self) -> Result<Option<Flush>, NoMemory>
        ensures { IfOk result (λ flush. flush ≡ flush_of self.now) }
    {
        match self {
            Command::FlushType(target) => flush_at(&target.owner, Reach::OneType(target.kind)),
            Command::Flush { name } => flush_at(name, Reach::Name),
            Command::FlushZone { name } => flush_at(name, Reach::Zone),
            _ => Ok(None),
        }
    }
}

fn flush_at(name: &Name, reach: Reach) -> Result<Option<Flush>, NoMemory>
    ensures { IfOk result (λ flush. flush ≡ Some (record { name = name.now; reach = reach })) }
{
    let name = name.clone()?;
    Ok(Some(Flush { name, reach }))
}

/// One event, with the moment that it gives, in seconds.
#[derive(Drop, PartialEq)]
pub enum Event {
    /// A find is admitted to the cache.
    Admit { moment: u64, find: SharedFind },
    /// A caller looks something up.
    Look { moment: u64, ask: Ask },
    /// The book may drop what it can never show again. Nothing but the clock changes.
    Sweep { moment: u64 },
    /// The cells of a name are emptied, whichever commands are in force. It makes room, and no undo takes it back.
    Forget { moment: u64, owner: Name },
    /// The operator gives a command.
    Do { moment: u64, command: Command },
    /// The operator undoes the newest command that can be undone.
    Undo { moment: u64 },
    /// The operator redoes the command that was undone last. It is back at the place that it had.
    Redo { moment: u64 },
    /// The operator undoes the command of a ticket. A flush can be undone in any order, a command of a table only if no later one of
    /// its table is done.
    UndoOf { moment: u64, ticket: u64 },
    /// The operator redoes the command of a ticket. A flush can be redone in any order, a command of a table only if no earlier one of
    /// its table is undone. It is back at the place that it had.
    RedoOf { moment: u64, ticket: u64 },
}

impl Event {
    ghost use Rattle.history.specs.Event.{moment_of, is_admission};

    /// The moment that it gives.
    pub fn moment(&self) -> u64
        ensures { result ≡ moment_of self.now }
    {
        match self {
            Event::Admit { moment, .. } => *moment,
            Event::Look { moment, .. } => *moment,
            Event::Sweep { moment } => *moment,
            Event::Forget { moment, .. } => *moment,
            Event::Do { moment, .. } => *moment,
            Event::Undo { moment } => *moment,
            Event::Redo { moment } => *moment,
            Event::UndoOf { moment, .. } => *moment,
            Event::RedoOf { moment, .. } => *moment,
        }
    }

    /// Whether it is an admission.
    pub fn is_admission(&self) -> bool
        ensures { result ≡ is_admission self.now }
    {
        matches!(self, Event::Admit { .. })
    }
}

/// What a lookup sees, with the data borrowed.
#[derive(Drop)]
pub enum Look<'a> {
    /// Nothing that may be shown.
    Unknown,
    /// A find that is alive, with the seconds left.
    Held(Held<'a>),
    /// The answer of local zones, which is not `Pass`.
    Local(Local<LocalSet<'a>, &'a LocalRecord>),
}

impl Look<'_> {
    ghost use Rattle.history.specs.Reply.{look_seen};

    /// The same with a share of the data. It fails if a find has more owners than can be counted.
    pub fn to_seen(&self, alloc: Global) -> Result<Seen, NoMemory>
        ensures { IfOk result (λ seen. seen ≡ look_seen self.now) }
    {
        match self {
            Look::Unknown => Ok(Seen::Unknown),
            Look::Held(held) => Ok(Seen::Held(Shown {
                rank: held.rank,
                left: held.left,
                body: held.body.share()?,
            })),
            Look::Local(answer) => Ok(Seen::Local(share_answer(alloc, answer)?)),
        }
    }
}

/// A local answer with shares of its records.
pub fn share_answer(
    alloc: Global,
    answer: &Local<LocalSet<'_>, &LocalRecord>,
) -> Result<Local<Items<SeenRecord>, LocalRecord>, NoMemory>
    ensures { IfOk result (λ shared. shared ≡ local_now answer.now) }
{
    match answer {
        Local::Data(set) => Ok(Local::Data(set.to_items(alloc)?)),
        Local::NoData(soa) => Ok(Local::NoData(share_soa(soa)?)),
        Local::NoName(soa) => Ok(Local::NoName(share_soa(soa)?)),
        Local::Refuse => Ok(Local::Refuse),
        Local::Drop => Ok(Local::Drop),
        Local::Pass => Ok(Local::Pass),
    }
}

fn share_soa(soa: &Option<&LocalRecord>) -> Result<Option<LocalRecord>, NoMemory>
    ensures { IfOk result (λ shared. shared ≡ option_map (λ r. r.now) soa.now) }
{
    match soa {
        Some(record) => Ok(Some(record.share()?)),
        None => Ok(None),
    }
}

/// What a lookup sees, with a share of the data.
#[derive(Drop, PartialEq)]
pub enum Seen {
    /// Nothing that may be shown.
    Unknown,
    /// A find that is alive, with the seconds left.
    Held(Shown<SharedFind>),
    /// The answer of local zones, which is not `Pass`.
    Local(Local<Items<SeenRecord>, LocalRecord>),
    /// The local zones, in order.
    Zones(Items<Shared<Zone>>),
    /// The local records, in order.
    Records(Items<LocalRecord>),
    /// The stubs, in order.
    Stubs(Items<Shared<Stub>>),
    /// The commands that can be undone or redone, the oldest first.
    Commands(Items<Journalled>),
    /// Those of these commands that need another undone, or redone, before them.
    Buried(Items<BuriedCommand>),
    /// The servers that are closest to a name.
    Servers(Shared<Servers>),
    /// The name to forget first, if any name has a find that is alive.
    Oldest(Option<Name>),
    /// A command that can be undone.
    Command(Journalled),
    /// The undo or the redo that was asked about would be refused.
    Refused(Refusal),
}

/// Why an undo or a redo would be refused.
#[derive(Clone, Copy, PartialEq, Eq, Drop)]
pub enum Refusal {
    /// No command can be undone.
    NothingToUndo,
    /// No command can be redone.
    NothingToRedo,
    /// The command of the ticket cannot be undone: the journal does not hold it so.
    NotKept,
    /// The command cannot be undone before another of its table: the farthest of those in the way.
    Buried { ticket: u64 },
}

impl Seen {
    /// The same once more, if it is what a lookup of a question sees: it shares the data. None if it is anything else.
    pub fn share(&self, alloc: Global) -> Result<Option<Seen>, NoMemory>
        ensures { IfOk result (λ shared. MatchOption shared ⊤ (λ seen. seen ≡ self.now)) }
    {
        match self {
            Seen::Unknown => Ok(Some(Seen::Unknown)),
            Seen::Held(held) => Ok(Some(Seen::Held(Shown {
                rank: held.rank,
                left: held.left,
                body: held.body.share()?,
            }))),
            Seen::Local(answer) => Ok(Some(Seen::Local(share_seen_answer(alloc, answer)?))),
            Seen::Refused(refusal) => Ok(Some(Seen::Refused(*refusal))),
            _ => Ok(None),
        }
    }
}

/// A local answer once more, with shares of its records.
fn share_seen_answer(
    alloc: Global,
    answer: &Local<Items<SeenRecord>, LocalRecord>,
) -> Result<Local<Items<SeenRecord>, LocalRecord>, NoMemory>
    ensures { IfOk result (λ shared. shared ≡ answer.now) }
{
    match answer {
        Local::Data(set) => Ok(Local::Data(share_seen(alloc, set.as_slice())?)),
        Local::NoData(soa) => Ok(Local::NoData(share_seen_soa(soa)?)),
        Local::NoName(soa) => Ok(Local::NoName(share_seen_soa(soa)?)),
        Local::Refuse => Ok(Local::Refuse),
        Local::Drop => Ok(Local::Drop),
        Local::Pass => Ok(Local::Pass),
    }
}

fn share_seen_soa(soa: &Option<LocalRecord>) -> Result<Option<LocalRecord>, NoMemory>
    ensures { IfOk result (λ shared. shared ≡ soa.now) }
{
    match soa {
        Some(record) => Ok(Some(record.share()?)),
        None => Ok(None),
    }
}

/// A command that can be undone or redone, as the journal holds it.
#[derive(Drop, PartialEq)]
pub struct Journalled {
    pub ticket: u64,
    /// Whether it can be undone; else it can be redone.
    pub done: bool,
    pub command: Command,
}

/// A command that can be undone or redone only after another of its table.
#[derive(Drop, PartialEq)]
pub struct BuriedCommand {
    pub ticket: u64,
    /// The ticket of the other: of those in the way the farthest.
    pub by: u64,
}

/// Why a command is refused.
#[derive(Clone, Copy, PartialEq, Eq)]
pub enum Reason {
    /// The record's owner is strictly below the redirect zone that it lies in.
    BelowRedirect,
    /// A record would lie strictly below the name of a redirect zone.
    DataBelow,
    /// A name would have a CNAME and another type.
    CnameClash,
    /// A list would be longer than it may be, or a stub's addresses are not 1 to 8.
    TooMany,
}

/// The reply to an event.
#[derive(Drop, PartialEq)]
pub enum Reply {
    /// The find is cached.
    Taken,
    /// The find is not cached: the cache has one that is alive and of higher rank.
    Outranked,
    /// What the look sees.
    Seen(Seen),
    /// The book may have dropped what it can never show again.
    Swept,
    /// The cells of the name are empty.
    Forgotten,
    /// The command is accepted, and took this ticket.
    Done { ticket: u64 },
    /// The command is refused, and nothing changes.
    Refused(Reason),
    /// The command of this ticket is taken back.
    Undone { ticket: u64 },
    /// The command of this ticket is put back.
    Redone { ticket: u64 },
    /// No command can be undone.
    NothingToUndo,
    /// No command can be redone.
    NothingToRedo,
    /// The command of the ticket that was named cannot be undone, or redone: the journal does not hold it so.
    NotKept,
    /// The command that was named cannot be undone, or redone, before another of its table: the farthest of those in the way.
    Buried { ticket: u64 },
}

impl Reply {
    ghost use Rattle.history.specs.Reply.{ticket_taken};

    /// The ticket that a command took, if this is the reply to one.
    pub fn ticket_taken(&self) -> Option<u64>
        ensures { result ≡ ticket_taken self.now }
    {
        match self {
            Reply::Done { ticket } => Some(*ticket),
            _ => None,
        }
    }
}

/// An event that was taken, with the moment at which it counts and the ticket that it took.
#[derive(Drop)]
pub struct Entry {
    pub event: Event,
    /// In seconds: the greatest moment that was given so far, by this event too.
    pub moment: u64,
    pub ticket: Option<u64>,
}

/// The settings that a book is made with.
#[derive(Drop, PartialEq)]
pub struct Settings {
    /// How many of the newest commands can be undone, from 1 to `MOST_COMMANDS`.
    pub journal: usize,
    /// How many cells there may be, from 1 to `MOST_CELLS`.
    pub cells: usize,
    /// The addresses of the root's servers, at most `MOST_HINTS`.
    pub hints: Items<Addr>,
    /// The port of the servers whose addresses are in the cache, from 1 to 65,535.
    pub server_port: u16,
}
