//! A book that tells something of each kind.

ghost use Rattle.std.specs.Prelude.{[], IfOk};
ghost use Rattle.shared_book.specs.Fresh.{CanShare};

use anyhow::anyhow;
use dns_name::Name;
use dns_text::{Items, Shared, read_record};
use history::{Book, Command, Desk, Event, MOST_CELLS, MOST_COMMANDS, MakeFault, Reply, Settings};
use local_zone::ZoneType;
use ranked::{Find, Rank, SharedFind};
use std::alloc::Global;
use undo_book::{PlainBook, ShelfBook};

/// A book that was given nothing.
pub fn empty_book(alloc: Global) -> Result<PlainBook, MakeFault>
    ensures { IfOk result (λ b. ⟦<PlainBook as Book>⟧.stands_for b []) }
{
    PlainBook::new(alloc, small_settings(alloc))
}

fn small_settings(alloc: Global) -> Settings {
    settings_with(alloc, 64, 100)
}

/// The same, and an opening book to it.
pub fn empty_books(alloc: Global) -> Result<(PlainBook, PlainBook), MakeFault>
    ensures { IfOk result (λ b. CanShare ⟦<PlainBook as Book>⟧.stands_for ⟦<PlainBook as Book>⟧.settings b.0 b.1) }
{
    let settings = small_settings(alloc);
    let opening = PlainBook::lagging(alloc, &settings)?;
    let book = PlainBook::new(alloc, settings)?;
    Ok((book, opening))
}

/// The book of the program, which was given nothing. It can undo one command, and hold as many cells as there may be.
pub fn empty_shelf(alloc: Global) -> Result<ShelfBook, MakeFault> {
    shelf_with(alloc, 1, MOST_CELLS)
}

/// The same, which can undo as many commands as any book.
pub fn shelf_with_journal(alloc: Global) -> Result<ShelfBook, MakeFault> {
    shelf_with(alloc, MOST_COMMANDS, MOST_CELLS)
}

/// The same as the first with room for so many cells.
pub fn shelf_of(alloc: Global, cells: usize) -> Result<ShelfBook, MakeFault> {
    shelf_with(alloc, 1, cells)
}

/// The same, and an opening book to it.
pub fn shelves_of(alloc: Global, cells: usize) -> Result<(ShelfBook, ShelfBook), MakeFault>
    ensures { IfOk result (λ b. CanShare ⟦<ShelfBook as Book>⟧.stands_for ⟦<ShelfBook as Book>⟧.settings b.0 b.1) }
{
    let settings = settings_with(alloc, 1, cells);
    let opening = ShelfBook::lagging(alloc, &settings)?;
    let book = ShelfBook::new(alloc, settings)?;
    Ok((book, opening))
}

fn shelf_with(alloc: Global, journal: usize, cells: usize) -> Result<ShelfBook, MakeFault> {
    ShelfBook::new(alloc, settings_with(alloc, journal, cells))
}

fn settings_with(alloc: Global, journal: usize, cells: usize) -> Settings {
    Settings {
        journal,
        cells,
        hints: Items::new(Vec::new(alloc)),
        server_port: 53,
    }
}

/// A record's text as a find of the highest rank.
pub fn find_in(alloc: Global, text: &[u8]) -> anyhow::Result<SharedFind> {
    let record = read_record(alloc, text)?;
    let ttl = record.ttl.seconds();
    let mut data = Vec::new(alloc);
    data.push(record.body)?;
    let rank = Rank::AuthoritativeAnswer;
    let found = Find::new(record.owner, record.kind, rank, ttl, Items::new(data));
    Ok(SharedFind::new(alloc, found.ok_or(anyhow!("no find"))?)?)
}

/// One address of `www.example.to.`, of the highest rank.
pub fn address(alloc: Global) -> anyhow::Result<SharedFind> {
    find_in(alloc, b"www.example.to 60 A 192.0.2.1")
}

/// A record's text as local data.
pub fn local_data(alloc: Global, text: &[u8]) -> anyhow::Result<Command> {
    let record = read_record(alloc, text)?;
    Ok(Command::AddRecord {
        record: Shared::new(alloc, record)?,
    })
}

/// A local zone of this name and type.
pub fn local_zone(alloc: Global, name: &[u8], kind: ZoneType) -> anyhow::Result<Command> {
    Ok(Command::SetZone {
        name: Name::from_text(alloc, name)?,
        kind,
    })
}

/// Gives a book an event. Its reply is dropped by a call, since the prover follows any other drop variant by variant.
pub fn give<D: Desk>(desk: &mut D, event: Event) -> anyhow::Result<()> {
    let reply = desk.call(event)?;
    drop(reply);
    Ok(())
}

/// Gives a book a command of the operator.
pub fn command<B: Book>(book: &mut B, command: Command) -> anyhow::Result<()> {
    give(book, Event::Do { moment: 0, command })
}

/// The same, which returns the command's ticket.
pub fn give_command<B: Book>(book: &mut B, command: Command) -> anyhow::Result<u64> {
    match book.step(Event::Do { moment: 0, command })? {
        Reply::Done { ticket } => Ok(ticket),
        other => {
            drop(other);
            Err(anyhow!("a command was refused"))
        }
    }
}

/// A book that holds one address of `www.example.to.`, has local data of `www.example.net.`, and refuses `www.example.org.`.
/// It is any book, since the prover follows the drop of a certain one field by field, on each early return.
fn filled<B: Book>(alloc: Global, mut book: B) -> anyhow::Result<B> {
    let find = address(alloc)?;
    give(&mut book, Event::Admit { moment: 0, find })?;
    command(
        &mut book,
        local_data(alloc, b"www.example.net 60 A 192.0.2.2")?,
    )?;
    command(
        &mut book,
        local_zone(alloc, b"example.org", ZoneType::Refuse)?,
    )?;
    Ok(book)
}

/// Such a book that replays its history.
pub fn filled_book(alloc: Global) -> anyhow::Result<PlainBook> {
    filled(alloc, empty_book(alloc)?)
}
