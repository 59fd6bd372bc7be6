//! A book whose figures anyone can read, without its lock.

ghost use Rattle.std.specs.Prelude.{◌≡◌};

use command_text::push_command;
use dns_name::{Name, NoMemory};
use dns_text::{Question, Shared};
use history::{Ask, Book, Command, Event, Hidden, Look, Reply, Seen, Servers, Settings, StepFault};
use itoa::Buffer;
use local_zone::ZoneTable;
use sha2::{Digest, Sha256};
use std::alloc::Global;
use std::sync::atomic::{AtomicU64, Ordering};
use stub_table::StubTable;

/// The figures of a book. The book writes them at each event that may change them, under its lock. Anyone reads them, and neither
/// waits for the other.
#[derive(Drop)]
pub struct BookFigures {
    /// The cells that are stored.
    pub cells: AtomicU64,
    /// The most cells that may be stored.
    pub most_cells: u64,
    /// The admissions that found all cells full.
    pub full: AtomicU64,
    /// The names that were forgotten to make room.
    pub forgotten: AtomicU64,
    /// The local zones.
    pub zones: AtomicU64,
    /// The records of local data.
    pub records: AtomicU64,
    /// The stubs.
    pub stubs: AtomicU64,
    /// The commands in the journal that are done.
    pub done: AtomicU64,
    /// The commands in the journal that are undone.
    pub undone: AtomicU64,
    /// The most commands that the journal may have.
    pub most_commands: u64,
    /// The ticket of the newest command, or 0.
    pub ticket: AtomicU64,
    /// A digest of the commands, undos and redos so far that were accepted, in order.
    pub digest: AtomicU64,
    /// How many of them may have changed the stubs.
    pub renewals: AtomicU64,
}

/// The value of a figure.
pub fn read_figure(figure: &AtomicU64) -> u64 {
    figure.load(Ordering::SeqCst)
}

/// Sets a figure.
fn set(figure: &AtomicU64, value: u64) {
    figure.store(value, Ordering::SeqCst);
}

impl BookFigures {
    /// The figures of a book that has taken no event.
    pub fn new(settings: &Settings) -> BookFigures {
        BookFigures {
            cells: AtomicU64::new(0),
            most_cells: settings.cells as u64,
            full: AtomicU64::new(0),
            forgotten: AtomicU64::new(0),
            zones: AtomicU64::new(0),
            records: AtomicU64::new(0),
            stubs: AtomicU64::new(0),
            done: AtomicU64::new(0),
            undone: AtomicU64::new(0),
            most_commands: settings.journal as u64,
            ticket: AtomicU64::new(0),
            digest: AtomicU64::new(0),
            renewals: AtomicU64::new(0),
        }
    }

    /// Notes how many commands are done and undone. If there are more than the journal may have, it has dropped the oldest.
    fn note_commands(&self, done: u64, undone: u64) {
        set(&self.done, done.min(self.most_commands));
        set(&self.undone, undone);
    }

    /// Notes the tables.
    fn note_tables<B: Book>(&self, book: &B) {
        let local = book.zones();
        set(&self.zones, local.zones().len() as u64);
        set(&self.records, local.records().len() as u64);
        set(&self.stubs, book.stubs().stubs().len() as u64);
    }

    /// Notes what a reply says of the journal. After a new command none can be redone.
    fn note_journal(&self, reply: &Reply) {
        let done = read_figure(&self.done);
        let undone = read_figure(&self.undone);
        match reply {
            Reply::Done { ticket } => {
                set(&self.ticket, *ticket);
                self.note_commands(done.saturating_add(1), 0);
            }
            Reply::Undone { .. } => {
                self.note_commands(done.saturating_sub(1), undone.saturating_add(1));
            }
            Reply::Redone { .. } => {
                self.note_commands(done.saturating_add(1), undone.saturating_sub(1));
            }
            _ => {}
        }
    }

    /// Notes that a change with this text was accepted, and whether it may have changed the stubs.
    fn note_change(&self, text: &[u8], may_change_stubs: bool) {
        set(&self.digest, digest_with(read_figure(&self.digest), text));
        if may_change_stubs {
            let _ = self.renewals.fetch_add(1, Ordering::SeqCst);
        }
    }

    /// Notes what an event did to a book. A lookup does nothing.
    fn note<B: Book>(&self, book: &B, replied: &Result<Reply, StepFault>) {
        match replied {
            Ok(Reply::Seen(_)) => {}
            Ok(Reply::Taken) | Ok(Reply::Outranked) | Ok(Reply::Swept) => {
                set(&self.cells, book.stored() as u64);
            }
            Ok(Reply::Forgotten) => {
                set(&self.cells, book.stored() as u64);
                let _ = self.forgotten.fetch_add(1, Ordering::SeqCst);
            }
            Ok(reply) => {
                set(&self.cells, book.stored() as u64);
                self.note_journal(reply);
                self.note_tables(book);
            }
            Err(StepFault::Full { .. }) => {
                let _ = self.full.fetch_add(1, Ordering::SeqCst);
            }
            Err(_) => {}
        }
    }
}

/// A digest with one change more: the first eight octets of the SHA-256 of the digest so far and of the text of the change.
fn digest_with(digest: u64, text: &[u8]) -> u64 {
    let mut hasher = Sha256::new();
    hasher.update(digest.to_be_bytes().as_slice());
    hasher.update(text);
    let whole = hasher.finalize();
    let mut front = [0u8; 8];
    front.copy_from_slice(&whole[..8]);
    u64::from_be_bytes(front)
}

fn push_move(word: &[u8], ticket: u64, out: &mut Vec<u8>) -> Result<(), NoMemory> {
    let mut digits = Buffer::new();
    out.extend_from_slice(word)?;
    out.extend_from_slice(digits.format(ticket).as_bytes())
}

/// Writes the text of the change that an event is, if it is one. If memory runs out, a part of it may have been written.
fn write_change(event: &Event, out: &mut Vec<u8>) {
    let _ = match event {
        Event::Do { command, .. } => push_command(command, out),
        Event::Undo { .. } => out.extend_from_slice(b"undo"),
        Event::Redo { .. } => out.extend_from_slice(b"redo"),
        Event::UndoOf { ticket, .. } => push_move(b"undo ", *ticket, out),
        Event::RedoOf { ticket, .. } => push_move(b"redo ", *ticket, out),
        _ => Ok(()),
    };
}

/// Whether an event may change the stubs: a command about them does, and any undo or redo may.
fn may_change_stubs(event: &Event) -> bool {
    match event {
        Event::Do { command, .. } => {
            matches!(command, Command::SetStub { .. } | Command::DropStub { .. })
        }
        Event::Undo { .. } | Event::Redo { .. } => true,
        Event::UndoOf { .. } | Event::RedoOf { .. } => true,
        _ => false,
    }
}

/// Whether a change was accepted.
fn is_accepted(replied: &Result<Reply, StepFault>) -> bool {
    match replied {
        Ok(Reply::Done { .. }) | Ok(Reply::Undone { .. }) | Ok(Reply::Redone { .. }) => true,
        _ => false,
    }
}

/// A book that keeps its figures. It is that book in all else.
#[derive(Drop)]
pub struct WatchedBook<B: Book> {
    book: B,
    figures: Shared<BookFigures>,
    /// The text of the last change.
    text: Vec<u8>,
}

impl<B: Book> WatchedBook<B> {
    /// A book that has taken no event, and its figures.
    pub fn new(alloc: Global, book: B, figures: Shared<BookFigures>) -> WatchedBook<B>
        ensures { result.book ≡ book }
    {
        WatchedBook {
            book,
            figures,
            text: Vec::new(alloc),
        }
    }
}

impl<B: Book> Book for WatchedBook<B> {
    ghost stands_for = { λ watched history. B.stands_for watched.book history };

    ghost settings = { λ watched. B.settings watched.book };

    ghost stored = { λ watched. B.stored watched.book };

    ghost unswept = { λ watched. B.unswept watched.book };

    ghost is_free = { λ watched event. B.is_free watched.book event };

    ghost has_journal = { λ watched history is. B.has_journal watched.book history is };

    ghost stores_few = { λ watched history is. B.stores_few watched.book history is };

    ghost one_count = { λ watched h k is also. B.one_count watched.book h k is also };

    fn step(&mut self, event: Event) -> Result<Reply, StepFault> {
        self.text.clear();
        write_change(&event, &mut self.text);
        let may_change_stubs = may_change_stubs(&event);
        let replied = self.book.step(event);
        let figures = self.figures.get();
        figures.note(&self.book, &replied);
        if is_accepted(&replied) {
            figures.note_change(self.text.as_slice(), may_change_stubs);
        }
        replied
    }

    // Of the events that a book follows, only a sweep changes figures. Nobody reads those of a book that follows another one.
    fn follow(&mut self, event: Event) -> Result<(), StepFault> {
        let is_sweep = matches!(event, Event::Sweep { .. });
        let followed = self.book.follow(event);
        if is_sweep {
            set(&self.figures.get().cells, self.book.stored() as u64);
        }
        followed
    }

    fn sweep_some(&mut self) -> bool {
        let more = self.book.sweep_some();
        set(&self.figures.get().cells, self.book.stored() as u64);
        more
    }

    fn seen(&self, ask: &Ask, moment: u64) -> Result<Seen, NoMemory> {
        self.book.seen(ask, moment)
    }

    fn look<'a>(&'a self, question: &'a Question, moment: u64) -> Look<'a> {
        self.book.look(question, moment)
    }

    fn zones(&self) -> &ZoneTable {
        self.book.zones()
    }

    fn stubs(&self) -> &StubTable {
        self.book.stubs()
    }

    fn servers(&self, name: &Name, moment: u64) -> Result<Servers, NoMemory> {
        self.book.servers(name, moment)
    }

    fn hidden_some(&self, ticket: u64, from: u64, moment: u64) -> Hidden {
        self.book.hidden_some(ticket, from, moment)
    }

    fn stored(&self) -> usize {
        self.book.stored()
    }

    fn limit(&self) -> usize {
        self.book.limit()
    }
}
