//! A book whose replies go into a digest.

use crate::digest::Digest;
use dns_name::Name;
use dns_text::Question;
use history::{Ask, Book, Event, Reply, Seen, StepFault};
use ranked::SharedFind;
use std::alloc::Global;

/// A book, and the digest of what it replied.
#[derive(Drop)]
pub struct Noted<B: Book> {
    alloc: Global,
    book: B,
    pub digest: Digest,
}

impl<B: Book> Noted<B> {
    /// The book has replied nothing.
    pub fn new(alloc: Global, book: B) -> Noted<B> {
        Noted {
            alloc,
            book,
            digest: Digest::new(),
        }
    }

    /// Takes a reply in, and how many cells the book has. The reply is dropped by a call, since the prover follows any other drop variant
    /// by variant.
    fn note(&mut self, reply: Reply) -> anyhow::Result<()> {
        let noted = self.digest.reply(self.alloc, &reply);
        drop(reply);
        self.digest.number(self.book.stored() as u64);
        Ok(noted?)
    }

    /// Gives the book an event.
    pub fn give(&mut self, event: Event) -> anyhow::Result<()> {
        let reply = self.book.step(event)?;
        self.note(reply)
    }

    /// Looks a question up.
    pub fn look(&mut self, question: &Question, moment: u64) -> anyhow::Result<()> {
        let look = self.book.look(question, moment);
        Ok(self.digest.look(self.alloc, &look)?)
    }

    /// Admits a find, and returns whether there was room.
    fn is_taken(&mut self, moment: u64, find: &SharedFind) -> anyhow::Result<bool> {
        let find = find.share()?;
        match self.book.step(Event::Admit { moment, find }) {
            Ok(reply) => {
                self.note(reply)?;
                Ok(true)
            }
            Err(StepFault::Full { stored }) => {
                self.digest.number(6);
                self.digest.number(stored as u64);
                Ok(false)
            }
            Err(fault) => Err(fault.into()),
        }
    }

    /// The name that ends first.
    fn oldest(&mut self, moment: u64) -> anyhow::Result<Option<Name>> {
        let ask = Ask::Oldest;
        match self.book.step(Event::Look { moment, ask })? {
            Reply::Seen(Seen::Oldest(name)) => Ok(name),
            other => {
                drop(other);
                Ok(None)
            }
        }
    }

    /// Forgets the name that ends first, if a name is alive.
    fn make_room(&mut self, moment: u64) -> anyhow::Result<()> {
        match self.oldest(moment)? {
            Some(owner) => {
                self.digest.octets(owner.octets());
                self.give(Event::Forget { moment, owner })
            }
            None => Ok(()),
        }
    }

    /// Takes a find as the service does: it admits the find, sweeps if there is no room, and forgets the name that ends first if there
    /// still is none.
    pub fn take(&mut self, moment: u64, find: &SharedFind) -> anyhow::Result<()> {
        if self.is_taken(moment, find)? {
            return Ok(());
        }
        self.give(Event::Sweep { moment })?;
        if self.is_taken(moment, find)? {
            return Ok(());
        }
        self.make_room(moment)?;
        self.is_taken(moment, find)?;
        Ok(())
    }

    /// Frees some of what has ended, as the sweeper of the service does by turns. False if nothing is left.
    pub fn sweep_some(&mut self) -> bool {
        let more = self.book.sweep_some();
        self.digest.number(u64::from(more));
        self.digest.number(self.book.stored() as u64);
        more
    }
}
