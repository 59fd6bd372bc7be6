//! The answer to a question from the table.

use crate::record::LocalRecord;
use dns_name::Name;
use dns_text::{Data, Ttl};
use std::marker::Model;

/// The answer to a question: a set `S`, or a negative answer, which may carry an SOA record `R`.
#[derive(Drop, PartialEq)]
pub enum Local<S, R> {
    /// These records.
    Data(S),
    /// The name exists, and has no data of this TYPE.
    NoData(Option<R>),
    /// The name does not exist.
    NoName(Option<R>),
    /// The question is refused.
    Refuse,
    /// The question gets no reply.
    Drop,
    /// The table has no answer, so the question is looked up.
    Pass,
}

/// A record of an answer: the parts of a local one, which may be shown with another owner.
#[derive(Drop)]
pub struct ShownRecord<'a> {
    pub owner: &'a Name,
    pub kind: u16,
    pub ttl: Ttl,
    pub body: &'a Data,
}

/// The records of an answer that are still to come, in order, each shown with the owner `shown`. It takes no memory.
#[derive(Drop)]
pub struct LocalSet<'a> {
    pub(crate) records: &'a [LocalRecord],
    pub(crate) shown: &'a Name,
}

impl<'a> Model for LocalSet<'a> {
    ghost use Rattle.std.specs.Prelude.{List, map};
    ghost use Rattle.dns_text.specs.declared.record.Record.{Record};
    ghost use Rattle.local_zone.specs.Show.{shown_as};

    ghost Value = { List Record };

    ghost view = { λ s. map (shown_as s.shown.now) s.records.now };
}

impl<'a> Iterator for LocalSet<'a> {
    type Item = ShownRecord<'a>;

    ghost use Rattle.std.specs.Iterator.{YieldsFirstBy, item_count};
    ghost use Rattle.local_zone.specs.Shown.{record_shown};

    ghost next_gives = { YieldsFirstBy record_shown (λ s. s) };

    ghost remaining = { item_count (λ s. s) };

    fn next(&mut self) -> Option<ShownRecord<'a>> {
        let (first, later) = self.records.split_first()?;
        self.records = later;
        Some(ShownRecord {
            owner: self.shown,
            kind: first.kind(),
            ttl: first.ttl(),
            body: first.body(),
        })
    }
}
