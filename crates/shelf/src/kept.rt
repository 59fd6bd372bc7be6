//! The cells that are kept for a question.

ghost use Rattle.std.specs.Prelude.{◌≡◌, ◌≤◌, ◌+◌, [], length};
ghost use Rattle.cell_store.specs.Same.{same_cell};
ghost use Rattle.dns_text.specs.declared.record.Question.{Question};
ghost use Rattle.shelf.specs.KeptCells.{has_question, kept_cells, kept_changes, AreApart};
ghost use Rattle.shelf.specs.Settling.{settled_cell};
ghost use Rattle.shelf.specs.Sweep.{numbers_of};

use crate::settling::{Settling, settled_version};
use crate::shelf::{KeptFlush, Shelf};
use cell_store::{Owners, has_pair, is_same};
use dns_text::Question;
use ranked::Scope;

// Whether a place of a question counts: that of its type, or of the whole name.
fn has_question(owners: &Owners, question: &Question) -> bool
    ensures { result ≡ has_question owners.now question.now }
{
    has_pair(owners, &question.owner, Scope::One(question.kind))
        || has_pair(owners, &question.owner, Scope::Whole)
}

// Whether two versions of a question have the same find from the same moment, or both have none.
fn is_alike(
    owners: &Owners,
    settlings: &[Settling],
    question: &Question,
    version: u64,
    other: u64,
) -> bool
    ensures { let cell = settled_cell settlings.now owners.now question.now in result ≡ same_cell (cell version) (cell other) }
{
    let version = settled_version(settlings, &question.owner, version);
    let other = settled_version(settlings, &question.owner, other);
    is_same(owners, &question.owner, question.kind, version, other)
}

// The number of versions whose cell differs from that of the version before, after version 0.
fn count_changes(
    owners: &Owners,
    settlings: &[Settling],
    kept: &[KeptFlush],
    question: &Question,
) -> usize
    ensures value { result ≡ length (kept_changes settlings.now owners.now kept.now question.now) }
    ensures few { result ≤ length kept.now }
{
    let mut count = 0;
    let mut last = 0;
    for own in kept {
        if own.flush.covers(&question.owner, question.kind)
            && !is_alike(owners, settlings, question, last, own.number)
        {
            count += 1;
            last = own.number;
        }
    }
    count
}

impl Shelf {
    /// The number of cells that are kept for a question: one for version 0 and each kept flush that covers it, and one for neighbours that
    /// hold the same find since the same moment or are both empty. If a find of the whole name is cached, it is kept for each type.
    /// It is 0 if neither the place of the type nor that of the whole name is counted. A place that a permanent flush of a zone emptied is
    /// counted until the flush reaches its name, with one empty cell. It takes no memory.
    pub fn kept(&self, question: &Question) -> usize
        ensures value { result ≡ length (kept_cells self.now question.now) }
        ensures apart { AreApart same_cell (kept_cells self.now question.now) }
        ensures few { result ≤ length (numbers_of self.now.kept.items question.now) + 1 }
    {
        if has_question(&self.owners, question) {
            count_changes(&self.owners, &self.settlings, &self.kept, question) + 1
        } else {
            0
        }
    }
}
