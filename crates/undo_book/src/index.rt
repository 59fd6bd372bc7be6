//! The index of a log: the entries that can change a cell.

ghost use Rattle.std.specs.Prelude.{◌≡◌, ◌<◌, ◌++◌, [], vec_len, vec_capacity};
ghost use Rattle.std.specs.List.{cons_option};
ghost use Rattle.undo_book.specs.Plain.{content_of, question_of};
ghost use Rattle.undo_book.specs.Index.{concerns, index_of_entry, tag_of, cell_after_indexed};

use crate::log::Logged;
use crate::replay::replay_entry;
use dns_name::Name;
use history::Event;
use ranked::{Cell, SharedFind};
use std::hash::{FoldHasher, Hash, Hasher};

/// A number that equal names share. Others share it seldom, unless they are chosen for it: then a replay only reads more.
pub(crate) fn tag(name: &Name) -> u64
    ensures { result ≡ tag_of name.now }
{
    let mut hasher = FoldHasher::default();
    name.hash(&mut hasher);
    hasher.finish()
}

/// The place of an entry that can change a cell: an admission or a forget, with the tag of its owner, or a command.
#[derive(Clone, Copy, Drop)]
pub struct Indexed {
    pub at: usize,
    pub tag: Option<u64>,
}

impl Indexed {
    /// The index entry for this event, or None if the event cannot change any cell.
    pub fn of(at: usize, event: &Event) -> Option<Indexed>
        ensures { result ≡ index_of_entry at event.now }
    {
        match event {
            Event::Admit { find, .. } => Some(Indexed {
                at,
                tag: Some(tag(&find.find().owner)),
            }),
            Event::Forget { owner, .. } => Some(Indexed {
                at,
                tag: Some(tag(owner)),
            }),
            Event::Do { .. } => Some(Indexed { at, tag: None }),
            _ => None,
        }
    }

    /// Whether the entry may be about a name of this tag.
    pub fn concerns(&self, tag: u64) -> bool
        ensures { result ≡ concerns tag self.now.tag }
    {
        match self.tag {
            Some(own) => own == tag,
            None => true,
        }
    }

    /// A cell after the entry, if that is in force and about the question, whose owner has this tag.
    pub fn replay<'a>(
        &self,
        log: &'a [Logged],
        tag: u64,
        owner: &Name,
        kind: u16,
        cell: Cell<&'a SharedFind>,
    ) -> Cell<&'a SharedFind>
        requires { tag ≡ tag_of owner.now }
        ensures { content_of result.held ≡ cell_after_indexed (question_of owner.now kind) log.now (content_of cell.entry.held) self.now }
    {
        if !self.concerns(tag) {
            return cell;
        }
        match log.get(self.at) {
            Some(logged) => replay_entry(owner, kind, logged.struck, cell, &logged.entry),
            None => cell,
        }
    }
}

/// Adds the index entry for this event, if there is one.
pub(crate) fn add_to_index(index: &mut Vec<Indexed>, at: usize, event: &Event)
    requires room { vec_len index.old < vec_capacity index.old }
    ensures { index.new.items ≡ index.old.items ++ cons_option (index_of_entry at event.now) [] }
{
    if let Some(indexed) = Indexed::of(at, event) {
        index.push_reserved(indexed);
    }
}
