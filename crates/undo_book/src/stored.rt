//! How many cells a plain book stores: an admission counts until its owner is forgotten.

ghost use Rattle.std.specs.Prelude.{◌≡◌, ◌+◌, ◌<◌, ◌^◌, ◌++◌, ◌∷◌, [], length};
ghost use Rattle.history.specs.Counts.{counted_of};
ghost use Rattle.undo_book.specs.Stored.{counted_at, counted_then, events_of};

use crate::log::Logged;
use dns_name::Name;
use history::Event;

/// How many cells are stored with an event more.
pub(crate) fn stored_after(stored: usize, log: &Vec<Logged>, event: &Event) -> usize
    requires counted { stored ≡ counted_of (events_of log.now.items) }
    requires short { length log.now.items < 2 ^ 62 }
    ensures { result ≡ counted_of (events_of log.now.items ++ event.now ∷ []) }
{
    match event {
        Event::Admit { .. } => stored + 1,
        Event::Forget { owner, .. } => stored - counted_at(log, owner),
        _ => stored,
    }
}

/// How many admissions of a name no later forget of it follows.
fn counted_at(log: &Vec<Logged>, name: &Name) -> usize
    requires short { length log.now.items < 2 ^ 62 }
    ensures { result ≡ counted_at name.now (events_of log.now.items) }
{
    let mut counted = 0;
    for logged in log {
        counted = counted_then(name, counted, &logged.entry.event);
    }
    counted
}

/// The same after one event more.
fn counted_then(name: &Name, counted: usize, event: &Event) -> usize
    requires few { counted + 1 < 2 ^ 64 }
    ensures { result ≡ counted_then name.now counted event.now }
{
    match event {
        Event::Admit { find, .. } => {
            if *name == find.find().owner {
                counted + 1
            } else {
                counted
            }
        }
        Event::Forget { owner, .. } => { if owner == name { 0 } else { counted } }
        _ => counted,
    }
}
