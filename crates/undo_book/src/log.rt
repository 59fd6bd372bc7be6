//! The log of a book: each event that was taken, and whether its command is struck.

ghost use Rattle.std.specs.Prelude.{◌≡◌, map};
ghost use Rattle.undo_book.specs.Plain.{flags_by, with_flag};

use history::{Entry, Reply};

/// An entry, with whether the command that it gave is struck. So a replay reads one entry after the other and searches nothing.
#[derive(Drop)]
pub struct Logged {
    pub entry: Entry,
    pub struck: bool,
}

impl Logged {
    /// Its flag, if the command of a ticket had this one.
    pub fn flag_with(&self, ticket: u64, struck: bool) -> bool
        ensures { result ≡ (with_flag ticket struck self.now).struck }
    {
        if self.entry.ticket == Some(ticket) {
            struck
        } else {
            self.struck
        }
    }

    /// Sets the flag, if the entry took this ticket.
    fn set_flag(&mut self, ticket: u64, struck: bool)
        ensures { self.new ≡ with_flag ticket struck self.old }
    {
        if let Some(own) = self.entry.ticket {
            if own == ticket {
                self.struck = struck;
            }
        }
    }
}

/// Sets the flags after an event that got this reply.
pub(crate) fn set_flags(log: &mut Vec<Logged>, reply: &Reply)
    ensures { log.new.items ≡ flags_by reply.now log.old.items }
{
    match reply {
        Reply::Undone { ticket } => flag_entry(log, *ticket, true),
        Reply::Redone { ticket } => flag_entry(log, *ticket, false),
        _ => {}
    }
}

/// Sets the flag of the entry that took a ticket.
fn flag_entry(log: &mut Vec<Logged>, ticket: u64, struck: bool)
    ensures { log.new.items ≡ map (with_flag ticket struck) log.old.items }
{
    for logged in log.iter_mut() {
        logged.set_flag(ticket, struck);
    }
}
