//! The commands that can be undone and redone, by their tickets.

ghost use Rattle.std.specs.Prelude.{◌≡◌, ◌+◌, ◌<◌, ◌≤◌, ◌^◌, ◌++◌, ◌∷◌, length, take, drop, OnOk, vec_len, vec_capacity};
ghost use Rattle.history.specs.Marks.{without, in_place};

use dns_name::NoMemory;
use std::alloc::Global;

/// The marks of a history. Each entry of the log also says whether it is struck.
#[derive(Drop)]
pub struct PlainMarks {
    pub tickets: u64,
    pub done: Vec<u64>,
    pub undone: Vec<u64>,
    pub struck: Vec<u64>,
}

impl PlainMarks {
    ghost use Rattle.history.specs.Marks.{no_marks, last_of, strike, restore, after_command};
    ghost use Rattle.undo_book.specs.Plain.{marks_in, HasRoom};

    /// The marks before any command.
    pub fn new(alloc: Global) -> PlainMarks
        ensures { marks_in result ≡ no_marks }
    {
        PlainMarks {
            tickets: 0,
            done: Vec::new(alloc),
            undone: Vec::new(alloc),
            struck: Vec::new(alloc),
        }
    }

    /// Makes room for one more ticket in each list.
    pub fn make_room(&mut self) -> Result<(), NoMemory>
        ensures same { marks_in self.new ≡ marks_in self.old }
        ensures room { OnOk result (HasRoom self.new) }
    {
        self.done.reserve(1)?;
        self.undone.reserve(1)?;
        self.struck.reserve(1)?;
        Ok(())
    }

    /// What an undo would reach.
    pub fn last_done(&self) -> Option<u64>
        ensures { result ≡ last_of (marks_in self.now).done }
    {
        self.done.last().copied()
    }

    /// What a redo would reach.
    pub fn last_undone(&self) -> Option<u64>
        ensures { result ≡ last_of (marks_in self.now).undone }
    {
        self.undone.last().copied()
    }

    /// Gives the next ticket to a command.
    pub fn command(&mut self, bound: usize)
        requires room { HasRoom self.old }
        requires few { self.old.tickets + 1 < 2 ^ 64 }
        ensures { marks_in self.new ≡ after_command bound (marks_in self.old) }
    {
        self.tickets += 1;
        self.done.push_reserved(self.tickets);
        if self.done.len() > bound {
            let over = self.done.len() - bound;
            self.done.drain(..over);
        }
        self.undone.clear();
    }

    /// Strikes a command that can be undone.
    pub fn strike(&mut self, ticket: u64)
        requires { HasRoom self.old }
        ensures { marks_in self.new ≡ strike (marks_in self.old) ticket }
    {
        remove_ticket(&mut self.done, ticket);
        self.undone.push_reserved(ticket);
        self.struck.push_reserved(ticket);
    }

    /// Puts a command that can be redone in force again.
    pub fn restore(&mut self, ticket: u64)
        requires { HasRoom self.old }
        ensures { marks_in self.new ≡ restore (marks_in self.old) ticket }
    {
        put_in_place(&mut self.done, ticket);
        remove_ticket(&mut self.undone, ticket);
        remove_ticket(&mut self.struck, ticket);
    }
}

fn remove_ticket(tickets: &mut Vec<u64>, ticket: u64)
    ensures { tickets.new.items ≡ without ticket tickets.old.items }
{
    tickets.retain(|t| *t != ticket);
}

/// Puts a ticket at its place in the order of tickets.
fn put_in_place(tickets: &mut Vec<u64>, ticket: u64)
    requires { vec_len tickets.old < vec_capacity tickets.old }
    ensures { tickets.new.items ≡ in_place ticket tickets.old.items }
{
    let place = place_of(tickets, ticket);
    let _ = tickets.insert(place, ticket);
}

/// The number of tickets before the first one that is greater than this.
fn place_of(tickets: &[u64], ticket: u64) -> usize
    ensures within { result ≤ length tickets.now }
    ensures place { in_place ticket tickets.now ≡ take result tickets.now ++ ticket ∷ drop result tickets.now }
{
    for place in 0..tickets.len() {
        if ticket < tickets[place] {
            return place;
        }
    }
    tickets.len()
}
