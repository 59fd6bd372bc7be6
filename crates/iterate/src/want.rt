//! The inputs of a task, and its wants.

ghost use Rattle.std.specs.Prelude.{◌≡◌, IfOk};

use crate::answer::Answer;
use crate::limits::MOST_FINDS;
use dns_name::NoMemory;
use dns_query::Over;
use dns_text::{Addr, Octets, Shared};
use history::{DeskFault, Event, Reply};
use std::alloc::Global;

/// How many finds of a response may be handed to the book. No answer depends on it.
#[derive(Clone, Copy, PartialEq, Eq)]
pub struct Allowance {
    /// Those of an answer, or of a referral.
    pub finds: usize,
    /// Those of a response that denies. Strangers choose what is denied, also by zones that are not theirs.
    pub of_denial: usize,
}

impl Allowance {
    /// As many as of any response.
    pub fn full() -> Allowance
        ensures { result ≡ record { finds = MOST_FINDS; of_denial = MOST_FINDS } }
    {
        Allowance {
            finds: MOST_FINDS,
            of_denial: MOST_FINDS,
        }
    }
}

/// The reason that a task gets no reply from the book.
#[derive(Clone, Copy, PartialEq, Eq)]
pub enum AskFault {
    /// The desk gives none: this is its fault.
    Desk(DeskFault),
    /// The desk puts off a look for the name to forget first, since much of the book is left to sweep.
    Unswept,
}

/// An input of a task.
#[derive(Drop)]
pub enum Input {
    /// The task begins.
    Begin,
    /// The book replied.
    Reply(Reply),
    /// The book refused the event, or was not asked.
    Refused(AskFault),
    /// The server sent these octets. So many finds of the response may be handed to the book.
    Came {
        octets: Octets,
        allowance: Allowance,
    },
    /// No response came.
    Failed,
}

/// What a task wants.
#[derive(Drop)]
pub enum Want {
    /// An event for the book.
    Book(Event),
    /// A query to send.
    Send {
        server: Addr,
        over: Over,
        bytes: Shared<Octets>,
    },
    /// The task ends with this answer.
    Finish(Answer),
}

/// An input, and what was wanted then.
#[derive(Drop)]
pub struct Step {
    pub input: Input,
    pub want: Want,
}

impl Want {
    /// The same want. Finds, records and octets are shared.
    pub fn copy(&self, alloc: Global) -> Result<Want, NoMemory>
        ensures { IfOk result (λ x. x ≡ self.now) }
    {
        match self {
            Want::Book(event) => Ok(Want::Book(event.copy()?)),
            Want::Send {
                server,
                over,
                bytes,
            } => Ok(Want::Send {
                server: *server,
                over: *over,
                bytes: bytes.share()?,
            }),
            Want::Finish(answer) => Ok(Want::Finish(answer.copy(alloc)?)),
        }
    }
}
