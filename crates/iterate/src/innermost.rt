//! The innermost question of a search.

ghost use Rattle.std.specs.Prelude.{◌≡◌, ◌+◌, ◌-◌, ◌^◌, ◌<◌, IfOk};
ghost use Rattle.dns_query.specs.Query.{address_question};
ghost use Rattle.iterate.specs.Searching.{hunt_of, question_of};

use crate::limits::MOST_BEGUN;
use crate::path::Path;
use crate::search::{Hunt, Search};
use dns_name::{Name, NoMemory};
use dns_text::{Question, types};

/// The question for the IPv4 addresses of a name.
pub(crate) fn address_question(name: &Name) -> Result<Question, NoMemory>
    ensures { IfOk result (λ question. question ≡ address_question name.now) }
{
    Ok(Question {
        owner: name.clone()?,
        kind: types::A,
    })
}

impl Search {
    /// The servers that it is asked of.
    pub(crate) fn hunt(&self) -> &Hunt
        ensures { result.now ≡ hunt_of self.now }
    {
        match self.frames.as_slice().first() {
            Some(frame) => &frame.hunt,
            None => &self.base,
        }
    }

    /// The question that is asked.
    pub(crate) fn question(&self) -> Result<Question, NoMemory>
        ensures { IfOk result (λ question. question ≡ question_of self.now) }
    {
        match self.frames.as_slice().first() {
            Some(frame) => address_question(&frame.target),
            None => Ok(Question {
                owner: self.path.last.owner.clone()?,
                kind: self.path.last.kind,
            }),
        }
    }

    /// Counts one more query as sent.
    pub(crate) fn counted(self) -> Search
        ensures { self.path.sent < 2 ^ 64 - 1 → result ≡ record self { path = record self.path { sent = self.path.sent + 1 } } }
    {
        let Search { path, base, frames } = self;
        let Path {
            sets,
            last,
            sent,
            begun,
        } = path;
        Search {
            path: Path {
                sets,
                last,
                sent: sent.saturating_add(1),
                begun,
            },
            base,
            frames,
        }
    }

    /// Counts one more question for the address of a server as begun.
    pub(crate) fn begun(self) -> Search
        requires { self.path.begun < MOST_BEGUN }
        ensures { result ≡ record self { path = record self.path { begun = self.path.begun + 1 } } }
    {
        let Search { path, base, frames } = self;
        let Path {
            sets,
            last,
            sent,
            begun,
        } = path;
        Search {
            path: Path {
                sets,
                last,
                sent,
                begun: begun + 1,
            },
            base,
            frames,
        }
    }
}
