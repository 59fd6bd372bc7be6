//! The phases of a task, and the step from one to the next.

ghost use Rattle.std.specs.Prelude.{◌≡◌, IfOk, IsErr};
ghost use Rattle.iterate.specs.Going.{BeginsIfFresh, StepsFrom};
ghost use Rattle.iterate.specs.Phase.{drawing};
ghost use Rattle.iterate.specs.Room.{AsksOn};

use crate::admitting::admitted;
use crate::first_lookup::{begin, looked_first};
use crate::following::followed;
use crate::listing::listed;
use crate::outcome::came;
use crate::path::{Path, aliased, looked_on};
use crate::search::Search;
use crate::seeking::sought;
use crate::want::{Input, Want};
use dns_name::{Name, NoMemory};
use dns_query::{Heard, Over};
use dns_text::{Addr, Question};
use harvest::Harvest;
use rand_core::Rng;
use std::alloc::{AllocError, Global};

/// The lookup that is made for a server without an address.
#[derive(Clone, Copy, PartialEq, Eq)]
pub enum Stage {
    /// That of its address.
    Address,
    /// That of an alias of its name: if it has one, the server is not used.
    Alias,
    /// That of the servers to ask about it.
    Servers,
}

/// What the book is asked for a find that it may have no room for.
#[derive(Clone, Copy, PartialEq, Eq)]
pub enum Attempt {
    /// To admit it.
    Admit,
    /// To sweep: it was full.
    Sweep,
    /// To admit it again.
    Again,
    /// Which name to forget first: it was full again.
    Oldest,
    /// To forget that name.
    Forget,
    /// To admit it a last time.
    Last,
}

/// A place among the finds of a response.
#[derive(Drop)]
pub struct Handing {
    /// The search that the response came to.
    pub search: Box<Search>,
    /// What the response says.
    pub heard: Box<Heard>,
    /// How many of its finds may be handed to the book.
    pub allowed: usize,
    /// The place, counted from the first find.
    pub next: usize,
}

/// The phase of a task. The parts that only a search needs are boxed, so the other steps move little.
#[derive(Drop)]
pub enum Phase {
    /// It has not begun.
    Fresh,
    /// It looks the question up.
    First,
    /// It looks up an alias of the last name.
    Aliasing {
        path: Path,
    },
    /// It looks up the question behind an alias.
    Looking {
        path: Path,
    },
    /// It looks up the question behind an alias that came in a response, and keeps what else the response has.
    Following {
        path: Path,
        harvest: Box<Harvest>,
    },
    /// It looks up the servers that are asked about the last question.
    Listing {
        path: Path,
    },
    /// It looks up a server without an address.
    Seeking {
        search: Box<Search>,
        target: Name,
        stage: Stage,
    },
    /// It waits for the outcome of a query to the next server of the innermost question.
    Sent {
        search: Box<Search>,
        server: Addr,
        id: u16,
        over: Over,
    },
    /// It hands finds of a response to the book, now the one at this place, in this attempt.
    Admitting {
        handing: Handing,
        attempt: Attempt,
    },
    /// It has answered.
    Ended,
    /// It ran out of memory.
    Broken,
}

/// A step: the next phase, and what is wanted.
pub(crate) struct Advance {
    pub(crate) phase: Phase,
    pub(crate) want: Want,
}

/// Makes the step from this phase with this input.
pub(crate) fn step_on<R: Rng>(
    alloc: Global,
    port: u16,
    question: &Question,
    phase: Phase,
    moment: u64,
    ids: &mut R,
    input: &Input,
) -> Result<Advance, NoMemory>
    ensures goes { StepsFrom port question.now phase moment input.now (drawing (R.stream ids.old) (R.stream ids.new)) result }
    ensures fresh { BeginsIfFresh port question.now phase moment (drawing (R.stream ids.old) (R.stream ids.new)) result }
    ensures asks { IfOk result (λ next. AsksOn phase moment input.now next.want) }
    ensures broken { phase ≡ Phase.Broken → IsErr result }
{
    match phase {
        Phase::Fresh => begin(question, moment),
        Phase::First => looked_first(alloc, question, moment, input),
        Phase::Aliasing { path } => aliased(alloc, path, moment, input),
        Phase::Looking { path } => looked_on(alloc, path, moment, input),
        Phase::Following { path, harvest } => followed(alloc, path, harvest, moment, input),
        Phase::Listing { path } => listed(alloc, ids, path, moment, input),
        Phase::Seeking {
            search,
            target,
            stage,
        } => {
            let search = Box::into_inner(search);
            sought(alloc, port, ids, moment, search, target, stage, input)
        }
        Phase::Sent {
            search,
            server,
            id,
            over,
        } => {
            let search = Box::into_inner(search);
            came(alloc, port, moment, ids, search, server, id, over, input)
        }
        Phase::Admitting { handing, attempt } => {
            admitted(alloc, port, moment, ids, handing, attempt, input)
        }
        Phase::Ended => Err(AllocError),
        Phase::Broken => Err(AllocError),
    }
}
