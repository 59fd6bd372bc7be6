//! A client's question and its task.

ghost use Rattle.std.specs.Prelude.{◌≡◌, ◌≤◌};
ghost use Rattle.iterate.specs.declared.want.Want.{Want};
ghost use Rattle.flight.specs.Asking.{IsCalled};
ghost use Rattle.flight.specs.Flight.{Answered};

use crate::in_flight::InFlight;
use crate::numbered::Numbered;
use crate::refused::WorkerTask;
use dns_wire::Query;
use history::Event;
use iterate::{AskFault, Input};

/// A client's question and its task.
#[derive(Drop)]
pub(crate) struct Asking<G, K> {
    pub(crate) client: K,
    pub(crate) query: Query,
    /// The port of name servers with which the task began.
    pub(crate) port: u16,
    /// The moment at which it began, in milliseconds.
    pub(crate) began: u64,
    pub(crate) task: WorkerTask<G>,
    /// The number of the desk's latest call when this question last called it.
    pub(crate) seen: u64,
}

/// Calls the desk with the first event of a question.
pub(crate) fn ask<D: Numbered, L: InFlight>(desk: &mut D, seen: &mut u64, event: Event) -> Input
    requires known { seen.old ≤ D.seen desk.old }
    ensures answered { Answered D.calls D.seen L.hears seen.old (Want.Book event) result seen.new }
    ensures known { seen.new ≡ D.seen desk.new }
    ensures called { IsCalled D.calls desk.old event result desk.new }
{
    let answer = desk.call(event);
    *seen = desk.seen();
    match answer {
        Ok(reply) => Input::Reply(reply),
        Err(fault) => Input::Refused(AskFault::Desk(fault)),
    }
}

/// Calls the desk with a later event, or puts the call off.
pub(crate) fn ask_soon<D: Numbered, L: InFlight>(
    desk: &mut D,
    seen: &mut u64,
    event: Event,
) -> Input
    requires known { seen.old ≤ D.seen desk.old }
    ensures answered { Answered D.calls D.seen L.hears seen.old (Want.Book event) result seen.new }
    ensures known { seen.new ≡ D.seen desk.new }
{
    let answer = desk.call_soon(event);
    *seen = desk.seen();
    match answer {
        Ok(reply) => Input::Reply(reply),
        Err(fault) => Input::Refused(fault),
    }
}
