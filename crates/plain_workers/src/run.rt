//! A task, from its question to its answer.

ghost use Rattle.std.specs.Prelude.{◌≡◌, IfOk, OnErr};
ghost use Rattle.std.specs.Option.{option_copied};
ghost use Rattle.iterate.specs.Told.{IsFit};
ghost use Rattle.plain_workers.specs.States.{TaskBreaksOff, TaskEnds};
ghost use Rattle.plain_workers.specs.Turning.{TakesTurnIfOk, Lacks};

use crate::exchange::Exchange;
use crate::tools::Tools;
use clock::Clock;
use dns_name::NoMemory;
use dns_text::Question;
use history::Desk;
use iterate::{Allowance, Answer, AskFault, Hunt, Input, Task, Want, due_law};
use rand_core::Rng;
use std::alloc::{AllocError, Global};
use system::DeviceFault;

/// The outcome of a want.
pub(crate) enum WantOutcome {
    /// The task goes on with this input.
    Go(Input),
    /// The task has ended in this answer.
    Done(Answer),
}

/// Meets a want: by a call of the desk, or by an exchange with a name server of this list.
fn meet<D: Desk, X: Exchange>(
    desk: &mut D,
    exchange: &mut X,
    hunt: Option<&Hunt>,
    want: Want,
) -> Result<WantOutcome, NoMemory>
    ensures turns { TakesTurnIfOk D.calls X.asks desk.old exchange.old (option_copied hunt.entry) want result desk.new exchange.new }
    ensures lacks { OnErr result (Lacks X.asks desk.old exchange.old (option_copied hunt.entry) want desk.new exchange.new) }
{
    match want {
        Want::Book(event) => match desk.call(event) {
            Ok(reply) => Ok(WantOutcome::Go(Input::Reply(reply))),
            Err(fault) => Ok(WantOutcome::Go(Input::Refused(AskFault::Desk(fault)))),
        },
        Want::Send {
            server,
            over,
            bytes,
        } => match exchange.ask(&server, hunt, over, bytes.get().as_slice()) {
            Ok(octets) => Ok(WantOutcome::Go(Input::Came {
                octets,
                allowance: Allowance::full(),
            })),
            Err(DeviceFault::Device) => Ok(WantOutcome::Go(Input::Failed)),
            Err(DeviceFault::NoMemory) => Err(AllocError),
        },
        Want::Finish(answer) => Ok(WantOutcome::Done(answer)),
    }
}

/// Resolves a question: runs a task to its answer, and meets what it wants by the desk and by exchanges. It fails only if no
/// memory is left.
pub fn run_task<D: Desk, X: Exchange, C: Clock, R: Rng>(
    alloc: Global,
    desk: &mut D,
    tools: &mut Tools<X, C, R>,
    question: Question,
) -> Result<Answer, NoMemory>
    ensures port { tools.new.server_port ≡ tools.old.server_port }
    ensures fit { IfOk result IsFit }
    ensures ends { IfOk result (λ answer. TaskEnds D.calls X.asks C.ticks R.stream question answer desk.old tools.old desk.new tools.new) }
    ensures breaks_off { OnErr result (TaskBreaksOff D.calls X.asks C.ticks R.stream question desk.old tools.old desk.new tools.new) }
{
    due_law();
    let mut task = Task::new(alloc, question, tools.server_port);
    let mut input = Input::Begin;
    loop {
        let moment = tools.clock.now();
        let want = task.step(moment, &mut tools.ids, input)?;
        match meet(desk, &mut tools.exchange, task.hunt(), want)? {
            WantOutcome::Go(next) => input = next,
            WantOutcome::Done(answer) => return Ok(answer),
        }
    }
}
