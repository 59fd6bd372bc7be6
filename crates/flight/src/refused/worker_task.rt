//! The task of a question in a worker.

ghost use Rattle.std.specs.Prelude.{◌≡◌, IfOk, OnErr, IsErr};
ghost use Rattle.std.specs.Option.{option_copied};
ghost use Rattle.flight.specs.Flight.{begun_steps};
ghost use Rattle.iterate.specs.declared.phase.Phase.TheVariants.{Broken, First};
ghost use Rattle.iterate.specs.Phase.{drawing};
ghost use Rattle.iterate.specs.Task.{hunt_in, IsDueAt, IsSameTask, StepFails, StepsOn};

use crate::refused::Refused;
use dns_text::Question;
use iterate::{Hunt, Input, Step, Task, Want};
use rand_core::Rng;
use std::alloc::Global;
use std::marker::{Model, PhantomData};

/// A task that draws its identifiers from generators of type `G` alone. A worker has one such generator, and cannot make another:
/// each query of the task has an identifier of that one. Contracts see the task.
#[derive(Drop)]
pub(crate) struct WorkerTask<G> {
    task: Task,
    ids: PhantomData<G>,
}

impl<G> Model for WorkerTask<G> {
    ghost use Rattle.iterate.specs.declared.task.State.{State};
    ghost use Rattle.iterate.specs.contracts.task.Task as task_type;

    ghost Value = { State };

    ghost coded = { task_type.the_row.coded };

    ghost view = { λ own. own.task };
}

impl<G: Rng> WorkerTask<G> {
    /// A task that has begun at this moment, and waits for the reply to the lookup of its question.
    pub(crate) fn begun(
        alloc: Global,
        question: &Question,
        port: u16,
        moment: u64,
    ) -> Result<WorkerTask<G>, Refused>
        ensures question { IfOk result (λ task. task.question ≡ question.now) }
        ensures port { IfOk result (λ task. task.port ≡ port) }
        ensures steps { IfOk result (λ task. task.steps.items ≡ begun_steps question.now moment) }
        ensures phase { IfOk result (λ task. task.phase ≡ First) }
    {
        let copy = match question.clone() {
            Ok(copy) => copy,
            Err(by) => return Err(Refused { by }),
        };
        match Task::begun(alloc, copy, port, moment) {
            Ok(task) => Ok(WorkerTask {
                task,
                ids: PhantomData,
            }),
            Err(by) => Err(Refused { by }),
        }
    }

    /// Takes an input, and returns what is wanted next. A query has the identifier that this generator gives.
    pub(crate) fn step(&mut self, moment: u64, ids: &mut G, input: Input) -> Result<Want, Refused>
        requires { IsDueAt self.old.phase self.old.steps.items input }
        ensures same { IsSameTask self.old self.new }
        ensures ok { IfOk result (StepsOn self.old input moment (drawing (G.stream ids.old) (G.stream ids.new)) self.new) }
        ensures err { OnErr result (StepFails self.old self.new) }
        ensures broken { self.old.phase ≡ Broken → IsErr result }
    {
        match self.task.step(moment, ids, input) {
            Ok(want) => Ok(want),
            Err(by) => Err(Refused { by }),
        }
    }

    /// The servers of which one was asked last. Returns `None` if the task does not wait for a response.
    pub(crate) fn hunt(&self) -> Option<&Hunt>
        ensures { option_copied result ≡ hunt_in self.now.phase }
    {
        self.task.hunt()
    }

    /// The inputs and the wants so far, in order.
    pub(crate) fn steps(&self) -> &[Step]
        ensures { result.now ≡ self.now.steps.items }
    {
        self.task.steps()
    }
}
