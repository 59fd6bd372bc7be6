//! The task: the resolution of one question, with all its steps.

ghost use Rattle.std.specs.Prelude.{◌≡◌, ◌∷◌, [], IfOk, OnErr, IsErr};
ghost use Rattle.history.specs.declared.event.Ask.TheVariants.{Answer as Asked};
ghost use Rattle.history.specs.declared.event.Event.TheVariants.{Look};
ghost use Rattle.iterate.specs.declared.want.Input.TheVariants.{Begin};
ghost use Rattle.iterate.specs.declared.want.Want.TheVariants.{Book};
ghost use Rattle.iterate.specs.Phase.{drawing};
ghost use Rattle.std.specs.Option.{option_copied};
ghost use Rattle.std.specs.Vec.{vec_capacity};
ghost use Rattle.iterate.specs.Task.{hunt_in, IsTask, IsDueAt, IsKept, IsSameTask, StepsOn, StepFails};

use crate::first_lookup::first_look;
use crate::limits::FIRST_STEPS;
use crate::phase::{Advance, Phase, step_on};
use crate::search::Hunt;
use crate::want::{Input, Step, Want};
use dns_name::NoMemory;
use dns_text::Question;
use rand_core::Rng;
use std::alloc::Global;
use std::marker::Model;
use std::mem;

/// The state of a task: its question, its steps and its phase.
#[derive(Drop)]
pub struct State {
    pub question: Question,
    /// The port of servers that are given without one.
    pub port: u16,
    /// The inputs and the wants so far, in order.
    pub steps: Vec<Step>,
    pub phase: Phase,
}

/// Adds a step to the state.
fn keep_step(
    alloc: Global,
    state: &mut State,
    input: Input,
    next: Advance,
) -> Result<Want, NoMemory>
    ensures same { IsSameTask state.old state.new }
    ensures ok { IfOk result (IsKept state.old input next state.new) }
    ensures err { OnErr result ((state.new.steps.items ≡ state.old.steps.items) × (state.new.phase ≡ state.old.phase)) }
{
    let Advance { phase, want } = next;
    let kept = want.copy(alloc)?;
    state.steps.push(Step { input, want: kept })?;
    state.phase = phase;
    Ok(want)
}

/// One step of a state.
fn take_step<R: Rng>(
    alloc: Global,
    state: &mut State,
    moment: u64,
    ids: &mut R,
    input: Input,
) -> Result<Want, NoMemory>
    requires task { IsTask state.old.port state.old.question state.old.steps.items state.old.phase }
    requires due { IsDueAt state.old.phase state.old.steps.items input }
    ensures task { IsTask state.new.port state.new.question state.new.steps.items state.new.phase }
    ensures same { IsSameTask state.old state.new }
    ensures ok { IfOk result (StepsOn state.old input moment (drawing (R.stream ids.old) (R.stream ids.new)) state.new) }
    ensures err { OnErr result (StepFails state.old state.new) }
    ensures broken { state.old.phase ≡ Phase.Broken → IsErr result }
{
    let phase = mem::replace(&mut state.phase, Phase::Broken);
    let next = step_on(
        alloc,
        state.port,
        &state.question,
        phase,
        moment,
        ids,
        &input,
    )?;
    let want = keep_step(alloc, state, input, next)?;
    Ok(want)
}

/// The resolution of one question (RFC 1034, section 5.3.3).
#[derive(Drop)]
pub struct Task {
    alloc: Global,
    state: State,
}

impl Model for Task {
    ghost use Rattle.iterate.specs.declared.task.State.{State};
    ghost use Rattle.iterate.specs.Task.{IsTask};
    ghost use Rattle.std.specs.Coded.{codes};
    ghost use Rattle.ranked.specs.contracts.find.Find as find_type;

    ghost Value = { State };

    ghost use Rattle.harvest.specs.contracts.passing.PassingSet as passing_type;

    ghost coded = { Prim.hlevel (codes, find_type.the_row.coded, passing_type.the_row.coded) };

    ghost view = { λ t. t.state };

    ghost invariant = { λ t. IsTask t.state.port t.state.question t.state.steps.items t.state.phase };
}

impl Task {
    /// A task that has not begun. This takes no memory.
    pub fn new(alloc: Global, question: Question, port: u16) -> Task
        ensures question { result.question ≡ question }
        ensures port { result.port ≡ port }
        ensures steps { result.steps.items ≡ [] }
        ensures phase { result.phase ≡ Phase.Fresh }
    {
        Task {
            alloc,
            state: State {
                question,
                port,
                steps: Vec::new(alloc),
                phase: Phase::Fresh,
            },
        }
    }

    /// A task that has begun at this moment, and waits for the reply to the lookup of its question.
    pub fn begun(
        alloc: Global,
        question: Question,
        port: u16,
        moment: u64,
    ) -> Result<Task, NoMemory>
        ensures question { IfOk result (λ task. task.question ≡ question) }
        ensures port { IfOk result (λ task. task.port ≡ port) }
        ensures steps { IfOk result (λ task. task.steps.items ≡ record { input = Begin; want = Book (Look moment (Asked question)) } ∷ []) }
        ensures phase { IfOk result (λ task. task.phase ≡ Phase.First) }
        ensures room { IfOk result (λ task. vec_capacity task.steps ≡ FIRST_STEPS) }
    {
        let look = first_look(&question, moment)?;
        let mut steps = Vec::with_capacity(alloc, FIRST_STEPS)?;
        steps.push_reserved(Step {
            input: Input::Begin,
            want: Want::Book(look),
        });
        Ok(Task {
            alloc,
            state: State {
                question,
                port,
                steps,
                phase: Phase::First,
            },
        })
    }

    /// Takes an input, and returns what is wanted next. After an error the task stays without memory: each later step fails.
    pub fn step<R: Rng>(&mut self, moment: u64, ids: &mut R, input: Input) -> Result<Want, NoMemory>
        requires { IsDueAt self.old.phase self.old.steps.items input }
        ensures same { IsSameTask self.old self.new }

        // The step is added, and it wants what the exchanges so far allow: an answer resolves the question.
        ensures ok { IfOk result (StepsOn self.old input moment (drawing (R.stream ids.old) (R.stream ids.new)) self.new) }

        // Without memory nothing is added, then or later.
        ensures err { OnErr result (StepFails self.old self.new) }
        ensures broken { self.old.phase ≡ Phase.Broken → IsErr result }
    {
        take_step(self.alloc, &mut self.state, moment, ids, input)
    }

    /// The servers of which one was asked last, and how far they were asked. Returns `None` if the task does not wait for a response.
    pub fn hunt(&self) -> Option<&Hunt>
        ensures { option_copied result ≡ hunt_in self.now.phase }
    {
        match &self.state.phase {
            Phase::Sent { search, .. } => Some(search.hunt()),
            _ => None,
        }
    }

    /// The inputs and the wants so far, in order.
    pub fn steps(&self) -> &[Step]
        ensures { result.now ≡ self.now.steps.items }
    {
        self.state.steps.as_slice()
    }
}
