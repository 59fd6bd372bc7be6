//! The first lookup, of the question itself.

ghost use Rattle.std.specs.Prelude.{◌≡◌, [], ℕ, IfOk};
ghost use Rattle.history.specs.declared.event.Ask.TheVariants.{Answer as Asked};
ghost use Rattle.history.specs.declared.event.Event.TheVariants.{Look};
ghost use Rattle.iterate.specs.FirstLookup.{GoesOnFirst, GoesOnFirstSeeing, IsSettledBy, ResolvesBarred};
ghost use Rattle.iterate.specs.FirstLookup.{ResolvesHeld, ResolvesLocal, ResolvesSeen};
ghost use Rattle.iterate.specs.Looked.{seen_of};
ghost use Rattle.iterate.specs.Measure.{left_in};
ghost use Rattle.iterate.specs.Phase.{Advances, idle};
ghost use Rattle.rand_core.specs.Stream.{Stream};

use crate::answer::Answer;
use crate::finishing::{answer_with, failed, finish, held_ending, local_ending, refusal};
use crate::lookup_reply::{Looked, replied};
use crate::path::{Path, alias};
use crate::phase::{Advance, Phase};
use crate::want::{Input, Want};
use dns_name::NoMemory;
use dns_text::{Items, Question};
use history::{Ask, Event};
use local_zone::{Local, LocalRecord, SeenRecord};
use ranked::{SharedFind, Shown};
use std::alloc::Global;

/// The lookup with which a task begins: that of its question.
pub fn first_look(question: &Question, moment: u64) -> Result<Event, NoMemory>
    ensures { IfOk result (λ event. event ≡ Look moment (Asked question.now)) }
{
    Ok(Event::Look {
        moment,
        ask: Ask::Answer(question.clone()?),
    })
}

/// Looks the question up.
pub(crate) fn begin(question: &Question, moment: u64) -> Result<Advance, NoMemory>
    ensures { (port : ℕ) (ids : Stream) → IfOk result (Advances port question.now [] moment (idle ids) (left_in Phase.Fresh)) }
{
    Ok(Advance {
        phase: Phase::First,
        want: Want::Book(first_look(question, moment)?),
    })
}

/// A path without aliases.
fn start(alloc: Global, question: &Question) -> Result<Path, NoMemory>
    ensures last { IfOk result (λ path. path.last ≡ question.now) }
    ensures sets { IfOk result (λ path. path.sets.items ≡ []) }
    ensures sent { IfOk result (λ path. path.sent ≡ 0) }
{
    Ok(Path {
        sets: Vec::new(alloc),
        last: question.clone()?,
        sent: 0,
        begun: 0,
    })
}

/// The answer if a local zone refuses or drops the question.
fn barred(alloc: Global, answer: &Local<Items<SeenRecord>, LocalRecord>) -> Answer
    ensures { ResolvesBarred answer.now result }
{
    match answer {
        Local::Drop => Answer::Silent,
        _ => refusal(alloc),
    }
}

/// The answer if local zones answered the first lookup.
fn answer_local(
    alloc: Global,
    answer: &Local<Items<SeenRecord>, LocalRecord>,
) -> Result<Answer, NoMemory>
    ensures { ResolvesLocal answer.now result }
{
    match local_ending(alloc, answer)? {
        Some(ending) => Ok(answer_with(true, Vec::new(alloc), ending)),
        None => Ok(barred(alloc, answer)),
    }
}

/// The answer if the first lookup found a cached set or negative answer.
fn answer_held(alloc: Global, shown: &Shown<SharedFind>) -> Result<Answer, NoMemory>
    ensures { ResolvesHeld shown.now result }
{
    let ending = held_ending(shown)?;
    Ok(answer_with(false, Vec::new(alloc), ending))
}

/// The answer by the reply to the first lookup. None if it found nothing.
fn answer_seen(alloc: Global, what: Looked<'_>) -> Result<Option<Answer>, NoMemory>
    ensures { ResolvesSeen (seen_of what.entry) result }
{
    match what {
        Looked::Unknown => Ok(None),
        Looked::Held(shown) => Ok(Some(answer_held(alloc, shown)?)),
        Looked::Local(answer) => Ok(Some(answer_local(alloc, answer)?)),
    }
}

/// Ends with what the first lookup found, or continues if it found nothing.
fn seen_first(
    alloc: Global,
    question: &Question,
    moment: u64,
    what: Looked<'_>,
) -> Result<Advance, NoMemory>
    ensures { GoesOnFirstSeeing question.now (seen_of what.entry) moment result }
{
    match answer_seen(alloc, what)? {
        Some(answer) => Ok(finish(answer)),
        None => alias(alloc, start(alloc, question)?, moment),
    }
}

/// Continues with the reply to the first lookup.
pub(crate) fn looked_first(
    alloc: Global,
    question: &Question,
    moment: u64,
    input: &Input,
) -> Result<Advance, NoMemory>
    ensures { GoesOnFirst question.now input.now moment result }
{
    match replied(input, &question.owner, question.kind) {
        Some(what) => seen_first(alloc, question, moment, what),
        None => Ok(failed(alloc)),
    }
}

/// The answer to a question that its first lookup settles, from the cache or from local zones: no task is needed then. None if
/// the lookup found neither. An error says that there are too many owners of a shared set, or no memory for local data.
pub fn settled(
    alloc: Global,
    question: &Question,
    input: &Input,
) -> Result<Option<Answer>, NoMemory>
    ensures { IsSettledBy question.now input.now result }
{
    match replied(input, &question.owner, question.kind) {
        Some(what) => answer_seen(alloc, what),
        None => Ok(None),
    }
}
