//! The finds of a response, handed to the book one by one. A book that is full makes room for a find: it sweeps, and then it forgets
//! the name whose data end first.

ghost use Rattle.std.specs.Prelude.{◌≡◌, ◌↔◌, ℕ, false, Some, IfOk, IsTrue, MatchOption};
ghost use Rattle.dns_name.specs.Labels.{Labels};
ghost use Rattle.ranked.specs.declared.find.Find.{Find};
ghost use Rattle.history.specs.declared.event.Ask.TheVariants.{Oldest as AskedOldest};
ghost use Rattle.history.specs.declared.event.Event.TheVariants.{Admit, Forget, Look, Sweep};
ghost use Rattle.history.specs.declared.event.Reply.TheVariants.{Seen as SeenReply, Swept, Forgotten};
ghost use Rattle.history.specs.declared.event.Seen.TheVariants.{Oldest as SeenOldest};
ghost use Rattle.iterate.specs.declared.want.Input.TheVariants.{Reply as Replied};
ghost use Rattle.iterate.specs.declared.want.Want.TheVariants.{Book};
ghost use Rattle.iterate.specs.Admitting.{ContinuesAfter, HandsOver, HandsOverFirst, HandsOverIn};
ghost use Rattle.iterate.specs.Admitting.{HandsOverNext, IsFindAt, IsUnlawful, PassesOn};
ghost use Rattle.iterate.specs.Phase.{drawing};
ghost use Rattle.iterate.specs.Room.{IsHanded, IsNoneOldest, SaysFull};

use crate::concluding::conclude;
use crate::finishing::failed;
use crate::limits::MOST_FINDS;
use crate::phase::{Advance, Attempt, Handing, Phase};
use crate::search::Search;
use crate::want::{AskFault, Input, Want};
use dns_name::{Name, NoMemory};
use dns_query::Heard;
use history::{Ask, DeskFault, Event, Reply, Seen, StepFault};
use rand_core::Rng;
use ranked::SharedFind;
use std::alloc::Global;

/// The find at this place of a response, if it is one of the first ones that may be handed over.
fn find_at(heard: &Heard, allowed: usize, next: usize) -> Result<Option<SharedFind>, NoMemory>
    ensures { IfOk result (λ found. IsFindAt heard.now.harvest.chosen allowed next found) }
{
    let finds = heard.harvest.chosen.as_slice();
    if next < allowed && next < MOST_FINDS && next < finds.len() {
        return Ok(Some(finds[next].share()?));
    }
    Ok(None)
}

/// Asks the book for this on behalf of the find at this place.
fn ask_book(handing: Handing, attempt: Attempt, event: Event) -> Advance
    ensures phase { result.phase ≡ Phase.Admitting handing attempt }
    ensures want { result.want ≡ Book event }
{
    Advance {
        phase: Phase::Admitting { handing, attempt },
        want: Want::Book(event),
    }
}

/// Hands the find at this place to the book, in this attempt. Behind the last find it acts on the response.
fn hand<R: Rng>(
    alloc: Global,
    port: u16,
    moment: u64,
    ids: &mut R,
    handing: Handing,
    attempt: Attempt,
) -> Result<Advance, NoMemory>
    ensures hands { HandsOver (IsHanded handing.heard.value.harvest.chosen handing.allowed handing.next) moment result }
    ensures goes { HandsOverIn attempt handing port moment (drawing (R.stream ids.old) (R.stream ids.new)) result }
{
    match find_at(&handing.heard, handing.allowed, handing.next)? {
        Some(find) => Ok(ask_book(handing, attempt, Event::Admit { moment, find })),
        None => {
            let Handing { search, heard, .. } = handing;
            let search = Box::into_inner(search);
            conclude(alloc, port, moment, ids, search, Box::into_inner(heard))
        }
    }
}

/// Hands the first find to the book, if one may be handed over. If not, acts on the response.
pub(crate) fn admit<R: Rng>(
    alloc: Global,
    port: u16,
    moment: u64,
    ids: &mut R,
    search: Box<Search>,
    heard: Box<Heard>,
    allowed: usize,
) -> Result<Advance, NoMemory>
    ensures hands { HandsOver (IsHanded heard.value.harvest.chosen allowed 0) moment result }
    ensures goes { HandsOverFirst search.value heard.value allowed port moment (drawing (R.stream ids.old) (R.stream ids.new)) result }
{
    let handing = Handing {
        search,
        heard,
        allowed,
        next: 0,
    };
    hand(alloc, port, moment, ids, handing, Attempt::Admit)
}

/// Continues with the next find, if the book may reply so; else fails the question.
fn pass<R: Rng>(
    alloc: Global,
    port: u16,
    moment: u64,
    ids: &mut R,
    handing: Handing,
    lawful: bool,
) -> Result<Advance, NoMemory>
    ensures hands { HandsOverNext lawful handing moment result }
    ensures goes { PassesOn lawful handing port moment (drawing (R.stream ids.old) (R.stream ids.new)) result }
{
    if !lawful {
        return Ok(failed(alloc));
    }
    let Handing {
        search,
        heard,
        allowed,
        next,
    } = handing;
    let after = next.saturating_add(1);
    let handing = Handing {
        search,
        heard,
        allowed,
        next: after,
    };
    hand(alloc, port, moment, ids, handing, Attempt::Admit)
}

// ---- replies

/// Whether the book was full.
fn is_full(input: &Input) -> bool
    ensures { IsTrue result ↔ SaysFull input.now }
{
    matches!(
        input,
        Input::Refused(AskFault::Desk(DeskFault::Step(StepFault::Full { .. })))
    )
}

/// Whether a book may reply this to an admission. A fault of the book is ignored.
fn is_passed(input: &Input) -> bool
    ensures { result ≡ false → (m : ℕ) (find : Find) → IsUnlawful (Admit m find) input.now }
{
    matches!(
        input,
        Input::Refused(_) | Input::Reply(Reply::Taken) | Input::Reply(Reply::Outranked)
    )
}

/// Whether the book was swept.
fn is_swept(input: &Input) -> bool
    ensures { IsTrue result ↔ (input.now ≡ Replied Swept) }
{
    matches!(input, Input::Reply(Reply::Swept))
}

/// Whether the book forgot a name.
fn is_forgotten(input: &Input) -> bool
    ensures { IsTrue result ↔ (input.now ≡ Replied Forgotten) }
{
    matches!(input, Input::Reply(Reply::Forgotten))
}

/// Whether a book may reply this to a sweep. A fault of the book is ignored.
fn is_sweep_passed(input: &Input) -> bool
    ensures { result ≡ false → (m : ℕ) → IsUnlawful (Sweep m) input.now }
{
    matches!(input, Input::Refused(_) | Input::Reply(Reply::Swept))
}

/// Whether a book may reply this to a look for the name to forget first. A fault of the book is ignored.
fn is_look_passed(input: &Input) -> bool
    ensures { result ≡ false → (m : ℕ) → IsUnlawful (Look m AskedOldest) input.now }
{
    matches!(
        input,
        Input::Refused(_) | Input::Reply(Reply::Seen(Seen::Oldest(_)))
    )
}

/// Whether a book may reply this to the forgetting of a name. A fault of the book is ignored.
fn is_forget_passed(input: &Input) -> bool
    ensures { result ≡ false → (m : ℕ) (owner : Labels) → IsUnlawful (Forget m owner) input.now }
{
    matches!(input, Input::Refused(_) | Input::Reply(Reply::Forgotten))
}

/// The name to forget first, if the book gave one.
fn oldest_in(input: &Input) -> Option<&Name>
    ensures { MatchOption result (IsNoneOldest input.now) (λ name. input.now ≡ Replied (SeenReply (SeenOldest (Some name.now)))) }
{
    match input {
        Input::Reply(Reply::Seen(Seen::Oldest(found))) => match found {
            Some(name) => Some(name),
            None => None,
        },
        _ => None,
    }
}

// ---- the attempts for a find

/// Continues with the reply to the first admission of a find. If the book was full, it is swept.
fn handed<R: Rng>(
    alloc: Global,
    port: u16,
    moment: u64,
    ids: &mut R,
    handing: Handing,
    input: &Input,
) -> Result<Advance, NoMemory>
    ensures { ContinuesAfter Attempt.Admit handing port moment input.now (drawing (R.stream ids.old) (R.stream ids.new)) result }
{
    if is_full(input) {
        return Ok(ask_book(handing, Attempt::Sweep, Event::Sweep { moment }));
    }
    let lawful = is_passed(input);
    pass(alloc, port, moment, ids, handing, lawful)
}

/// Continues with the reply to a sweep: hands the find over again.
fn swept<R: Rng>(
    alloc: Global,
    port: u16,
    moment: u64,
    ids: &mut R,
    handing: Handing,
    input: &Input,
) -> Result<Advance, NoMemory>
    ensures { ContinuesAfter Attempt.Sweep handing port moment input.now (drawing (R.stream ids.old) (R.stream ids.new)) result }
{
    if is_swept(input) {
        return hand(alloc, port, moment, ids, handing, Attempt::Again);
    }
    let lawful = is_sweep_passed(input);
    pass(alloc, port, moment, ids, handing, lawful)
}

/// Continues with the reply to the admission behind a sweep. If the book was full again, it is asked for the name to forget first.
fn handed_again<R: Rng>(
    alloc: Global,
    port: u16,
    moment: u64,
    ids: &mut R,
    handing: Handing,
    input: &Input,
) -> Result<Advance, NoMemory>
    ensures { ContinuesAfter Attempt.Again handing port moment input.now (drawing (R.stream ids.old) (R.stream ids.new)) result }
{
    if is_full(input) {
        // At the clock of the book, to which it was swept: by a later second more names may have ended.
        let moment = 0;
        let ask = Ask::Oldest;
        return Ok(ask_book(handing, Attempt::Oldest, Event::Look { moment, ask }));
    }
    let lawful = is_passed(input);
    pass(alloc, port, moment, ids, handing, lawful)
}

/// Continues with the name to forget first: it is forgotten. If there is none, the find is passed over.
fn oldest_came<R: Rng>(
    alloc: Global,
    port: u16,
    moment: u64,
    ids: &mut R,
    handing: Handing,
    input: &Input,
) -> Result<Advance, NoMemory>
    ensures { ContinuesAfter Attempt.Oldest handing port moment input.now (drawing (R.stream ids.old) (R.stream ids.new)) result }
{
    match oldest_in(input) {
        Some(name) => {
            let owner = name.clone()?;
            Ok(ask_book(handing, Attempt::Forget, Event::Forget { moment, owner }))
        }
        None => pass(alloc, port, moment, ids, handing, is_look_passed(input)),
    }
}

/// Continues with the reply to the forgetting of a name: hands the find over a last time.
fn forgotten<R: Rng>(
    alloc: Global,
    port: u16,
    moment: u64,
    ids: &mut R,
    handing: Handing,
    input: &Input,
) -> Result<Advance, NoMemory>
    ensures { ContinuesAfter Attempt.Forget handing port moment input.now (drawing (R.stream ids.old) (R.stream ids.new)) result }
{
    if is_forgotten(input) {
        return hand(alloc, port, moment, ids, handing, Attempt::Last);
    }
    let lawful = is_forget_passed(input);
    pass(alloc, port, moment, ids, handing, lawful)
}

/// Continues with the reply to the last admission of a find.
fn handed_last<R: Rng>(
    alloc: Global,
    port: u16,
    moment: u64,
    ids: &mut R,
    handing: Handing,
    input: &Input,
) -> Result<Advance, NoMemory>
    ensures { ContinuesAfter Attempt.Last handing port moment input.now (drawing (R.stream ids.old) (R.stream ids.new)) result }
{
    let lawful = is_passed(input);
    pass(alloc, port, moment, ids, handing, lawful)
}

/// Continues with the book's reply to what it was asked for the find at this place.
pub(crate) fn admitted<R: Rng>(
    alloc: Global,
    port: u16,
    moment: u64,
    ids: &mut R,
    handing: Handing,
    attempt: Attempt,
    input: &Input,
) -> Result<Advance, NoMemory>
    ensures { ContinuesAfter attempt handing port moment input.now (drawing (R.stream ids.old) (R.stream ids.new)) result }
{
    match attempt {
        Attempt::Admit => handed(alloc, port, moment, ids, handing, input),
        Attempt::Sweep => swept(alloc, port, moment, ids, handing, input),
        Attempt::Again => handed_again(alloc, port, moment, ids, handing, input),
        Attempt::Oldest => oldest_came(alloc, port, moment, ids, handing, input),
        Attempt::Forget => forgotten(alloc, port, moment, ids, handing, input),
        Attempt::Last => handed_last(alloc, port, moment, ids, handing, input),
    }
}
