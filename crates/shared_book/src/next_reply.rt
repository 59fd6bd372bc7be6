//! A reply and its copy for the window. A reply cannot be copied without memory, so that of a lookup is made twice, beforehand.

ghost use Rattle.std.specs.Prelude.{◌≡◌, List, length, true, IsOk, IsErrOf, IsTrue};
ghost use Rattle.history.specs.declared.event.Event.{Event};
ghost use Rattle.history.specs.declared.event.Settings.{Settings};
ghost use Rattle.history.specs.Answers.{IsTimely};
ghost use Rattle.history.specs.Event.{is_admission, is_plain};
ghost use Rattle.history.specs.Desk.{IsStep as IsBookStep};
ghost use Rattle.shared_book.specs.Ahead.{LooksAhead, SeesAhead, ShowsNothing, WillShow, WillShowNothing};
ghost use Rattle.shared_book.specs.Told.{answer_told};

use crate::told::{Ahead, Told};
use dns_name::NoMemory;
use history::{Ask, Book, Event, Reply, StepFault};
use std::alloc::Global;

/// What a lookup is about to see. The answer to a question is looked up once.
fn see_ahead<B: Book>(alloc: Global, book: &B, ask: &Ask, moment: u64) -> Result<Ahead, NoMemory>
    requires { (h : List Event) × B.stands_for book.now h }
    ensures { SeesAhead B.stands_for B.settings book.now ask.now moment result }
{
    if let Ask::Answer(question) = ask {
        let look = book.look(question, moment);
        let seen = look.to_seen(alloc)?;
        return Ok(Ahead {
            seen,
            kept: look.to_seen(alloc)?,
        });
    }
    let seen = book.seen(ask, moment)?;
    match seen.share(alloc)? {
        Some(kept) => Ok(Ahead { seen, kept }),
        None => {
            let kept = book.seen(ask, moment)?;
            Ok(Ahead { seen, kept })
        }
    }
}

/// What an event is about to see, if it is a lookup.
fn look_ahead<B: Book>(alloc: Global, book: &B, event: &Event) -> Result<Option<Ahead>, NoMemory>
    requires { (h : List Event) × B.stands_for book.now h }
    ensures seen { LooksAhead B.stands_for B.settings book.now event.now result }
    ensures plain { is_plain event.now ≡ true → IsOk result }
    ensures admission { IsTrue (is_admission event.now) → IsOk result }
{
    match event {
        Event::Look { moment, ask } => Ok(Some(see_ahead(alloc, book, ask, *moment)?)),
        _ => Ok(None),
    }
}

/// Takes an event, and returns its reply twice.
pub(crate) fn tell<B: Book>(alloc: Global, book: &mut B, event: Event) -> Result<Told, StepFault>
    requires some { (h : List Event) × B.stands_for book.old h }
    requires timely { (h : List Event) → B.stands_for book.old h → IsTimely (length h) event }
    ensures step { IsBookStep B.stands_for B.settings B.stored book.old event (answer_told result) book.new }
    ensures free { is_plain event ≡ true → B.is_free book.old event → ¬ (IsErrOf result StepFault.NoMemory) }
{
    let ahead = match look_ahead(alloc, book, &event) {
        Ok(ahead) => ahead,
        Err(_) => {
            drop(event);
            return Err(StepFault::NoMemory);
        }
    };
    match ahead {
        Some(ahead) => tell_seen(book, event, ahead),
        None => tell_silent(book, event),
    }
}

/// Takes a lookup whose reply is known. So the book need not make it.
#[tactic(auto, using(crate::proofs::RecordLaws::untimely))]
fn tell_seen<B: Book>(book: &mut B, event: Event, ahead: Ahead) -> Result<Told, StepFault>
    requires { WillShow B.stands_for B.settings book.old event ahead.seen }
    ensures step { IsBookStep B.stands_for B.settings B.stored book.old event (answer_told result) book.new }
    ensures free { B.is_free book.old event → ¬ (IsErrOf result StepFault.NoMemory) }
{
    match book.follow(event) {
        Ok(()) => Ok(Told {
            reply: Reply::Seen(ahead.seen),
            kept: Reply::Seen(ahead.kept),
        }),
        Err(fault) => {
            drop(ahead);
            Err(fault)
        }
    }
}

/// Takes a sweep. Nobody needs its reply from the book, so the book may leave out what it frees later, a turn at a time.
#[tactic(auto, using(crate::proofs::RecordLaws::untimely))]
fn tell_swept<B: Book>(book: &mut B, moment: u64) -> Result<Told, StepFault>
    ensures step { IsBookStep B.stands_for B.settings B.stored book.old (Event.Sweep moment) (answer_told result) book.new }
    ensures free { B.is_free book.old (Event.Sweep moment) → ¬ (IsErrOf result StepFault.NoMemory) }
{
    match book.follow(Event::Sweep { moment }) {
        Ok(()) => Ok(Told {
            reply: Reply::Swept,
            kept: Reply::Swept,
        }),
        Err(fault) => Err(fault),
    }
}

/// Takes an event that is no lookup.
fn tell_silent<B: Book>(book: &mut B, event: Event) -> Result<Told, StepFault>
    requires some { WillShowNothing B.stands_for B.settings book.old event }
    ensures step { IsBookStep B.stands_for B.settings B.stored book.old event (answer_told result) book.new }
    ensures free { B.is_free book.old event → ¬ (IsErrOf result StepFault.NoMemory) }
{
    match event {
        Event::Sweep { moment } => tell_swept(book, moment),
        event => tell_step(book, event),
    }
}

/// Takes an event that is no lookup, by a step of the book.
#[tactic(auto, using(crate::proofs::RecordLaws::untimely))]
fn tell_step<B: Book>(book: &mut B, event: Event) -> Result<Told, StepFault>
    requires some { WillShowNothing B.stands_for B.settings book.old event }
    ensures step { IsBookStep B.stands_for B.settings B.stored book.old event (answer_told result) book.new }
    ensures free { B.is_free book.old event → ¬ (IsErrOf result StepFault.NoMemory) }
{
    match book.step(event) {
        Ok(reply) => {
            let kept = told_alike(&reply);
            Ok(Told { reply, kept })
        }
        Err(fault) => Err(fault),
    }
}

/// A copy of a reply that shows nothing. It takes no memory.
fn told_alike(reply: &Reply) -> Reply
    requires { ShowsNothing reply.now }
    ensures { result ≡ reply.now }
{
    match reply {
        Reply::Seen(_) => unreachable!(),
        Reply::Taken => Reply::Taken,
        Reply::Outranked => Reply::Outranked,
        Reply::Swept => Reply::Swept,
        Reply::Forgotten => Reply::Forgotten,
        Reply::Done { ticket } => Reply::Done { ticket: *ticket },
        Reply::Refused(reason) => Reply::Refused(*reason),
        Reply::Undone { ticket } => Reply::Undone { ticket: *ticket },
        Reply::Redone { ticket } => Reply::Redone { ticket: *ticket },
        Reply::NothingToUndo => Reply::NothingToUndo,
        Reply::NothingToRedo => Reply::NothingToRedo,
        Reply::NotKept => Reply::NotKept,
        Reply::Buried { ticket } => Reply::Buried { ticket: *ticket },
    }
}
