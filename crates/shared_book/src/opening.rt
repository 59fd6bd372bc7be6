//! An opening book: it lags behind a book, and takes the calls that leave the window.

ghost use Rattle.std.specs.Prelude.{◌≡◌, ◌<◌, ◌≤◌, ◌+◌, ◌++◌, ◌∷◌, [], true, false, List, length, OnOk, OnErr, IsOk};
ghost use Rattle.history.specs.declared.event.Event.{Event};
ghost use Rattle.history.specs.declared.limits.TheConstants.{LAGGING_CELLS};
ghost use Rattle.history.specs.Answers.{IsTimely};

use dns_name::NoMemory;
use history::{Book, Event, StepFault};
use std::alloc::AllocError;

/// Takes the event of a call that leaves the window. Only want of memory can refuse it: it was timely, and the opening book is never
/// full.
pub(crate) fn take_in<B: Book>(opening: &mut B, event: Event) -> Result<(), NoMemory>
    requires some { (h : List Event) × B.stands_for opening.old h }
    requires timely { (h : List Event) → B.stands_for opening.old h → IsTimely (length h) event }
    requires lags { (B.settings opening.old).cells ≡ LAGGING_CELLS }
    ensures ok { OnOk result ((h : List Event) → B.stands_for opening.old h → B.stands_for opening.new (h ++ event ∷ [])) }
    ensures err { OnErr result ((h : List Event) → B.stands_for opening.old h → B.stands_for opening.new h) }
    ensures settings { B.settings opening.new ≡ B.settings opening.old }
    ensures free { B.is_free opening.old event → IsOk result }
{
    match opening.follow(event) {
        Ok(()) => Ok(()),
        Err(fault) => Err(only_memory(fault)),
    }
}

/// The fault of an opening book, which is want of memory.
fn only_memory(fault: StepFault) -> NoMemory
    requires { fault ≡ StepFault.NoMemory }
{
    let _ = fault;
    AllocError
}

/// Frees some of the memory of what no reply can show any more: of the book, or of the opening book if the book has none. Returns
/// whether there may be more.
pub(crate) fn sweep_one<B: Book>(book: &mut B, opening: &mut B) -> bool
    ensures stands { (h : List Event) → B.stands_for book.old h → B.stands_for book.new h }
    ensures opening { (h : List Event) → B.stands_for opening.old h → B.stands_for opening.new h }
    ensures stored { B.stored book.new ≤ B.stored book.old }
    ensures settings { B.settings book.new ≡ B.settings book.old }
    ensures opening_settings { B.settings opening.new ≡ B.settings opening.old }
    ensures more { result ≡ true → B.unswept book.new + B.unswept opening.new < B.unswept book.old + B.unswept opening.old }
    ensures none { result ≡ false → (B.unswept book.new ≡ 0) × (B.unswept opening.new ≡ 0) }
{
    if book.sweep_some() {
        return true;
    }
    opening.sweep_some()
}
