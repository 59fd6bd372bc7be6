//! Laws of the definitions at a seat of a shared book.

ghost use Rattle.flight.specs.Laws.{AllAreLater, NumbersNeverFall, ReceiptsRise};

use crate::in_flight::InFlight;
use crate::numbered::Numbered;
use clock::Clock;
use history::{Book, Desk};
use shared_book::{CallLedger, Seat};
use std::sync::Wait;

/// The number of the latest call that a question knows of never falls.
#[tactic(auto, using(crate::proofs::Seats::never_falls))]
pub fn fall_law<B: Book + 'static, P: CallLedger + 'static, R: Wait + 'static, L: InFlight>()
    ensures { NumbersNeverFall (⟦<Seat<'static, B, P, R> as Desk>⟧.calls) (⟦<Seat<'static, B, P, R> as Numbered>⟧.seen) L.hears }
{}

/// Each reply of the book to a question has a receipt with a higher number than those before it.
pub fn rise_law<B: Book + 'static, P: CallLedger + 'static, R: Wait + 'static, L: InFlight>()
    ensures { ReceiptsRise (⟦<Seat<'static, B, P, R> as Desk>⟧.calls) (⟦<Seat<'static, B, P, R> as Numbered>⟧.seen) L.hears P.settings }
{}

/// Each reply of the book behind an answer has a receipt with a higher number than the desk knew of when the client was taken.
pub fn later_law<
    B: Book + 'static,
    P: CallLedger + 'static,
    R: Wait + 'static,
    L: InFlight,
    C: Clock,
>()
    ensures { AllAreLater ⟦<Seat<'static, B, P, R> as Desk>⟧.calls ⟦<Seat<'static, B, P, R> as Numbered>⟧.seen L.hears C.ticks P.settings }
{}
