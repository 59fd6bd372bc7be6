//! A shared book with a pass, as a desk.

ghost use Rattle.std.specs.Prelude.{◌≡◌, IfNone, IfSome, IsTrue};
ghost use Rattle.shared_book.specs.Calling.{answer_at_desk, asks_oldest, fault_at_desk, turns_for, AnswersAt, IsPutOff, SeatCall, SweepsAfter, SweepsOn};
ghost use Rattle.shared_book.specs.Kept.{IsSweepThere};

use crate::fault::CallFault;
use crate::ledger::CallLedger;
use crate::pass::Pass;
use crate::shared::{MOST_TURNS, SharedBook, asks_oldest};
use history::{Book, Desk, DeskFault, Event, Reply, StepFault};
use std::sync::Wait;

/// A caller's place at a shared book. A sweep from it is done in turns, between which others get the lock.
#[derive(Drop)]
pub struct Seat<'a, B: Book, L: CallLedger, R: Wait> {
    rt: &'a R,
    book: &'a SharedBook<B, L>,
    pass: Pass<L>,
    /// Whether its sweeps go on until nothing is left.
    is_thorough: bool,
}

impl<'a, B: Book, L: CallLedger, R: Wait> Seat<'a, B, L, R> {
    /// The place of this pass, for someone who keeps others waiting. A sweep from it ends as soon as the book has room, or after two turns.
    pub fn new(rt: &'a R, book: &'a SharedBook<B, L>, pass: Pass<L>) -> Seat<'a, B, L, R>
        ensures { result.pass ≡ pass }
    {
        Seat {
            rt,
            book,
            pass,
            is_thorough: false,
        }
    }

    /// The place of this pass, for someone who can wait. A sweep from it goes on until nothing is left to free.
    pub fn thorough(rt: &'a R, book: &'a SharedBook<B, L>, pass: Pass<L>) -> Seat<'a, B, L, R>
        ensures { result.pass ≡ pass }
    {
        Seat {
            rt,
            book,
            pass,
            is_thorough: true,
        }
    }

    /// The number of the latest call that its pass knows of.
    pub fn seen(&self) -> u64
        ensures { result ≡ self.now.pass.seen }
    {
        self.pass.seen()
    }

    /// The pass.
    pub fn into_pass(self) -> Pass<L>
        ensures { result ≡ self.entry.pass }
    {
        let Seat {
            rt: _,
            book: _,
            pass,
            is_thorough: _,
        } = self;
        pass
    }
}

impl<'a, B: Book, L: CallLedger, R: Wait> Desk for Seat<'a, B, L, R> {
    ghost calls = { λ before event answer after.
        SeatCall B.stands_for B.settings B.stored B.is_free L.settings before.pass event answer after.pass
        × SweepsOn B.stands_for B.settings B.stored B.unswept L.settings before.is_thorough answer };

    fn call(&mut self, event: Event) -> Result<Reply, DeskFault> {
        let copy = match event.copy() {
            Ok(copy) => copy,
            Err(_) => {
                drop(event);
                return Err(DeskFault::Step(StepFault::NoMemory));
            }
        };
        let answer = self.book.step(self.rt, &mut self.pass, event, copy);
        self.tell(answer)
    }
}

impl<'a, B: Book, L: CallLedger, R: Wait> Seat<'a, B, L, R> {
    /// Calls the book for someone who keeps others waiting. It looks for the name to forget first only behind a turn of a sweep that left
    /// nothing, so that this look is one path of a tree. Else it returns None, and nothing but the turn has happened.
    pub fn call_soon(&mut self, event: Event) -> Option<Result<Reply, DeskFault>>
        ensures called { IfSome result (AnswersAt B.stands_for B.settings B.stored B.is_free L.settings self.old.pass event self.new.pass) }
        ensures goes_on { IfSome result (SweepsOn B.stands_for B.settings B.stored B.unswept L.settings self.old.is_thorough) }
        ensures put_off { IfNone result (IsPutOff B.stands_for B.settings B.stored B.unswept L.settings event) }
        ensures same { IfNone result (self.new ≡ self.old) }
    {
        if asks_oldest(&event) {
            return self.look_soon(event);
        }
        Some(self.call(event))
    }

    /// Looks for the name to forget first, if a turn of a sweep leaves nothing.
    fn look_soon(&mut self, event: Event) -> Option<Result<Reply, DeskFault>>
        requires oldest { IsTrue (asks_oldest event) }
        ensures called { IfSome result (AnswersAt B.stands_for B.settings B.stored B.is_free L.settings self.old.pass event self.new.pass) }
        ensures goes_on { IfSome result (SweepsOn B.stands_for B.settings B.stored B.unswept L.settings self.old.is_thorough) }
        ensures put_off { IfNone result (IsPutOff B.stands_for B.settings B.stored B.unswept L.settings event) }
        ensures same { IfNone result (self.new ≡ self.old) }
    {
        let copy = match event.copy() {
            Ok(copy) => copy,
            Err(_) => {
                drop(event);
                return Some(Err(DeskFault::Step(StepFault::NoMemory)));
            }
        };
        match self.book.look_soon(self.rt, &mut self.pass, event, copy) {
            Some(answer) => Some(self.tell(answer)),
            None => None,
        }
    }

    /// What the seat tells of an answer. After the reply to a sweep it goes on with the sweep: the call itself was the first turn.
    fn tell(&self, answer: Result<Reply, CallFault>) -> Result<Reply, DeskFault>
        ensures told { result ≡ answer_at_desk answer }
        ensures goes_on { SweepsOn B.stands_for B.settings B.stored B.unswept L.settings self.now.is_thorough result }
    {
        match answer {
            Ok(reply) => {
                self.go_on(&reply);
                Ok(reply)
            }
            Err(fault) => Err(desk_fault(fault)),
        }
    }

    /// Goes on with a sweep, if that was the reply.
    fn go_on(&self, reply: &Reply)
        ensures { SweepsAfter B.stands_for B.settings B.stored B.unswept L.settings self.now.is_thorough reply.now }
    {
        if matches!(reply, Reply::Swept) {
            self.free();
        }
    }

    /// Frees what a sweep may, by turns.
    fn free(&self)
        ensures { IsSweepThere B.stands_for B.settings B.stored B.unswept L.settings self.now.is_thorough (turns_for self.now.is_thorough) }
    {
        let whole = self.is_thorough;
        self.book.free(self.rt, whole, turns_for(whole));
    }
}

/// The turns after the reply to a sweep, at most.
fn turns_for(whole: bool) -> u32
    ensures { result ≡ turns_for whole }
{
    if whole { MOST_TURNS } else { 1 }
}

/// The fault of a desk for the fault of a call.
fn desk_fault(fault: CallFault) -> DeskFault
    ensures { result ≡ fault_at_desk fault }
{
    match fault {
        CallFault::Step(fault) => DeskFault::Step(fault),
        CallFault::Behind { at } => DeskFault::Behind { at },
    }
}
