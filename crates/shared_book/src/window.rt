//! The window: the last calls, oldest first.

ghost use Rattle.std.specs.Prelude.{◌≡◌, ◌+◌, ◌<◌, ◌≤◌, ◌^◌, [], ◌∷◌, ◌++◌, length, drop, slice_get, true, IfOk, IfSome, IsOk, MatchBool};
ghost use Rattle.history.specs.Event.{is_plain};
ghost use Rattle.std.specs.VecDeque.{deque_capacity};

use crate::receipt::Receipt;
use dns_name::NoMemory;
use history::Event;
use std::alloc::Global;
use std::collections::VecDeque;

/// The last calls, in a ring that is made once. The first has the number `first`, each other the next number.
#[derive(Drop)]
pub(crate) struct Window {
    pub first: u64,
    pub calls: VecDeque<Receipt>,
    /// The number of calls that it can have.
    pub limit: u64,
    pub ghost made: { limit ≤ deque_capacity calls },
}

impl Window {
    /// No calls yet, and room for so many.
    pub fn new(alloc: Global, limit: u64) -> Result<Window, NoMemory>
        ensures first { IfOk result (λ window. window.first ≡ 1) }
        ensures calls { IfOk result (λ window. window.calls.items ≡ []) }
        ensures limit { IfOk result (λ window. window.limit ≡ limit) }
    {
        Ok(Window {
            first: 1,
            calls: VecDeque::with_capacity(alloc, limit as usize)?,
            limit,
        })
    }

    /// Whether it has as many calls as it can have.
    pub fn is_full(&self) -> bool
        ensures { MatchBool result (self.now.limit ≤ length self.now.calls.items) (length self.now.calls.items < self.now.limit) }
    {
        self.calls.len() as u64 >= self.limit
    }

    /// A copy of the oldest call's event.
    pub fn oldest_event(&self) -> Result<Event, NoMemory>
        requires { 0 < length self.now.calls.items }
        ensures oldest { IfOk result (λ event. IfSome (slice_get self.now.calls.items 0) (λ oldest. event ≡ oldest.event)) }
        ensures plain { IfSome (slice_get self.now.calls.items 0) (λ oldest. is_plain oldest.event ≡ true → IsOk result) }
    {
        match self.calls.front() {
            Some(oldest) => Ok(oldest.event.copy()?),
            None => unreachable!(),
        }
    }

    /// Lets the oldest call leave.
    pub fn move_on(&mut self)
        requires some { 0 < length self.old.calls.items }
        requires few { self.old.first < 2 ^ 63 }
        ensures calls { self.new.calls.items ≡ drop 1 self.old.calls.items }
        ensures first { self.new.first ≡ self.old.first + 1 }
        ensures limit { self.new.limit ≡ self.old.limit }
    {
        match self.calls.pop_front() {
            Some(oldest) => drop(oldest),
            None => unreachable!(),
        }
        self.first += 1;
    }

    /// Adds a call. It takes no memory.
    pub fn push(&mut self, call: Receipt)
        requires room { length self.old.calls.items < self.old.limit }
        ensures calls { self.new.calls.items ≡ self.old.calls.items ++ call ∷ [] }
        ensures first { self.new.first ≡ self.old.first }
        ensures limit { self.new.limit ≡ self.old.limit }
    {
        self.calls.push_back_reserved(call);
    }
}
