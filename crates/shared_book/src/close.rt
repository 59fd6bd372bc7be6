//! The closing of a book: the receipts are compared with the window.

ghost use Rattle.std.specs.Prelude.{◌≡◌, ◌<◌, ◌≤◌, ◌^◌, ◌↔◌, IsTrue, length, slice_get, Some, None, OnOk, IfOk, IfErr, IsOk, MatchResult, MatchOption};
ghost use Rattle.shared_book.specs.Closing.{numbered_from, IsInOrder, IsFirstOther, IsClosed};
ghost use Rattle.shared_book.specs.Kept.{IsKept};

use crate::fault::CloseFault;
use crate::kept::Kept;
use crate::ledger::CallLedger;
use crate::pass::Pass;
use crate::receipt::Receipt;
use dns_name::NoMemory;
use history::Book;
use std::collections::VecDeque;

/// The reason that a book is not closed, with what lay under its lock, unchanged.
#[derive(Drop)]
pub struct NotClosed<B: Book, L: CallLedger> {
    pub fault: CloseFault,
    pub kept: Kept<B, L>,
}

impl<B: Book, L: CallLedger> Kept<B, L> {
    /// Whether the receipts, in order of number, are those of the window's calls. Receipts of earlier calls are passed over. An earlier
    /// fault of `CloseFault` hides a later one.
    pub fn close(
        mut self,
        passes: Vec<Pass<L>>,
        mut receipts: Vec<Receipt>,
    ) -> Result<Kept<B, L>, NotClosed<B, L>>
        ensures same { MatchResult result (λ kept. kept ≡ self) (λ not_closed. not_closed.kept ≡ self) }
        ensures ok { IfOk result (λ kept. IsClosed L.parts kept passes.items receipts.items None) }
        ensures err { IfErr result (λ not_closed. IsClosed L.parts not_closed.kept passes.items receipts.items (Some not_closed.fault)) }
        ensures kept { IfOk result (λ kept. IsKept B.stands_for B.settings kept) }
    {
        let made = self.gather(passes);
        if made < self.total() {
            let count = self.total() - made;
            return Err(not_closed(CloseFault::Missing { count }, self));
        }
        pass_over(&mut receipts, self.first());
        let recorded = self.window().len();
        if receipts.len() < recorded {
            let count = (recorded - receipts.len()) as u64;
            return Err(not_closed(CloseFault::Missing { count }, self));
        }
        match put_in_order(&mut receipts) {
            Ok(()) => {}
            Err(_) => return Err(not_closed(CloseFault::NoMemory, self)),
        }
        match first_other(self.first(), &receipts, self.window()) {
            None => Ok(self),
            Some(number) => Err(not_closed(CloseFault::Mismatch { number }, self)),
        }
    }

    /// The number of the window's first call.
    fn first(&self) -> u64
        ensures first { result ≡ self.now.first }
        ensures few { result ≤ 2 ^ 62 }
    {
        self.window.first
    }
}

fn not_closed<B: Book, L: CallLedger>(fault: CloseFault, kept: Kept<B, L>) -> NotClosed<B, L>
    ensures fault { result.fault ≡ fault }
    ensures kept { result.kept ≡ kept }
{
    NotClosed { fault, kept }
}

/// Passes over the receipts of the calls before this number.
fn pass_over(receipts: &mut Vec<Receipt>, first: u64)
    ensures { receipts.new.items ≡ numbered_from first receipts.old.items }
{
    receipts.retain(|receipt| receipt.number >= first);
}

/// Sorts receipts by number. Equal numbers keep their order.
fn put_in_order(receipts: &mut Vec<Receipt>) -> Result<(), NoMemory>
    ensures order { OnOk result (IsInOrder receipts.old.items receipts.new.items) }
    ensures few { length receipts.old.items ≤ 20 → IsOk result }
    ensures len { length receipts.new.items ≡ length receipts.old.items }
{
    match receipts.sort_by_key(|receipt| receipt.number) {
        Ok(()) => Ok(()),
        Err(fault) => Err(fault),
    }
}

/// Whether this entry is the receipt.
fn is_entry(entries: &VecDeque<Receipt>, i: usize, receipt: &Receipt) -> bool
    ensures { IsTrue result ↔ (slice_get entries.now.items i ≡ Some receipt.now) }
{
    if i >= entries.len() {
        return false;
    }
    entries[i] == *receipt
}

/// The number of the first place whose receipt is not that entry, if the entries are numbered from `first`.
fn first_other(first: u64, receipts: &[Receipt], entries: &VecDeque<Receipt>) -> Option<u64>
    requires few { first ≤ 2 ^ 62 }
    requires each { length entries.now.items ≤ length receipts.now }
    ensures { MatchOption result (receipts.now ≡ entries.now.items) (λ number. IsFirstOther first number receipts.now entries.now.items) }
{
    for (i, receipt) in receipts.iter().enumerate() {
        if !is_entry(entries, i, receipt) {
            return Some(first + i as u64);
        }
    }
    None
}
