//! The laws of closing, by the definitions alone.

ghost use Rattle.std.specs.Prelude.{◌≡◌};
ghost use Rattle.shared_book.specs.Closing.{HasOneVerdict};
ghost use Rattle.shared_book.specs.OneHistory.{ClosedIsOneHistory};

use crate::kept::MOST_RECORDED;
use crate::shared::MOST_TURNS;
use history::Book;

/// Only want of memory lets two closings of one book differ. So each fault comes exactly if its condition holds.
pub fn one_verdict<B: Book>()
    ensures { HasOneVerdict B }
{}

/// The receipts with which a book was closed are of one history, which the book represents. Each reply is that of a replay of
/// the events before it, and each caller's receipts are there in the order of its calls.
#[tactic(auto, using(crate::proofs::OneHistory::one_history))]
pub fn one_history<B: Book>()
    ensures { ClosedIsOneHistory B.stands_for B.settings }
{}

/// The call log has at most 1,000,000 calls. A sweep takes at most 16,384 turns.
pub fn limits_law()
    ensures recorded { MOST_RECORDED ≡ 1000000 }
    ensures turns { MOST_TURNS ≡ 16384 }
{}
