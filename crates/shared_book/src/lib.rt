//! One book for many callers: a lock, a window of the last calls, and receipts that are checked when it is closed.
#![tactic(auto)]

// The faults of calls, splits and closings.
mod fault;
// The receipt of a call, of which the window has a copy.
mod receipt;
// The ledger of the calls of one book.
mod ledger;
// The numbers of callers.
mod callers;
// A caller's right to call, with what it has seen.
mod pass;
// The window: the last calls, oldest first.
mod window;
// Copies of an event.
mod copies;
// A reply or a view with its copy for the window.
mod told;
// A reply and its copy for the window.
mod next_reply;
// An opening book, which takes the calls that leave the window.
mod opening;
// The state under the lock: both books, the window between them, and the total of all calls.
mod kept;
// The calls to that state, by callers with a pass.
mod calls;
// The closing of a book: the receipts are compared with the window.
mod close;
// The laws of closing, by the definitions alone.
mod laws;
// The lock around that state.
mod lock;
// A book that many callers share, each with a pass.
mod shared;
// A shared book with a pass, as a desk.
mod seat;

pub use close::NotClosed;
pub use fault::{CallFault, CloseFault, SplitFault, SplitFound};
pub use kept::{Kept, MOST_RECORDED};
pub use laws::{limits_law, one_history, one_verdict};
pub use ledger::{Blank, CallLedger};
pub use pass::Pass;
pub use receipt::Receipt;
pub use seat::Seat;
pub use shared::SharedBook;
