//! The ledger of the calls of one book.

ghost use Rattle.std.specs.Prelude.{◌≡◌, ℕ, []};

use std::marker::{Brand, Model};
use std::sync::ledger::{Blank as BlankLedger, Book as Calls, Ledger, Share};

/// The identity of a book's ledger, with what all callers know of that book.
pub trait CallLedger: Ledger {
    ghost use Rattle.history.specs.declared.event.Settings.{Settings};

    // The number of calls that the window can have.
    ghost limit: { ℕ };

    // The settings of the book.
    ghost settings: { Settings };
}

impl CallLedger for Brand {
    ghost limit = { 0 };

    ghost settings = { record { journal = 0; cells = 0; hints = []; server_port = 0 } };
}

/// A new ledger of calls, with the number of its parts.
#[derive(Drop)]
pub struct Blank {
    ledger: BlankLedger,
    parts: u64,
}

impl Model for Blank {
    ghost use Rattle.std.specs.Prelude.{◌≡◌};
    ghost use Rattle.shared_book.specs.Ledger.{LedgerState};

    ghost Value = { LedgerState };

    ghost view = { λ b. record { name = b.ledger.name; parts = b.parts } };

    ghost invariant = { λ b. b.parts ≡ b.ledger.parts };
}

impl Blank {
    /// A ledger that this many callers can share.
    pub fn new(parts: u64) -> Blank
        ensures { result.parts ≡ parts }
    {
        Blank {
            ledger: BlankLedger::new(parts),
            parts,
        }
    }

    /// The number of callers that can share it.
    pub fn parts(&self) -> u64
        ensures { result ≡ self.now.parts }
    {
        self.parts
    }

    /// The total of the calls, and the one share with every part.
    pub(crate) fn open<L: Ledger>(self) -> (Calls<L>, Share<L>)
        requires name { self.name ≡ L.name }
        requires parts { self.parts ≡ L.parts }
        ensures total { result.0.total ≡ 0 }
        ensures amount { result.1.amount ≡ 0 }
        ensures parts { result.1.parts ≡ self.parts }
    {
        let Blank { ledger, parts: _ } = self;
        ledger.open::<L>()
    }
}
