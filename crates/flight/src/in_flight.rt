//! An exchange under way with a name server.

ghost use Rattle.std.specs.Prelude.{◌≡◌, ℕ, List, Option};
ghost use Rattle.iterate.specs.declared.search.Hunt.{Hunt};
ghost use Rattle.flight.specs.Flight.{Sent};

use dns_text::Addr;

/// An exchange under way with a name server. Dropping it closes it.
pub trait InFlight: Drop {
    /// The query that went out.
    ghost asked: { Self → Sent };

    /// The key under which the exchange is watched.
    ghost key: { Self → ℕ };

    /// What may come of a query: these octets as its reply, or None if its exchange could not begin, broke, or had no time left.
    ghost hears: { Sent → Option (List ℕ) → Type 0 };

    /// The exchange began with this list of servers, or with none.
    ghost listed: { Self → Option Hunt → Type 0 };

    /// The server that is asked.
    fn server(&self) -> Addr
        ensures { result ≡ (asked self.now).server };
}
