//! Exchanges with name servers: a query goes out, and its response comes in.

ghost use Rattle.std.specs.Prelude.{ℕ, List, Option, Result};
ghost use Rattle.std.specs.Option.{option_copied};
ghost use Rattle.dns_text.specs.declared.addr.Addr.{Addr};
ghost use Rattle.dns_query.specs.declared.over.Over.{Over};
ghost use Rattle.iterate.specs.declared.search.Hunt.{Hunt};
ghost use Rattle.system.specs.declared.device.DeviceFault.{DeviceFault};
ghost use Rattle.system.specs.Counts.{CountsFault};

use dns_query::Over;
use dns_text::{Addr, Octets};
use iterate::Hunt;
use system::DeviceFault;

/// A client of name servers.
pub trait Exchange {
    /// One exchange: the client before, the server, the list that has it, the transport, the query, the response or the fault, the
    /// client after.
    ghost asks: { Self → Addr → Option Hunt → Over → List ℕ → Result (List ℕ) DeviceFault → Self → Type 0 };

    /// The count of exchanges that failed, up to 2^64 - 1.
    ghost failures: { Self → ℕ };

    /// Sends a query to a server, and returns the response: at most `MOST_MESSAGE` octets. `Device` if none came, `NoMemory` if there
    /// was no memory for it. `hunt` is the list of servers that has the server, if it is known.
    fn ask(
        &mut self,
        server: &Addr,
        hunt: Option<&Hunt>,
        over: Over,
        query: &[u8],
    ) -> Result<Octets, DeviceFault>
        ensures asked { asks self.old server.now (option_copied hunt.entry) over query.now result self.new }
        ensures counted { CountsFault result (failures self.old) (failures self.new) };
}
