//! Name servers that say what lines said.

ghost use Rattle.std.specs.Prelude.{◌≡◌};

use crate::queries::push_query;
use crate::said::Said;
use dns_name::NoMemory;
use dns_query::Over;
use dns_text::{Addr, Octets};
use iterate::Hunt;
use plain_workers::Exchange;
use std::alloc::Global;
use system::DeviceFault;

/// Name servers that say what lines said, in order, and then nothing.
#[derive(Drop)]
pub struct Servers {
    alloc: Global,
    said: Vec<Said>,
    /// How many of these were given.
    given: usize,
    /// The queries of which no line was written yet.
    asked: Vec<u8>,
    /// How many calls there were since the last query or stream began.
    calls: u64,
    /// Which of them fails; 0 for none.
    failing: u64,
    failures: u64,
}

impl Servers {
    pub fn new(alloc: Global) -> Servers {
        Servers {
            alloc,
            said: Vec::new(alloc),
            given: 0,
            asked: Vec::new(alloc),
            calls: 0,
            failing: 0,
            failures: 0,
        }
    }

    /// Says this after what it says already.
    pub fn say(&mut self, said: Said) -> Result<(), NoMemory> {
        self.said.push(said)?;
        Ok(())
    }

    /// The Nth call fails.
    pub fn fail(&mut self, nth: u64) {
        self.failing = nth;
    }

    /// What was asked, a line each.
    pub fn asked(&self) -> &[u8] {
        self.asked.as_slice()
    }

    /// Begins anew, and has nothing to say.
    pub fn forget(&mut self) {
        self.said.clear();
        self.asked.clear();
        self.given = 0;
        self.calls = 0;
        self.failing = 0;
    }

    /// Writes down `send ADDR udp|tcp OCTETS`.
    fn note(&mut self, server: &Addr, over: Over, query: &[u8]) -> Result<(), NoMemory>
        ensures { self.new.failures ≡ self.old.failures }
    {
        self.asked.extend_from_slice(b"send ")?;
        push_query(server, over, query, &mut self.asked)
    }

    /// What comes of a query. None where nothing does.
    fn answer(&mut self, query: &[u8]) -> Result<Option<Octets>, NoMemory>
        ensures { self.new.failures ≡ self.old.failures }
    {
        let next = self.given;
        self.given = next.saturating_add(1);
        match self.said.get(next) {
            Some(said) => said.octets(self.alloc, query),
            None => Ok(None),
        }
    }

    /// A call. None where nothing comes of it.
    fn call(&mut self, server: &Addr, over: Over, query: &[u8]) -> Result<Option<Octets>, NoMemory>
        ensures { self.new.failures ≡ self.old.failures }
    {
        self.calls = self.calls.wrapping_add(1);
        self.note(server, over, query)?;
        if self.calls == self.failing {
            return Ok(None);
        }
        self.answer(query)
    }
}

impl Exchange for Servers {
    ghost asks = { λ _ _ _ _ _ _ _. Unit {0} };

    ghost failures = { λ s. s.failures };

    fn ask(
        &mut self,
        server: &Addr,
        _hunt: Option<&Hunt>,
        over: Over,
        query: &[u8],
    ) -> Result<Octets, DeviceFault> {
        match self.call(server, over, query) {
            Ok(Some(octets)) => Ok(octets),
            Ok(None) => {
                self.failures = self.failures.saturating_add(1);
                Err(DeviceFault::Device)
            }
            Err(_) => Err(DeviceFault::NoMemory),
        }
    }
}
