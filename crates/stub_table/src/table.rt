//! The list of stubs.

ghost use Rattle.std.specs.Prelude.{◌≡◌, [], false, IfErr, IfOk, IsOk, OnErr, OnOk, None};
ghost use Rattle.std.specs.Option.{option_map};

use crate::fault::StubFault;
use crate::reason::reason_of_stub;
use crate::saved::SavedStubs;
use crate::stub::{MOST_ADDRS, Stub};
use dns_name::{Name, NoMemory};
use dns_text::Shared;
use named_list::NamedList;
use std::alloc::Global;
use std::marker::Model;

/// The greatest number of stubs.
pub const MOST_STUBS: usize = 1024;

/// Stubs, in the order of their arrival.
#[derive(Drop)]
pub struct StubTable {
    stubs: NamedList<Stub>,
}

impl Model for StubTable {
    ghost use Rattle.stub_table.specs.Stubs.{Stubs, AreStubs};

    ghost Value = { Stubs };

    ghost view = { λ t. t.stubs };

    ghost invariant = { λ t. AreStubs t.stubs };
}

impl StubTable {
    ghost use Rattle.stub_table.specs.Stubs.{Stubs, AreStubs};
    ghost use Rattle.stub_table.specs.Closest.{closest_stub};
    ghost use Rattle.stub_table.specs.Change.{has_stub, stubs_with, stubs_without};
    ghost use Rattle.stub_table.specs.Reason.{reason_of_stub, IsFaultFor};
    ghost use Rattle.stub_table.specs.Saved.{before_of, needs_memory, IsTurned, TakesBack};

    /// A table of no stubs. It takes no memory.
    pub fn new(alloc: Global) -> StubTable
        ensures { result ≡ [] }
    {
        StubTable {
            stubs: NamedList::new(alloc),
        }
    }

    /// The stubs in order.
    pub fn stubs(&self) -> &[Shared<Stub>]
        ensures value { result.now ≡ self.now }
        ensures sound { AreStubs self.now }
    {
        self.stubs.as_slice()
    }

    /// The stub with the longest name at or above a name. It takes no memory.
    pub fn closest(&self, name: &Name) -> Option<&Shared<Stub>>
        ensures { option_map (λ s. s.now) result ≡ closest_stub self.now name.now }
    {
        self.stubs.closest(name)
    }

    /// Adds a stub, or gives the stub of this name other addresses. The only faults are `TooMany` and `NoMemory`. To take it back takes
    /// no memory.
    pub fn set(&mut self, stub: Shared<Stub>) -> Result<SavedStubs, StubFault>
        ensures ok { OnOk result ((reason_of_stub stub self.old ≡ None) × (self.new ≡ stubs_with stub self.old)) }
        ensures err { IfErr result (λ fault. IsFaultFor (reason_of_stub stub self.old) fault × (self.new ≡ self.old)) }
        ensures saved { IfOk result (λ saved. TakesBack saved self.new self.old) }
        ensures frees { IfOk result (λ saved. needs_memory saved ≡ false) }
    {
        if let Some(reason) = reason_of_stub(&self.stubs, stub.get()) {
            return Err(reason);
        }
        let turn = self.stubs.put(stub)?;
        Ok(SavedStubs { turn })
    }

    /// Removes the stub of a name, if there is one. It takes no memory. Only if there is one, to take that back may.
    pub fn remove(&mut self, name: &Name) -> Result<SavedStubs, NoMemory>
        ensures ok { OnOk result (self.new ≡ stubs_without name.now self.old) }
        ensures err { OnErr result (self.new ≡ self.old) }
        ensures saved { IfOk result (λ saved. TakesBack saved self.new self.old) }
        ensures free { IsOk result }
        ensures frees { IfOk result (λ saved. has_stub self.old name.now ≡ false → needs_memory saved ≡ false) }
    {
        let turn = self.stubs.take(name);
        Ok(SavedStubs { turn })
    }

    /// Takes back the change that left this list. The saved value then serves `again`. If memory is refused, nothing has changed.
    pub fn back(&mut self, saved: &mut SavedStubs) -> Result<(), NoMemory>
        requires { (before : Stubs) × TakesBack saved.old self.old before }
        ensures ok { OnOk result (self.new ≡ before_of saved.old self.old) }
        ensures again { OnOk result (TakesBack saved.new self.new self.old) }
        ensures turned { OnOk result (IsTurned saved.old saved.new) }
        ensures err { OnErr result ((self.new ≡ self.old) × (saved.new ≡ saved.old)) }
        ensures free { needs_memory saved.old ≡ false → IsOk result }
    {
        self.stubs.turn_over(&mut saved.turn)
    }

    /// Makes a change again that `back` took back. The saved value then serves `back`. If memory is refused, nothing has changed.
    pub fn again(&mut self, saved: &mut SavedStubs) -> Result<(), NoMemory>
        requires { (after : Stubs) × TakesBack saved.old self.old after }
        ensures ok { OnOk result (self.new ≡ before_of saved.old self.old) }
        ensures back { OnOk result (TakesBack saved.new self.new self.old) }
        ensures turned { OnOk result (IsTurned saved.old saved.new) }
        ensures err { OnErr result ((self.new ≡ self.old) × (saved.new ≡ saved.old)) }
        ensures free { needs_memory saved.old ≡ false → IsOk result }
    {
        self.stubs.turn_over(&mut saved.turn)
    }

    /// Drops the way back of a change, which can then no longer be taken back or made again.
    pub fn settle(&mut self, saved: SavedStubs)
        ensures { self.new ≡ self.old }
    {
        drop(saved);
    }
}

/// A table holds at most 1,024 stubs, each with at most 8 addresses.
pub fn limits_law()
    ensures stubs { MOST_STUBS ≡ 1024 }
    ensures addresses { MOST_ADDRS ≡ 8 }
{}
