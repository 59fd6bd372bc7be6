//! The changes of stubs.

ghost use Rattle.std.specs.Prelude.{◌≡◌, false, IfErr, IfOk, IsOk, OnErr, OnOk};
ghost use Rattle.change_law.specs.Effect.{IsFaultFor};
ghost use Rattle.stub_table.specs.Saved.{before_of, needs_memory, IsTurned, TakesBack};
ghost use Rattle.stub_table.specs.Stubs.{Stubs};
ghost use Rattle.table_changes.specs.Stubs.{stub_code, stubs_after, stubs_removed, FailsStubChange, MakesStubChange};

use change_law::{ChangeFault, Standing};
use dns_name::{Name, NoMemory};
use dns_text::Shared;
use stub_table::{SavedStubs, Stub, StubFault, StubTable};

/// A change of the stubs.
#[derive(Drop)]
pub enum StubChange {
    /// Adds a stub, or gives the stub of its name other addresses.
    Set(Shared<Stub>),
    /// Removes the stub of a name, if there is one.
    Drop(Name),
}

// The fault of a change, from that of the table.
fn stub_fault(fault: StubFault) -> ChangeFault
    ensures { IsFaultFor (stub_code fault) result }
{
    match fault {
        StubFault::TooMany => ChangeFault::Refused(4),
        StubFault::NoMemory => ChangeFault::NoMemory,
    }
}

// Sets a stub.
fn set_stub(table: &mut StubTable, stub: Shared<Stub>) -> Result<SavedStubs, ChangeFault>
    ensures ok { OnOk result (MakesStubChange (StubChange.Set stub) table.old table.new) }
    ensures saved { IfOk result (λ saved. TakesBack saved table.new table.old) }
    ensures frees { IfOk result (λ saved. stubs_removed (StubChange.Set stub) table.old ≡ false → needs_memory saved ≡ false) }
    ensures err { IfErr result (FailsStubChange (StubChange.Set stub) table.old table.new) }
{
    match table.set(stub) {
        Ok(saved) => Ok(saved),
        Err(fault) => Err(stub_fault(fault)),
    }
}

// Removes a stub.
fn drop_stub(table: &mut StubTable, name: Name) -> Result<SavedStubs, ChangeFault>
    ensures ok { OnOk result (table.new ≡ stubs_after (StubChange.Drop name) table.old) }
    ensures saved { IfOk result (λ saved. TakesBack saved table.new table.old) }
    ensures frees { IfOk result (λ saved. stubs_removed (StubChange.Drop name) table.old ≡ false → needs_memory saved ≡ false) }
    ensures err { IfErr result (λ fault. (fault ≡ ChangeFault.NoMemory) × (table.new ≡ table.old)) }
{
    match table.remove(&name) {
        Ok(saved) => Ok(saved),
        Err(_) => Err(ChangeFault::NoMemory),
    }
}

// Makes a change of the stubs.
pub(crate) fn make_stub_change(
    table: &mut StubTable,
    change: StubChange,
) -> Result<SavedStubs, ChangeFault>
    ensures ok { OnOk result (MakesStubChange change table.old table.new) }
    ensures saved { IfOk result (λ saved. TakesBack saved table.new table.old) }
    ensures frees { IfOk result (λ saved. stubs_removed change table.old ≡ false → needs_memory saved ≡ false) }
    ensures err { IfErr result (FailsStubChange change table.old table.new) }
{
    match change {
        StubChange::Set(stub) => set_stub(table, stub),
        StubChange::Drop(name) => drop_stub(table, name),
    }
}

// Takes a change back, or makes it again.
pub(crate) fn turn_stubs(
    table: &mut StubTable,
    from: Standing,
    saved: &mut SavedStubs,
) -> Result<(), NoMemory>
    requires { (other : Stubs) × TakesBack saved.old table.old other }
    ensures ok { OnOk result (table.new ≡ before_of saved.old table.old) }
    ensures again { OnOk result (TakesBack saved.new table.new table.old) }
    ensures turned { OnOk result (IsTurned saved.old saved.new) }
    ensures err { OnErr result ((table.new ≡ table.old) × (saved.new ≡ saved.old)) }
    ensures free { needs_memory saved.old ≡ false → IsOk result }
{
    match from {
        Standing::Done => table.back(saved),
        _ => table.again(saved),
    }
}
