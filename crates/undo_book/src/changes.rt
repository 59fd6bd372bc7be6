//! The change that a command makes of local zones, records and stubs.

ghost use Rattle.std.specs.Prelude.{◌≡◌, IfOk, OnErr, OnOk, None, Some};
ghost use Rattle.history.specs.Changes.{after_command_on, reason_on, reason_told, stub_reason_told, unless_refused};

use dns_name::{Name, NoMemory};
use dns_text::{Record, Shared};
use history::{Command, Reason, Tables};
use local_zone::{TableFault, ZoneType};
use std::alloc::AllocError;
use stub_table::{Stub, StubFault};

/// Makes the change of a command, or returns why it is refused. Then, and if memory is refused, nothing has changed.
pub(crate) fn change(tables: &mut Tables, command: &Command) -> Result<Option<Reason>, NoMemory>
    ensures told { IfOk result (λ o. o ≡ reason_on tables.old command.now) }
    ensures changed { IfOk result (λ o. tables.new ≡ unless_refused o command.now tables.old) }
    ensures same { OnErr result (tables.new ≡ tables.old) }
{
    match command {
        Command::FlushType(_) | Command::Flush { .. } | Command::FlushZone { .. } => Ok(None),
        Command::SetZone { name, kind } => set_zone(tables, name, *kind),
        Command::DropZone { name } => drop_zone(tables, name),
        Command::AddRecord { record } => add_record(tables, record),
        Command::DropName { name } => drop_name(tables, name),
        Command::SetStub { stub } => set_stub(tables, stub),
        Command::DropStub { name } => drop_stub(tables, name),
    }
}

/// Obeys a command in force. The tables before it accepted it, so only want of memory can refuse it.
pub(crate) fn obey(tables: &mut Tables, command: &Command) -> Result<(), NoMemory>
    ensures { OnOk result (tables.new ≡ after_command_on command.now tables.old) }
{
    match change(tables, command)? {
        None => Ok(()),
        Some(_) => Err(AllocError),
    }
}

fn set_zone(tables: &mut Tables, name: &Name, kind: ZoneType) -> Result<Option<Reason>, NoMemory>
    ensures told { IfOk result (λ o. o ≡ reason_on tables.old (Command.SetZone name.now kind)) }
    ensures changed { IfOk result (λ o. tables.new ≡ unless_refused o (Command.SetZone name.now kind) tables.old) }
    ensures same { OnErr result (tables.new ≡ tables.old) }
{
    match tables.local.set(name.clone()?, kind) {
        Ok(_) => Ok(None),
        Err(fault) => Ok(Some(reason(fault)?)),
    }
}

fn drop_zone(tables: &mut Tables, name: &Name) -> Result<Option<Reason>, NoMemory>
    ensures told { IfOk result (λ o. o ≡ None) }
    ensures changed { OnOk result (tables.new ≡ after_command_on (Command.DropZone name.now) tables.old) }
    ensures same { OnErr result (tables.new ≡ tables.old) }
{
    match tables.local.drop_zone(name) {
        Ok(_) => Ok(None),
        Err(_) => Err(AllocError),
    }
}

fn add_record(tables: &mut Tables, new: &Shared<Record>) -> Result<Option<Reason>, NoMemory>
    ensures told { IfOk result (λ o. o ≡ reason_on tables.old (Command.AddRecord new.now)) }
    ensures changed { IfOk result (λ o. tables.new ≡ unless_refused o (Command.AddRecord new.now) tables.old) }
    ensures same { OnErr result (tables.new ≡ tables.old) }
{
    match tables.local.add_record(new.share()?) {
        Ok(_) => Ok(None),
        Err(fault) => Ok(Some(reason(fault)?)),
    }
}

fn drop_name(tables: &mut Tables, name: &Name) -> Result<Option<Reason>, NoMemory>
    ensures told { IfOk result (λ o. o ≡ None) }
    ensures changed { OnOk result (tables.new ≡ after_command_on (Command.DropName name.now) tables.old) }
    ensures same { OnErr result (tables.new ≡ tables.old) }
{
    match tables.local.drop_name(name) {
        Ok(_) => Ok(None),
        Err(_) => Err(AllocError),
    }
}

fn set_stub(tables: &mut Tables, new: &Shared<Stub>) -> Result<Option<Reason>, NoMemory>
    ensures told { IfOk result (λ o. o ≡ reason_on tables.old (Command.SetStub new.now)) }
    ensures changed { IfOk result (λ o. tables.new ≡ unless_refused o (Command.SetStub new.now) tables.old) }
    ensures same { OnErr result (tables.new ≡ tables.old) }
{
    match tables.stubs.set(new.share()?) {
        Ok(_) => Ok(None),
        Err(fault) => Ok(Some(stub_reason(fault)?)),
    }
}

fn drop_stub(tables: &mut Tables, name: &Name) -> Result<Option<Reason>, NoMemory>
    ensures told { IfOk result (λ o. o ≡ None) }
    ensures changed { OnOk result (tables.new ≡ after_command_on (Command.DropStub name.now) tables.old) }
    ensures same { OnErr result (tables.new ≡ tables.old) }
{
    match tables.stubs.remove(name) {
        Ok(_) => Ok(None),
        Err(_) => Err(AllocError),
    }
}

/// The reason for a fault of the local tables.
fn reason(fault: TableFault) -> Result<Reason, NoMemory>
    ensures { IfOk result (λ reason. reason_told fault ≡ Some reason) }
{
    match fault {
        TableFault::BelowRedirect => Ok(Reason::BelowRedirect),
        TableFault::DataBelow => Ok(Reason::DataBelow),
        TableFault::CnameClash => Ok(Reason::CnameClash),
        TableFault::TooMany => Ok(Reason::TooMany),
        TableFault::NoMemory => Err(AllocError),
    }
}

/// The reason for a fault of the stubs.
fn stub_reason(fault: StubFault) -> Result<Reason, NoMemory>
    ensures { IfOk result (λ reason. stub_reason_told fault ≡ Some reason) }
{
    match fault {
        StubFault::TooMany => Ok(Reason::TooMany),
        StubFault::NoMemory => Err(AllocError),
    }
}
