//! The words of the commands on stubs.

ghost use Rattle.std.specs.Prelude.{IsTrue, IfOk, IsErrOf, is_ok, ◌≡◌};
ghost use Rattle.command_text.specs.declared.fault.LineFault.TheVariants.{NoMemory};
ghost use Rattle.command_text.specs.Fault.{Gives};
ghost use Rattle.command_text.specs.Parts.{word_in};
ghost use Rattle.command_text.specs.Stubs.{stub_words, set_stub_in, drop_stub_in};

use crate::addrs::read_addrs;
use crate::common_words::{read_name, read_only_name, read_word};
use crate::fault::LineFault;
use dns_name::Name;
use dns_text::{Addr, Items, Shared};
use history::Command;
use std::alloc::{AllocError, Global};
use stub_table::Stub;

fn share_stub(alloc: Global, name: Name, addrs: Items<Addr>) -> Result<Shared<Stub>, AllocError>
    ensures { IfOk result (λ stub. stub ≡ record { name = name; addrs = addrs }) }
{
    Shared::new(alloc, Stub { name, addrs })
}

/// `NAME` and at least one address.
#[tactic(auto, unfolding(crate::specs::Stubs::stub_words, crate::specs::Stubs::stub_of, crate::specs::Stubs::set_stub_in))]
pub(crate) fn read_set_stub(alloc: Global, text: &[u8]) -> Result<Command, LineFault>
    ensures value { Gives result (set_stub_in text.now) }
    ensures no_memory { IsErrOf result NoMemory → IsTrue (is_ok (stub_words text.now)) }
{
    let (name, addrs) = read_word(text)?;
    read_word(addrs)?;
    let name = read_name(alloc, name)?;
    let addrs = read_addrs(alloc, addrs)?;
    let stub = share_stub(alloc, name, addrs)?;
    Ok(Command::SetStub { stub })
}

/// `NAME` and no more.
#[tactic(auto, unfolding(crate::specs::Stubs::drop_stub_in))]
pub(crate) fn read_drop_stub(alloc: Global, text: &[u8]) -> Result<Command, LineFault>
    ensures value { Gives result (drop_stub_in text.now) }
    ensures no_memory { IsErrOf result NoMemory → IsTrue (is_ok (word_in text.now)) }
{
    let name = read_only_name(alloc, text)?;
    Ok(Command::DropStub { name })
}
