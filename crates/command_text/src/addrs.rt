//! Addresses of servers, each a word.

ghost use Rattle.std.specs.Prelude.{◌≡◌, ◌++◌, OnOk};
ghost use Rattle.dns_name.specs.Results.{or_fault};
ghost use Rattle.dns_text.specs.Addr.{addr_in};
ghost use Rattle.command_text.specs.declared.fault.LineFault.TheVariants.{BadAddress};
ghost use Rattle.command_text.specs.Fault.{Gives};
ghost use Rattle.command_text.specs.Addrs.{addrs_in, addrs_text};

use crate::fault::LineFault;
use dns_text::{Addr, Items, NoMemory, next_word, push_addr, read_addr};
use std::alloc::Global;

fn read_address(word: &[u8]) -> Result<Addr, LineFault>
    ensures { result ≡ or_fault BadAddress (addr_in word.now) }
{
    match read_addr(word) {
        Ok(addr) => Ok(addr),
        Err(_) => Err(LineFault::BadAddress),
    }
}

/// The addresses that the words of a text write.
pub(crate) fn read_addrs(alloc: Global, text: &[u8]) -> Result<Items<Addr>, LineFault>
    ensures { Gives result (addrs_in text.now) }
{
    let mut addrs = Vec::new(alloc);
    let mut rest = text;
    while let Some((word, after)) = next_word(rest) {
        addrs.push(read_address(word)?)?;
        rest = after;
    }
    Ok(Items::new(addrs))
}

/// Writes addresses, each after a blank.
pub(crate) fn push_addrs(addrs: &[Addr], out: &mut Vec<u8>) -> Result<(), NoMemory>
    ensures { OnOk result (out.new.items ≡ out.old.items ++ addrs_text addrs.now) }
{
    for addr in addrs {
        out.push(b' ')?;
        push_addr(addr, out)?;
    }
    Ok(())
}
