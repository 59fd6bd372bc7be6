//! Stubs as text.

use dns_name::NoMemory;
use dns_text::push_addr;
use stub_table::{Stub, StubTable};

/// A line of a stub: its name and addresses.
pub fn push_stub(stub: &Stub, out: &mut Vec<u8>) -> Result<(), NoMemory> {
    stub.name.push_text(out)?;
    for addr in stub.addrs.as_slice() {
        out.push(b' ')?;
        push_addr(addr, out)?;
    }
    out.push(b'\n')?;
    Ok(())
}

/// The stubs in order, a line each.
pub fn push_list(table: &StubTable, out: &mut Vec<u8>) -> Result<(), NoMemory> {
    for stub in table.stubs() {
        push_stub(stub.get(), out)?;
    }
    Ok(())
}
