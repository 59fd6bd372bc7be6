//! The addresses in the data of A and AAAA records.

ghost use Rattle.std.specs.Prelude.{◌≡◌, ◌++◌, OnOk};
ghost use Rattle.std.specs.List.{flat_map};
ghost use Rattle.ranked.specs.Addrs.{addr_of};

use dns_name::NoMemory;
use dns_text::{Addr, Data, Ip};

/// Adds the address in the data of an A or AAAA record; other data has none.
fn push_addr(port: u16, datum: &Data, out: &mut Vec<Addr>) -> Result<(), NoMemory>
    ensures { OnOk result (out.new.items ≡ out.old.items ++ addr_of port datum.now) }
{
    let ip = match datum {
        Data::A(octets) => Ip::V4(*octets),
        Data::Aaaa(octets) => Ip::V6(*octets),
        _ => return Ok(()),
    };
    out.push(Addr { ip, port })?;
    Ok(())
}

/// Adds the addresses in the data of a set, with this port.
pub fn push_addrs(port: u16, set: &[Data], out: &mut Vec<Addr>) -> Result<(), NoMemory>
    ensures { OnOk result (out.new.items ≡ out.old.items ++ flat_map (addr_of port) set.now) }
{
    for datum in set {
        push_addr(port, datum, out)?;
    }
    Ok(())
}
