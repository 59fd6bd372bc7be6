//! Queries to name servers, as they are written.

use dns_name::NoMemory;
use dns_query::Over;
use dns_text::{Addr, push_addr};

/// Writes octets in hexadecimal digits.
pub fn push_digits(octets: &[u8], out: &mut Vec<u8>) -> Result<(), NoMemory> {
    for octet in octets {
        for digit in [*octet / 16, *octet % 16] {
            out.push(if digit < 10 {
                b'0' + digit
            } else {
                b'a' + (digit - 10)
            })?;
        }
    }
    Ok(())
}

/// Writes `ADDR udp|tcp OCTETS` and the end of the line. It takes no memory but what `out` grows by.
pub fn push_query(
    server: &Addr,
    over: Over,
    query: &[u8],
    out: &mut Vec<u8>,
) -> Result<(), NoMemory> {
    push_addr(server, out)?;
    out.extend_from_slice(match over {
        Over::Udp => b" udp ".as_slice(),
        Over::Tcp => b" tcp ".as_slice(),
    })?;
    push_digits(query, out)?;
    out.push(b'\n')?;
    Ok(())
}
