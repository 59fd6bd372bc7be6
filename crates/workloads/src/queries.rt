//! Queries as octets.

use rand_core::Rng;
use rand_pcg::Pcg32;
use std::alloc::AllocError;

/// The OPT record of a query with EDNS (RFC 6891, section 6.1.2), for datagrams of 1,232 octets.
const EDNS: &[u8; 11] = b"\0\0\x29\x04\xd0\0\0\0\0\0\0";

/// An octet of a name, which is a capital if its bit is set.
fn in_case(octet: u8, bit: u32) -> u8 {
    if bit % 2 == 1 {
        octet.to_ascii_uppercase()
    } else {
        octet
    }
}

/// Writes the labels of a name in mixed case. Lengths are no letters, since a label has at most 63 octets.
fn push_mixed(out: &mut Vec<u8>, rng: &mut Pcg32, spelled: &[u8]) -> Result<(), AllocError> {
    let mut bits = rng.next_u32();
    for octet in spelled {
        out.push(in_case(*octet, bits))?;
        bits = bits.rotate_right(1);
    }
    out.push(0).map_err(|fault| {
        drop(fault);
        AllocError
    })
}

/// Replaces what a buffer holds by a query for a name and type, with a drawn identifier and case, and EDNS in one of two.
pub fn write_query(
    out: &mut Vec<u8>,
    rng: &mut Pcg32,
    spelled: &[u8],
    kind: u16,
) -> Result<(), AllocError> {
    out.clear();
    let [high, low, edns, _] = rng.next_u32().to_be_bytes();
    let more = edns % 2;
    out.extend_from_slice(&[high, low, 1, 0, 0, 1, 0, 0, 0, 0, 0, more])?;
    push_mixed(out, rng, spelled)?;
    out.extend_from_slice(&kind.to_be_bytes())?;
    out.extend_from_slice(&[0, 1])?;
    if more == 1 {
        out.extend_from_slice(EDNS)?;
    }
    Ok(())
}
