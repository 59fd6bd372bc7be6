//! Random octet strings.

use rand_core::Rng;
use rand_pcg::Pcg32;
use std::alloc::{AllocError, Global};

/// A query for `A.tEst.`, type A.
const QUERY: &[u8; 24] = b"\x12\x34\x01\0\0\x01\0\0\0\0\0\0\x01A\x04tEst\0\0\x01\0\x01";

/// A response for `a.test.`, whose records have each form.
const RESPONSE: &[u8; 206] = b"\x12\x34\x85\x80\0\x01\0\x04\0\x02\0\x03\
\x01a\x04test\0\0\xff\0\x01\
\xc0\x0c\0\x01\0\x01\0\0\0\x3c\0\x04\xc0\0\x02\x01\
\xc0\x0c\0\x1c\0\x01\x80\0\0\0\0\x10\x20\x01\x0d\xb8\0\0\0\0\0\0\0\0\0\0\0\x01\
\xc0\x0c\0\x0f\0\x01\0\0\0\x3c\0\x04\0\x0a\xc0\x0c\
\xc0\x0c\0\x10\0\x01\0\0\0\x3c\0\x07\x02ab\0\x02cd\
\xc0\x0e\0\x02\0\x01\0\0\0\x3c\0\x04\x01N\xc0\x0e\
\xc0\x0e\0\x06\0\x01\0\0\0\x3c\0\x1a\xc0\x0e\x01m\xc0\x0e\0\0\0\x01\0\0\0\x02\0\0\0\x03\0\0\0\x04\0\0\0\x05\
\xc0\x0c\0\x21\0\x01\0\0\0\x3c\0\x08\0\x01\0\x02\0\x35\xc0\x0c\
\xc0\x0c\0\x01\0\x03\0\0\0\x3c\0\x05\xc0\xff\x40\x41\x80\
\xc0\x0c\0\x23\0\x01\x7f\xff\xff\xff\0\0";

fn push_octets(rng: &mut Pcg32, out: &mut Vec<u8>, count: u32) -> Result<(), AllocError> {
    for _ in 0..count {
        out.push((rng.next_u32() % 256) as u8)?;
    }
    Ok(())
}

/// Changes one octet, cuts the end off, or puts octets after it.
fn change(rng: &mut Pcg32, out: &mut Vec<u8>) -> Result<(), AllocError> {
    let at = (rng.next_u32() % 300) as usize;
    let octet = (rng.next_u32() % 256) as u8;
    match rng.next_u32() % 16 {
        0 => out.truncate(at),
        1 => push_octets(rng, out, 3)?,
        2 => {
            if let Some(place) = out.get_mut(at) {
                *place = octet % 4 + 192;
            }
        }
        3 => {
            if let Some(place) = out.get_mut(at) {
                *place = octet % 64;
            }
        }
        _ => {
            if let Some(place) = out.get_mut(at) {
                *place = octet;
            }
        }
    }
    Ok(())
}

/// A valid message with up to three changes.
fn changed(rng: &mut Pcg32, out: &mut Vec<u8>) -> Result<(), AllocError> {
    if rng.next_u32() % 8 == 0 {
        out.extend_from_slice(QUERY)?;
    } else {
        out.extend_from_slice(RESPONSE)?;
    }
    for _ in 0..rng.next_u32() % 4 {
        change(rng, out)?;
    }
    Ok(())
}

/// A string of octets: any, or a valid message with changes.
pub fn drawn(rng: &mut Pcg32, alloc: Global) -> Result<Vec<u8>, AllocError> {
    let mut out = Vec::new(alloc);
    if rng.next_u32() % 2 == 0 {
        let count = rng.next_u32() % 601;
        push_octets(rng, &mut out, count)?;
    } else {
        changed(rng, &mut out)?;
    }
    Ok(out)
}
