//! A message is read and written again.

use crate::serve::serving::tell_octets;
use crate::stop::Stop;
use crate::words::octets_in;
use dns_wire::{decode, encode};
use std::io::Write;

/// Reads a message, and writes it again.
pub fn write_again(rt: &HostRuntime, digits: &[u8]) -> Result<(), Stop> {
    let octets = octets_in(rt.alloc(), digits)?;
    let Ok(message) = decode(rt.alloc(), octets.as_slice()) else {
        return Ok(rt.stdout().write_all(b"not read\n")?);
    };
    match encode(rt.alloc(), &message) {
        Ok(out) => tell_octets(rt, b"octets", out.as_slice()),
        Err(_) => Ok(rt.stdout().write_all(b"not written\n")?),
    }
}
