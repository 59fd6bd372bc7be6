//! The arguments of a call.

use crate::fault::CallFault;
use dns_text::next_word;
use hex::FromHexError;
use std::alloc::{AllocError, Global};

/// The octets of a word of hexadecimal digits; `-` is none.
fn octets_in(alloc: Global, digits: &[u8]) -> Result<Vec<u8>, CallFault> {
    if digits == b"-".as_slice() {
        return Ok(Vec::new(alloc));
    }
    match hex::decode(alloc, digits) {
        Ok(octets) => Ok(octets),
        Err(FromHexError::OutOfMemory) => Err(CallFault::NoMemory(AllocError)),
        Err(_) => Err(CallFault::NoCall),
    }
}

/// The arguments in a text, each a word.
pub fn arguments_in(alloc: Global, text: &[u8]) -> Result<Vec<Vec<u8>>, CallFault> {
    let mut arguments = Vec::new(alloc);
    let mut rest = text;
    while let Some((word, behind)) = next_word(rest) {
        arguments.push(octets_in(alloc, word)?)?;
        rest = behind;
    }
    Ok(arguments)
}
