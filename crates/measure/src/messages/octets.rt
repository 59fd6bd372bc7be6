//! The messages and the text that are measured.

use std::alloc::{AllocError, Global};

/// A query for `a.test.`, type A: 24 octets.
pub const QUERY: &[u8; 24] = b"\x12\x34\x01\0\0\x01\0\0\0\0\0\0\x01a\x04test\0\0\x01\0\x01";

/// The reply to it, with one address: 40 octets.
pub const REPLY: &[u8; 40] = b"\x12\x34\x81\x80\0\x01\0\x01\0\0\0\0\x01a\x04test\0\0\x01\0\x01\
\xc0\x0c\0\x01\0\x01\0\0\x0e\x10\0\x04\xc0\0\x02\x01";

/// A name as text.
pub const TEXT: &[u8; 15] = b"www.example.to.";

// A reply for `www.example.to.` with 30 addresses is this, and for each address a record.
const HEAD: &[u8; 32] =
    b"\x12\x34\x81\x80\0\x01\0\x1e\0\0\0\0\x03www\x07example\x02to\0\0\x01\0\x01";

const RECORD: &[u8; 15] = b"\xc0\x0c\0\x01\0\x01\0\0\x0e\x10\0\x04\xc0\0\x02";

/// These octets, as no compiler can know them: it cannot know that the count has fewer than 32 bits.
pub fn unknown(alloc: Global, octets: &[u8], count: u32) -> Result<Vec<u8>, AllocError> {
    let key = (count >> 31) as u8;
    let mut out = Vec::with_capacity(alloc, octets.len())?;
    for octet in octets {
        out.push(*octet ^ key)?;
    }
    Ok(out)
}

/// A reply with 30 addresses: 512 octets.
pub fn long_reply(alloc: Global) -> Result<Vec<u8>, AllocError> {
    let mut out = Vec::with_capacity(alloc, 512)?;
    out.extend_from_slice(HEAD)?;
    for last in 1..31u8 {
        out.extend_from_slice(RECORD)?;
        out.push(last)?;
    }
    Ok(out)
}
