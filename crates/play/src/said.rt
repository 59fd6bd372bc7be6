//! What a line says that comes of a query to a name server.
//!
//! | Line | What comes |
//! |---|---|
//! | `came OCTETS` | a message, in hexadecimal digits; the identifier of the query is added to its own |
//! | `asked OCTETS` | the same with the question of the query put in after the header |
//! | `nothing` | nothing yet |
//! | `failed`, `broken` | nothing at all |
//! | `no_memory` | something for which there is no memory |

use crate::stop::Stop;
use crate::words::octets_in;
use dns_name::NoMemory;
use dns_text::Octets;
use std::alloc::Global;

/// What comes of a query.
#[derive(Drop)]
pub enum Said {
    Message(Vec<u8>),
    Response(Vec<u8>),
    Nothing,
    Broken,
    NoMemory,
}

/// What a line says that comes of a query. None if it says something else.
pub fn said_in(alloc: Global, line: &[u8]) -> Result<Option<Said>, Stop> {
    if let Some(digits) = line.strip_prefix(b"came ") {
        return Ok(Some(Said::Message(octets_in(alloc, digits)?)));
    }
    if let Some(digits) = line.strip_prefix(b"asked ") {
        return Ok(Some(Said::Response(octets_in(alloc, digits)?)));
    }
    match line {
        b"nothing" => Ok(Some(Said::Nothing)),
        b"failed" | b"broken" => Ok(Some(Said::Broken)),
        b"no_memory" => Ok(Some(Said::NoMemory)),
        _ => Ok(None),
    }
}

/// Adds the identifier of a query to that of a message, octet by octet.
fn with_id(mut octets: Vec<u8>, query: &[u8]) -> Octets {
    for i in 0..2 {
        if i < octets.len() && i < query.len() {
            octets[i] = octets[i].wrapping_add(query[i]);
        }
    }
    Octets::new(octets)
}

/// A message with the question of a query after its header.
fn with_question(alloc: Global, octets: &[u8], query: &[u8]) -> Result<Vec<u8>, NoMemory> {
    let (header, rest) = octets.split_at(octets.len().min(12));
    let mut whole = Vec::from_slice(alloc, header)?;
    whole.extend_from_slice(query.get(12..).unwrap_or(&[]))?;
    whole.extend_from_slice(rest)?;
    Ok(whole)
}

impl Said {
    /// The octets that come of this query. None if no message does.
    pub fn octets(&self, alloc: Global, query: &[u8]) -> Result<Option<Octets>, NoMemory> {
        match self {
            Said::Message(octets) => Ok(Some(with_id(Vec::from_slice(alloc, octets)?, query))),
            Said::Response(octets) => Ok(Some(with_id(
                with_question(alloc, octets, query)?,
                query,
            ))),
            Said::Nothing | Said::Broken => Ok(None),
            Said::NoMemory => Err(NoMemory),
        }
    }
}
