//! Messages over TCP, each preceded by its length in two octets (RFC 1035, section 4.2.2).

ghost use Rattle.std.specs.Prelude.{◌≡◌, [], ◌∷◌, ◌++◌, ◌+◌, ◌^◌, ◌<◌, ◌≤◌, ◌↔◌, length, vec_len, IfOk, OnOk};
ghost use Rattle.streams.specs.declared.source.TheConstants.{MOST_COUNTED};
ghost use Rattle.replies.specs.declared.limits.TheConstants.{MOST_MESSAGE};
ghost use Rattle.replies.specs.Framing.{length_octets, framed, SizeCame, BodyCame, MessageCame, CountsRead};
ghost use Rattle.replies.specs.Wanting.{framed_size, octets_wanting, IsWholeFrame};

use crate::fault::StreamFault;
use dns_name::NoMemory;
use dns_text::Octets;
use std::alloc::Global;
use streams::{Source, fill};

/// The length that two octets spell, the high one first.
pub fn size_of(high: u8, low: u8) -> usize
    ensures spelled { length_octets result ≡ high ∷ low ∷ [] }
    ensures range { result < 2 ^ 16 }
{
    usize::from(high) * 256 + usize::from(low)
}

/// The two octets that spell a length, the high one first.
pub fn size_octets(size: usize) -> [u8; 2]
    requires { size ≤ MOST_MESSAGE }
    ensures { result ≡ length_octets size }
{
    [(size / 256) as u8, (size % 256) as u8]
}

/// The length of the next message, or None at the end of the input.
fn take_size<S: Source>(reader: &mut S, left: &mut u64) -> Result<Option<usize>, StreamFault>
    requires { S.calls reader.old + left.old ≤ MOST_COUNTED }
    ensures came { SizeCame result (S.remaining reader.old) (S.remaining reader.new) }
    ensures calls { S.calls reader.new + left.new ≡ S.calls reader.old + left.old }
    ensures no_more { left.new ≤ left.old }
    ensures falls { OnOk result (left.new < left.old) }
    ensures failures { CountsRead result left.new (S.failures reader.old) (S.failures reader.new) }
{
    let mut octets = [0u8; 2];
    let came = fill(reader, left, &mut octets)?;
    if came == 0 {
        return Ok(None);
    }
    if came == 1 {
        return Err(StreamFault::Short);
    }
    let [high, low] = octets;
    Ok(Some(size_of(high, low)))
}

/// The next message, of so many octets.
fn take_body<S: Source>(
    alloc: Global,
    reader: &mut S,
    left: &mut u64,
    size: usize,
) -> Result<Octets, StreamFault>
    requires { S.calls reader.old + left.old ≤ MOST_COUNTED }
    ensures came { BodyCame result size (S.remaining reader.old) (S.remaining reader.new) }
    ensures calls { S.calls reader.new + left.new ≡ S.calls reader.old + left.old }
    ensures no_more { left.new ≤ left.old }
    ensures failures { CountsRead result left.new (S.failures reader.old) (S.failures reader.new) }
{
    let mut body = vec![in alloc; 0u8; size]?;
    let came = fill(reader, left, &mut body)?;
    if came < size {
        return Err(StreamFault::Short);
    }
    Ok(Octets::new(body))
}

/// The next message, or None at the end of the input. `left` counts the reads that remain, and falls with each.
// A `BegunMessage` would take memory as octets come. This has all of it before it reads the message's first octet, so `NoMemory` leaves
// the reader right behind the length.
pub fn take_message<S: Source>(
    alloc: Global,
    reader: &mut S,
    left: &mut u64,
) -> Result<Option<Octets>, StreamFault>
    requires { S.calls reader.old + left.old ≤ MOST_COUNTED }
    ensures came { MessageCame result (S.remaining reader.old) (S.remaining reader.new) }
    ensures calls { S.calls reader.new + left.new ≡ S.calls reader.old + left.old }
    ensures falls { OnOk result (left.new < left.old) }
    ensures failures { CountsRead result left.new (S.failures reader.old) (S.failures reader.new) }
{
    match take_size(reader, left)? {
        None => Ok(None),
        Some(size) => match take_body(alloc, reader, left, size) {
            Ok(body) => Ok(Some(body)),
            Err(fault) => Err(fault),
        },
    }
}

/// Appends a message preceded by its length. After an error some of its octets may be there.
pub fn append_framed(out: &mut Vec<u8>, message: &[u8]) -> Result<(), NoMemory>
    requires { length message.now ≤ MOST_MESSAGE }
    ensures appended { OnOk result (out.new.items ≡ out.old.items ++ framed message.now) }
    ensures no_less { vec_len out.old ≤ vec_len out.new }
{
    let [high, low] = size_octets(message.len());
    out.push(high)?;
    out.push(low)?;
    out.extend_from_slice(message)?;
    Ok(())
}

/// A message preceded by its length, as it goes out over TCP.
pub fn frame(alloc: Global, message: &[u8]) -> Result<Vec<u8>, NoMemory>
    requires { length message.now ≤ MOST_MESSAGE }
    ensures { IfOk result (λ out. out.items ≡ framed message.now) }
{
    let mut out = Vec::with_capacity(alloc, message.len() + 2)?;
    append_framed(&mut out, message)?;
    Ok(out)
}

/// The number of octets that a message preceded by its length still lacks, if these came of it.
pub fn octets_wanting(came: &[u8]) -> usize
    ensures wanting { result ≡ octets_wanting came.now }
    ensures none { length came.now ≤ framed_size came.now → ((result ≡ 0) ↔ IsWholeFrame came.now) }
{
    match came {
        [] => 2,
        [_] => 1,
        [high, low, message @ ..] => size_of(*high, *low).saturating_sub(message.len()),
    }
}
