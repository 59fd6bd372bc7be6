//! Messages that are read and written: queries, replies of some records, long replies with compressed names, and awkward ones.

ghost use Rattle.std.specs.Prelude.{◌≡◌, ◌<◌};

use crate::digest::Digest;
use crate::draws::{below, draws_of};
use crate::queries::write_query;
use dns_name::Name;
use dns_text::types::{A, AAAA, CNAME, MX, TXT};
use dns_wire::{Asked, WireFault, decode, encode, read_question};
use rand_core::Rng;
use rand_pcg::Pcg32;
use std::alloc::{AllocError, Global};
use std::cmp::Ordering;

/// The letters from which labels are cut.
const LETTERS: &[u8; 128] =
    b"thequickbrownfoxjumpsoverthelazydogandpacksmyboxwithfivedozenliquorjugssphinxofblackquartzjudgemyvowhowvexinglyquickdaftzebrasju";

/// Writes a label of so many letters, preceded by its length.
fn push_label(out: &mut Vec<u8>, rng: &mut Pcg32, letters: u32) -> Result<(), AllocError> {
    let start = (rng.next_u32() % 64) as usize;
    let count = (letters % 64) as usize;
    let letters = LETTERS.as_slice();
    out.extend_from_slice(&[count as u8])?;
    out.extend_from_slice(&letters[start..start + count])
}

/// Writes the labels of a name: one in sixteen has as many labels as there may be, one in sixteen as long ones.
fn push_labels(out: &mut Vec<u8>, rng: &mut Pcg32) -> Result<(), AllocError> {
    match below(rng, 32) {
        0 => {
            for _ in 0..127 {
                push_label(out, rng, 1)?;
            }
        }
        1 => {
            for letters in [63u32, 63, 63, 61] {
                push_label(out, rng, letters)?;
            }
        }
        _ => {
            for _ in 0..2 + below(rng, 4) {
                let letters = 1 + below(rng, 12);
                push_label(out, rng, letters)?;
            }
        }
    }
    Ok(())
}

/// Writes the front of a record whose owner is a pointer: type, class, TTL and the length of its data.
fn push_front(out: &mut Vec<u8>, owner: usize, kind: u16, size: u16) -> Result<(), AllocError> {
    out.extend_from_slice(&[0xc0 | ((owner >> 8) % 64) as u8, (owner % 256) as u8])?;
    out.extend_from_slice(&kind.to_be_bytes())?;
    out.extend_from_slice(&[0, 1, 0, 0, 1, 44])?;
    out.extend_from_slice(&size.to_be_bytes())
}

/// Writes a record of one of five types about the name at a place.
fn push_record(out: &mut Vec<u8>, rng: &mut Pcg32, owner: usize) -> Result<(), AllocError> {
    let drawn = rng.next_u32().to_be_bytes();
    match below(rng, 8) {
        0 => {
            push_front(out, owner, AAAA, 16)?;
            out.extend_from_slice(&[0x20, 1, 0xd, 0xb8, 0, 0, 0, 0, 0, 0, 0, 0])?;
            out.extend_from_slice(&drawn)
        }
        1 => {
            push_front(out, owner, MX, 9)?;
            out.extend_from_slice(b"\0\x0a\x04mail\xc0\x0c")
        }
        2 => {
            push_front(out, owner, TXT, 9)?;
            out.extend_from_slice(b"\x08")?;
            out.extend_from_slice(&drawn)?;
            out.extend_from_slice(&drawn)
        }
        _ => {
            push_front(out, owner, A, 4)?;
            out.extend_from_slice(&drawn)
        }
    }
}

/// Writes a record whose owner is a new label below the name at a place, and returns where the owner is.
fn push_below(out: &mut Vec<u8>, rng: &mut Pcg32, zone: usize) -> Result<usize, AllocError> {
    let at = out.len();
    let letters = 1 + below(rng, 12);
    push_label(out, rng, letters)?;
    let drawn = rng.next_u32().to_be_bytes();
    push_front(out, zone, A, 4)?;
    out.extend_from_slice(&drawn)?;
    Ok(at)
}

/// Replaces what a buffer holds by the header and question of a reply with so many answers.
fn write_head(out: &mut Vec<u8>, rng: &mut Pcg32, answers: u32) -> Result<(), AllocError> {
    out.clear();
    let [high, low, _, _] = rng.next_u32().to_be_bytes();
    let [_, _, many, few] = answers.to_be_bytes();
    out.extend_from_slice(&[high, low, 0x81, 0x80, 0, 1, many, few, 0, 0, 0, 0])?;
    push_labels(out, rng)?;
    out.extend_from_slice(b"\0\0\x01\0\x01")
}

/// A reply with so many answers about the question's name.
fn write_reply(out: &mut Vec<u8>, rng: &mut Pcg32, answers: u32) -> Result<(), AllocError> {
    write_head(out, rng, answers)?;
    for _ in 0..answers {
        push_record(out, rng, 12)?;
    }
    Ok(())
}

/// A reply whose answers have owners of their own, each below an earlier one.
fn write_tree(out: &mut Vec<u8>, rng: &mut Pcg32, answers: u32) -> Result<(), AllocError> {
    write_head(out, rng, answers)?;
    let mut zone = 12usize;
    for turn in 0..answers {
        let at = push_below(out, rng, zone)?;
        zone = if turn % 8 == 7 || at > 16_000 { 12 } else { at };
    }
    Ok(())
}

/// A reply of aliases, each of which leads to the next, and whose owners are pointers to pointers.
fn write_chain(out: &mut Vec<u8>, rng: &mut Pcg32, answers: u32) -> Result<(), AllocError> {
    write_head(out, rng, answers)?;
    let mut owner = 12usize;
    for _ in 0..answers {
        let letters = 1 + below(rng, 8);
        push_front(out, owner, CNAME, (letters + 3) as u16)?;
        let at = out.len();
        push_label(out, rng, letters)?;
        out.extend_from_slice(b"\xc0\x0c")?;
        owner = if at > 16_000 { 12 } else { at };
    }
    Ok(())
}

/// Spoils a message: cuts it, or changes some of its octets.
fn spoil(out: &mut Vec<u8>, rng: &mut Pcg32) {
    if below(rng, 2) == 0 {
        let most = rng.next_u32() as usize % out.len().max(1);
        out.truncate(most);
        return;
    }
    for _ in 0..4 {
        let at = rng.next_u32() as usize % out.len().max(1);
        let octet = (rng.next_u32() % 256) as u8;
        if let Some(place) = out.get_mut(at) {
            *place = octet;
        }
    }
}

/// Replaces what a buffer holds by the next message.
fn write_message(
    out: &mut Vec<u8>,
    rng: &mut Pcg32,
    name: &mut Vec<u8>,
    size: u32,
) -> Result<(), AllocError> {
    match below(rng, 64) {
        0..=27 => {
            name.clear();
            push_labels(name, rng)?;
            write_query(out, rng, name.as_slice(), A)?;
        }
        28..=47 => {
            let answers = below(rng, 6);
            write_reply(out, rng, answers)?;
        }
        48..=55 => write_reply(out, rng, 28)?,
        56 | 57 => write_tree(out, rng, 24)?,
        58 => write_chain(out, rng, 16)?,
        59 => write_tree(out, rng, size)?,
        60 => write_reply(out, rng, size)?,
        _ => {
            write_reply(out, rng, 6)?;
            spoil(out, rng);
        }
    }
    Ok(())
}

/// A number for a fault.
fn fault_number(fault: WireFault) -> u64 {
    match fault {
        WireFault::Short => 1,
        WireFault::BadName { at } => (at as u64).wrapping_mul(8).wrapping_add(2),
        WireFault::BadPointer { at } => (at as u64).wrapping_mul(8).wrapping_add(3),
        WireFault::BadData { at } => (at as u64).wrapping_mul(8).wrapping_add(4),
        WireFault::Trailing => 5,
        WireFault::NoMemory => 6,
    }
}

/// Reads a message, and writes it again.
fn read_and_write(alloc: Global, digest: &mut Digest, octets: &[u8]) -> anyhow::Result<()> {
    match decode(alloc, octets) {
        Ok(message) => {
            let written = encode(alloc, &message)?;
            drop(message);
            digest.octets(written.as_slice());
        }
        Err(fault) => digest.number(fault_number(fault)),
    }
    Ok(())
}

/// Reads a message as a server reads a query, and returns the name that it asks for, if it asks for one.
fn read_query(alloc: Global, digest: &mut Digest, octets: &[u8]) -> anyhow::Result<Option<Name>> {
    match read_question(alloc, octets)? {
        Asked::Good(query) => {
            digest.number(u64::from(query.id));
            digest.number(u64::from(query.question.kind));
            digest.number(u64::from(query.rd));
            digest.octets(query.octets.as_slice());
            Ok(Some(query.question.owner.clone()?))
        }
        Asked::Fault(rcode) => {
            digest.number(4 + u64::from(rcode.number()));
            Ok(None)
        }
        Asked::Drop => {
            digest.number(3);
            Ok(None)
        }
    }
}

/// The text of a name, read again, and its order and place beside the name before.
fn compare_names(
    alloc: Global,
    digest: &mut Digest,
    before: &mut Name,
    owner: &Name,
) -> anyhow::Result<()> {
    let text = owner.to_text(alloc)?;
    let name = Name::from_text(alloc, text.as_slice())?;
    digest.octets(text.as_slice());
    digest.number(match name.cmp(before) {
        Ordering::Less => 1,
        Ordering::Equal => 2,
        Ordering::Greater => 3,
    });
    digest.number(u64::from(name.at_or_below(before)));
    *before = name;
    Ok(())
}

/// Reads and writes so many messages, and returns the digest of what came of them.
pub fn messages(alloc: Global, seed: u32, size: u32, count: u32) -> anyhow::Result<u64> {
    let mut digest = Digest::new();
    let mut rng = draws_of(seed, 12, 0);
    let mut out = Vec::new(alloc);
    let mut name = Vec::new(alloc);
    let mut before = Name::root(alloc);
    for _ in 0..count {
        write_message(&mut out, &mut rng, &mut name, size)?;
        read_and_write(alloc, &mut digest, out.as_slice())?;
        if let Some(owner) = read_query(alloc, &mut digest, out.as_slice())? {
            compare_names(alloc, &mut digest, &mut before, &owner)?;
        }
    }
    Ok(digest.sum())
}
