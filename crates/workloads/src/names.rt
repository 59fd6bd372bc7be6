//! Made-up names of two to five labels. Four names share a domain.

use crate::draws::draws_of;
use rand_core::Rng;
use rand_pcg::Pcg32;
use std::alloc::AllocError;

const SYLLABLES: [&[u8]; 16] = [
    b"ka", b"ro", b"mi", b"te", b"lun", b"sa", b"ne", b"por", b"vi", b"da", b"ri", b"mo", b"ta",
    b"be", b"fu", b"gal",
];

const HOSTS: [&[u8]; 8] = [
    b"mail", b"api", b"img", b"static", b"m", b"shop", b"login", b"cdn",
];

const TOPS: [&[u8]; 8] = [
    b"com", b"net", b"org", b"de", b"co.uk", b"example", b"io", b"info",
];

const LETTERS: &[u8; 32] = b"abcdefghijklmnopqrstuvwxyz234567";

/// Writes a number below 2^20 in four letters, and of a greater one the last twenty bits.
pub fn push_letters(out: &mut Vec<u8>, number: u32) -> Result<(), AllocError> {
    for shift in [15u32, 10, 5, 0] {
        out.push(LETTERS[((number >> shift) % 32) as usize])?;
    }
    Ok(())
}

fn push_syllables(out: &mut Vec<u8>, rng: &mut Pcg32) -> Result<(), AllocError> {
    for _ in 0..1 + rng.next_u32() % 4 {
        out.extend_from_slice(SYLLABLES[(rng.next_u32() % 16) as usize])?;
    }
    Ok(())
}

/// Writes the labels of a host before its domain, each with the dot after it: none, `www`, one or two others.
fn push_host(out: &mut Vec<u8>, rng: &mut Pcg32, host: u32) -> Result<(), AllocError> {
    match host {
        0 => Ok(()),
        1 => out.extend_from_slice(b"www."),
        2 => {
            out.extend_from_slice(HOSTS[(rng.next_u32() % 8) as usize])?;
            out.extend_from_slice(b".")
        }
        _ => {
            push_syllables(out, rng)?;
            out.extend_from_slice(b".eu.")
        }
    }
}

/// Writes a domain and the zone above it.
pub fn push_domain(out: &mut Vec<u8>, seed: u32, domain: u32) -> Result<(), AllocError> {
    let mut rng = draws_of(seed, 1, domain);
    push_syllables(out, &mut rng)?;
    push_letters(out, domain)?;
    out.push(b'.')?;
    out.extend_from_slice(TOPS[(rng.next_u32() % 8) as usize])
}

/// Writes the text of a name by its number.
pub fn push_name(out: &mut Vec<u8>, seed: u32, number: u32) -> Result<(), AllocError> {
    let mut rng = draws_of(seed, 2, number);
    push_host(out, &mut rng, number % 4)?;
    push_domain(out, seed, number / 4)
}
