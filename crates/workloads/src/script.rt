//! The lines of a script: admissions and lookups, a command in fifty lines, a bad line in a hundred.

ghost use Rattle.std.specs.Prelude.{◌<◌, ◌≤◌};

use crate::digest::Digest;
use crate::draws::{below, draws_of, skewed};
use crate::names::{push_domain, push_name};
use crate::streams_in_memory::{Lines, Told};
use anyhow::anyhow;
use command_text::run_script;
use dns_text::Items;
use history::{Book, MOST_CELLS, Settings};
use rand_core::Rng;
use rand_pcg::Pcg32;
use std::alloc::Global;
use undo_book::ShelfBook;

const TTLS: [&str; 8] = ["30", "60", "60", "300", "300", "3600", "3600", "86400"];

const BAD: [&[u8]; 4] = [
    b"frob\n",
    b"look a..b A\n",
    b"admit 4 a. 0 A 192.0.2.1\n",
    b"flush_type a.test.\n",
];

/// Writes a line that admits a set or a negative answer.
fn push_admission(out: &mut Vec<u8>, rng: &mut Pcg32, seed: u32, name: u32) -> anyhow::Result<()> {
    let ttl = TTLS[(rng.next_u32() % 8) as usize];
    let [rank, b, c, d] = rng.next_u32().to_be_bytes();
    let alloc = *out.allocator();
    if rank >= 230 {
        out.extend_from_slice(b"noname ")?;
        push_name(out, seed, name)?;
        let rest = format!(in alloc;
            " {ttl} example. ns.example. host.example. 7 3600 900 604800 300\n"
        )?;
        return Ok(out.extend_from_slice(rest.as_str().as_bytes())?);
    }
    let start = format!(in alloc; "admit {} ", 1 + rank % 4)?;
    out.extend_from_slice(start.as_str().as_bytes())?;
    push_name(out, seed, name)?;
    let rest = if rank % 8 == 0 {
        format!(in alloc; " {ttl} AAAA 2001:db8::{b:x} | 2001:db8:{c:x}::{d:x}\n")?
    } else {
        format!(in alloc; " {ttl} A 192.{b}.{c}.{d} | 198.51.{c}.{d}\n")?
    };
    Ok(out.extend_from_slice(rest.as_str().as_bytes())?)
}

/// Writes a command.
fn push_command(out: &mut Vec<u8>, rng: &mut Pcg32, seed: u32, name: u32) -> anyhow::Result<()> {
    match below(rng, 10) {
        0 | 1 => {
            out.extend_from_slice(b"flush_zone ")?;
            push_domain(out, seed, name / 4)?;
        }
        2 => {
            out.extend_from_slice(b"flush ")?;
            push_name(out, seed, name)?;
        }
        3 => {
            out.extend_from_slice(b"flush_type ")?;
            push_name(out, seed, name)?;
            out.extend_from_slice(b" A")?;
        }
        4 => out.extend_from_slice(b"flush_zone com.")?,
        5 | 6 => out.extend_from_slice(b"undo")?,
        7 => out.extend_from_slice(b"redo")?,
        8 => out.extend_from_slice(b"sweep")?,
        _ => out.extend_from_slice(b"list_commands")?,
    }
    out.push(b'\n')?;
    Ok(())
}

/// Writes a lookup. Some are for a type that is not there.
fn push_look(out: &mut Vec<u8>, rng: &mut Pcg32, seed: u32, name: u32) -> anyhow::Result<()> {
    out.extend_from_slice(b"look ")?;
    push_name(out, seed, name)?;
    let kind: &[u8] = if below(rng, 5) == 0 {
        b" AAAA\n"
    } else {
        b" A\n"
    };
    Ok(out.extend_from_slice(kind)?)
}

/// So many lines about so many names.
fn lines_of(alloc: Global, seed: u32, names: u32, count: u32) -> anyhow::Result<Vec<u8>>
    requires { 0 < names }
{
    let mut out = Vec::new(alloc);
    let mut rng = draws_of(seed, 11, 0);
    for line in 0..count {
        let drawn = below(&mut rng, 100);
        let name = skewed(&mut rng, names);
        if line % 100 == 99 {
            let at = format!(in alloc; "at {}\n", line / 50)?;
            out.extend_from_slice(at.as_str().as_bytes())?;
        } else if drawn == 0 {
            out.extend_from_slice(BAD[(rng.next_u32() % 4) as usize])?;
        } else if drawn < 3 {
            push_command(&mut out, &mut rng, seed, name)?;
        } else if drawn < 50 {
            push_admission(&mut out, &mut rng, seed, name)?;
        } else {
            push_look(&mut out, &mut rng, seed, name)?;
        }
    }
    Ok(out)
}

/// Obeys lines at a book, and returns the digest of the replies.
fn obey_at<B: Book>(alloc: Global, mut book: B, lines: &[u8]) -> anyhow::Result<u64> {
    let mut reader = Lines::new(lines);
    let mut told = Told {
        digest: Digest::new(),
    };
    match run_script(alloc, &mut book, &mut reader, &mut told) {
        Ok(()) => Ok(told.digest.sum()),
        Err(_) => Err(anyhow!("a line was not read or told")),
    }
}

/// Obeys a script of so many lines about so many names, and returns the digest of the replies.
pub fn obey_script(alloc: Global, seed: u32, names: u32, count: u32) -> anyhow::Result<u64> {
    if names == 0 {
        return Ok(0);
    }
    let lines = lines_of(alloc, seed, names, count)?;
    let settings = Settings {
        journal: 64,
        cells: MOST_CELLS,
        hints: Items::new(Vec::new(alloc)),
        server_port: 53,
    };
    obey_at(alloc, ShelfBook::new(alloc, settings)?, lines.as_slice())
}
