//! Lines of standard input, obeyed one after another.
//!
//! Whoever obeys is borrowed here. A function that owned it would drop it on each early return, and the prover follows each such
//! drop field by field.

use crate::stop::Stop;
use crate::words::next_line;
use std::io::{BufRead, Input};

/// Whoever obeys lines.
pub trait Obeys {
    /// Does what a line says, and writes what becomes of it. It may read further lines.
    fn obey<I: BufRead>(
        &mut self,
        rt: &HostRuntime,
        input: &mut I,
        line: &[u8],
    ) -> Result<(), Stop>;
}

/// Obeys the next line; false at the end of the input.
fn obey_next<O: Obeys, I: BufRead>(
    rt: &HostRuntime,
    obeys: &mut O,
    input: &mut I,
    line: &mut Vec<u8>,
) -> Result<bool, Stop> {
    if !next_line(input, line)? {
        return Ok(false);
    }
    obeys.obey(rt, input, line.as_slice())?;
    Ok(true)
}

/// Obeys standard input to its end.
pub fn obey_input<O: Obeys>(rt: &HostRuntime, obeys: &mut O) -> Result<(), Stop> {
    let mut input = rt.reader();
    let mut line = Vec::new(rt.alloc());
    for _ in 0..u64::MAX {
        if !obey_next(rt, obeys, &mut input, &mut line)? {
            break;
        }
    }
    Ok(())
}
