//! What obeys the lines.

use std::alloc::{AllocError, Global};
use std::io::{Read, Write};
use streams::{
    CountedReader, CountedWriter, Ended, LONGEST_LINE, LineReply, Obeyer, ScriptFault, Text,
    run_lines,
};

/// Each line is told itself, and a comment nothing. It counts the lines, and ends at `stop`.
pub struct Echo;

fn ended(alloc: Global, line: &[u8]) -> Result<Vec<u8>, AllocError> {
    let mut out = Vec::from_slice(alloc, line)?;
    out.push(b'\n')?;
    Ok(out)
}

fn text_of(alloc: Global, line: &[u8]) -> Text {
    if line.starts_with(b"#".as_slice()) {
        return Text::Fixed(b"");
    }
    if line.len() > LONGEST_LINE {
        return Text::Fixed(b"too long\n");
    }
    match ended(alloc, line) {
        Ok(octets) => Text::Made(octets),
        Err(_) => Text::Fixed(b"no memory\n"),
    }
}

impl Obeyer<u64, ()> for Echo {
    ghost obeys = { λ _ _ _ _ _ _ _. Unit {0} };

    fn obey(alloc: Global, time: &mut u64, _desk: &mut (), line: &[u8]) -> LineReply {
        *time = time.wrapping_add(1);
        LineReply {
            text: text_of(alloc, line),
            stops: line == b"stop".as_slice(),
        }
    }
}

/// How the lines of a reader end, and how many were obeyed.
pub fn run<R: Read + Drop, W: Write + Drop>(
    alloc: Global,
    reader: R,
    writer: W,
) -> (Result<Ended, ScriptFault>, u64) {
    let mut lines = 0;
    let mut reader = CountedReader::new(reader);
    let mut writer = CountedWriter::new(writer);
    let end = run_lines::<u64, (), Echo, CountedReader<R>, CountedWriter<W>>(
        alloc,
        &mut lines,
        &mut (),
        &mut reader,
        &mut writer,
    );
    (end, lines)
}
