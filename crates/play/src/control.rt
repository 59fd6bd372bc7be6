//! Control over standard input and output: at a book, or with the word `behind` at a desk that is behind. The clock is a second
//! later at each reading, and begins at 7.
//!
//! The status says how control ended: 0 at the end of the input, 1 if a read failed, 2 if a write failed, 4 at `stop`.

pub mod behind; // a desk that is behind
pub mod seconds; // a clock that is a second later at each reading

use crate::books::{CELLS, DNS_PORT, book_with};
use crate::control::behind::Late;
use crate::control::seconds::Seconds;
use crate::stop::Stop;
use command_text::serve_control;
use history::Desk;
use streams::{CountedReader, CountedWriter, Ended, ScriptFault};

fn serve<D: Desk>(rt: &HostRuntime, desk: &mut D) -> u8 {
    let mut clock = Seconds::from(7);
    let mut reader = CountedReader::new(rt.stdin());
    let mut writer = CountedWriter::new(rt.stdout());
    match serve_control(rt.alloc(), desk, &mut clock, &mut reader, &mut writer) {
        Ok(Ended::EndOfInput) => 0,
        Ok(Ended::Stop) => 4,
        Err(ScriptFault::Read) => 1,
        Err(ScriptFault::Write) => 2,
    }
}

/// Serves control at the desk that the words name, and gives the status that says how it ended.
pub fn play_control(rt: &HostRuntime, words: &[String]) -> Result<u8, Stop> {
    if !words.is_empty() {
        return Ok(serve(rt, &mut Late));
    }
    let mut book = book_with(rt.alloc(), Vec::new(rt.alloc()), DNS_PORT, CELLS)?;
    let status = serve(rt, &mut book);
    drop(book);
    Ok(status)
}
