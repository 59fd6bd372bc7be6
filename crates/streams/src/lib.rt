//! Readers and writers that count their calls, and the engine that obeys the lines of an input and writes the replies.
#![tactic(auto)]

// Readers, with counts of calls and failures.
mod source;
// Writers, with counts of failures.
mod sink;
// Writing a whole text.
mod sending;
// Filling a buffer.
mod filling;
// The octets so far of a line that has not ended.
mod held_line;
// The reply to a line.
mod text;
// The trait that obeys one line.
mod obeyer;
// Ends and faults of a run.
mod fault;
// The engine: it reads lines, obeys them and writes the replies.
mod engine;
// Laws of the definitions: the lines of an input are what one expects.
mod laws;

pub use engine::{MOST_READS, run_lines};
pub use fault::{Ended, ScriptFault};
pub use filling::fill;
pub use held_line::{HeldLine, LONGEST_LINE};
pub use laws::{limits_law, lines_are};
pub use obeyer::{LineReply, Obeyer};
pub use sending::send;
pub use sink::{CountedWriter, Sink, WriteFailed};
pub use source::{CountedReader, MOST_COUNTED, ReadFailed, Source};
pub use text::Text;
