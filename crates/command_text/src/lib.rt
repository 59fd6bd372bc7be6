//! Operators' lines: the command that each gives, its effect, and the reply to it.
#![tactic(auto)]

// The table of commands: word, form, and the channels that have it.
mod words;
// Faults of a line.
mod fault;
// Requests, and the events that they become.
mod request;
// Lines, read from their words.
mod line;
// Words that many commands have.
mod common_words;
// The find that an `admit` line admits.
mod admission_find;
// The words of `admit`.
mod admission_words;
// The negative answer that a `nodata` or `noname` line admits.
mod denial_find;
// The words of `nodata` and `noname`.
mod denial_words;
// Addresses of servers, each a word.
mod addrs;
// The words of the commands on stubs.
mod stubs;
// The words of the commands on local zones and local data.
mod local;
// The data of a set, separated by bars.
mod set_data;
// Commands, written as the lines that give them.
mod command_words;
// The text of local answers.
mod answers;
// The text of the lists of local zones, local data and stubs.
mod lists;
// The text of the servers of a name.
mod servers;
// The text of the commands that can be undone or redone.
mod journal;
// The text of a reply.
mod text;
// The effect of one script line.
mod obeying;
// Scripts.
mod script;
// The effect of one control line.
mod control_line;
// The control socket.
mod control;
// Laws of the definitions alone.
mod laws;

pub use admission_find::Admission;
pub use clock::Clock;
pub use command_words::push_command;
pub use control::serve_control;
pub use control_line::{obey_said, read_control};
pub use denial_find::Denial;
pub use fault::LineFault;
pub use laws::{bars_are, channels_are_apart, commands_are_read_back, words_are};
pub use line::{Line, read_line};
pub use request::Request;
pub use script::run_script;
pub use text::{answer_text, reply_text};
pub use words::{Channel, help_text};
