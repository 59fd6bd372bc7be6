//! Arguments of `resolver`: run a script, run a service, or send lines to one.
#![tactic(auto)]

// Why arguments are rejected.
mod fault;
// The mode of the program: run a script, run a service, or send lines to one.
mod mode;
// The commands of the program, as help shows them.
mod options;
// Addresses that words of the command line write.
mod address;
// Ranges of addresses that words of the command line write.
mod range;
// The mode that the arguments give.
mod args;
// Laws of two command lines, and the numbers of the options.
mod laws;

pub use args::read_args;
pub use fault::{ArgsFault, BadArgument};
pub use laws::{defaults_law, given_law, limits_law};
pub use mode::{MOST_WORKERS, Mode, Service};
pub use options::VERSION;
