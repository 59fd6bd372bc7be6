//! Faults of the arguments.

ghost use Rattle.std.specs.Prelude.{◌≡◌};
ghost use Rattle.resolver_args.specs.declared.fault.ArgsFault.TheVariants.{NoMemory};

use std::alloc::AllocError;

/// An argument that is bad, as it is shown on the command line, and why.
#[derive(Debug, Drop, thiserror::Error)]
pub enum BadArgument {
    /// The word is no address: what comes before its `@` is no IP address. Names are none either.
    #[error("{name} {word}: not an IP address; the form is IP@PORT, or IP for port 53")]
    NotIp { name: &'static str, word: String },
    /// The word is no address, though what comes before its `@` is an IP address.
    #[error("{name} {word}: the port is not a number from 1 to 65535")]
    NotPort { name: &'static str, word: String },
    /// The word is no range of addresses: its address is no IP address, or its number of bits is bad.
    #[error("{name} {word}: not a range of addresses; the form is IP/BITS, or IP for one address; the most bits are 32, for IPv6 128")]
    NotRange { name: &'static str, word: String },
    /// A service has no root server to ask.
    #[error("HINT: missing; a service needs the address of a root server")]
    NoHint,
    /// There are this many hints, more than `MOST_HINTS`.
    #[error("HINT: {0} addresses; the most are 16")]
    ManyHints(usize),
    /// There are more than `MOST_WORKERS` workers.
    #[error("--udp {udp} and --tcp {tcp}: too many workers; the most are 16 together")]
    ManyWorkers { udp: u8, tcp: u8 },
    /// An option or a command is missing, or its number is out of its range. `clap` rejects such arguments before.
    #[error("{0}: missing, or out of its range")]
    Unfit(&'static str),
}

/// Why the arguments are rejected.
#[derive(Debug, Drop, thiserror::Error)]
pub enum ArgsFault {
    /// There was no memory to read the arguments.
    #[error("no memory")]
    NoMemory,
    /// The lines that `clap` writes: its error, or the help or version that was asked for.
    #[error("{0}")]
    Usage(String),
    /// An argument is bad, for this reason.
    #[error("bad arguments")]
    BadArguments(BadArgument),
    /// The control address is not loopback, so other machines could give commands.
    #[error("control must be loopback")]
    NotLoopback,
}

impl From<AllocError> for ArgsFault {
    ghost from_gives = { λ _ fault. fault ≡ NoMemory };

    fn from(_: AllocError) -> ArgsFault {
        ArgsFault::NoMemory
    }
}
