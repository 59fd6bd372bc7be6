//! Why the program ends.

ghost use Rattle.std.specs.Prelude.{◌≡◌};
ghost use Rattle.play.specs.declared.stop.Stop.TheVariants.{Device, NoMemory as NoMemoryStop};

use dns_name::NoMemory;
use std::alloc::AllocFailed;
use std::io;

/// Why the program ends before its input does.
#[derive(Clone, Copy, PartialEq, Eq)]
pub enum Stop {
    /// A read or a write failed, or a line is none that there is.
    Device,
    NoMemory,
}

impl From<NoMemory> for Stop {
    ghost from_gives = { λ _ stop. stop ≡ NoMemoryStop };

    fn from(_: NoMemory) -> Stop {
        Stop::NoMemory
    }
}

impl From<io::Error> for Stop {
    ghost from_gives = { λ _ stop. stop ≡ Device };

    fn from(_: io::Error) -> Stop {
        Stop::Device
    }
}

impl<T: Drop> From<AllocFailed<T>> for Stop {
    ghost from_gives = { λ _ stop. stop ≡ NoMemoryStop };

    fn from(_: AllocFailed<T>) -> Stop {
        Stop::NoMemory
    }
}
