//! Errors that mean no file descriptors are left.

ghost use Rattle.std.specs.Prelude.{◌↔◌, IsTrue};
ghost use Rattle.system.specs.Descriptors.{LacksDescriptors};

use std::io;

/// The error of a process that has as many descriptors as it may have.
const EMFILE: i32 = 24;

/// The error of a system that has as many descriptors as it may have.
const ENFILE: i32 = 23;

/// Whether a call failed since no file descriptor was left.
pub fn lacks_descriptors(error: &io::Error) -> bool
    ensures { IsTrue result ↔ LacksDescriptors error.now }
{
    let code = error.raw_os_error();
    code == Some(EMFILE) || code == Some(ENFILE)
}
