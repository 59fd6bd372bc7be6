//! Listeners, at which connections come in.

ghost use Rattle.std.specs.Prelude.{◌≡◌, ℕ, Option, Result, IfOk, IfSome};
ghost use Rattle.system.specs.declared.device.DeviceFault.{DeviceFault};
ghost use Rattle.system.specs.Counts.{CountsFault};

use streams::{Sink, Source};
use system::DeviceFault;

/// A socket at which connections come in: each gives a reader and a writer.
pub trait Listener<S: Source, W: Sink> {
    /// One call: the listener before, the connection, None or the fault, the listener after.
    ghost accepts: { Self → Result (Option (S × W)) DeviceFault → Self → Type 0 };

    /// The count of calls that failed, up to 2^64 - 1.
    ghost failures: { Self → ℕ };

    /// The next connection, or None once the listener has ended.
    fn accept(&mut self) -> Result<Option<(S, W)>, DeviceFault>
        ensures accepted { accepts self.old result self.new }
        ensures fresh { IfOk result (λ came. IfSome came (λ c. (S.calls c.0 ≡ 0) × (W.failures c.1 ≡ 0))) }
        ensures counted { CountsFault result (failures self.old) (failures self.new) };
}
