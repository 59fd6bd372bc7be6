//! A thing that has a name.

ghost use Rattle.std.specs.Prelude.{◌≡◌};
ghost use Rattle.dns_name.specs.Labels.{Labels};

use dns_name::Name;

/// A thing that has a name, by which a list finds it.
pub trait Named: Drop {
    /// Its name.
    ghost named: { Self → Labels };

    /// Its name.
    fn name(&self) -> &Name
        ensures { result.now ≡ named self.now };
}
