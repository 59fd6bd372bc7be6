//! A name that is sought in the owners of many records.

ghost use Rattle.std.specs.Prelude.{◌≡◌, false};
ghost use Rattle.dns_name.specs.Below.{is_at_or_below};
ghost use Rattle.dns_name.specs.Labels.{Labels};
ghost use Rattle.local_zone.specs.Mask.{mask_of};

use crate::mask::bits_of;
use crate::tag::tag_of;
use dns_name::Name;
use std::marker::Model;

/// A name with its bits, which are made once for many records. Contracts see the name alone.
#[derive(Drop)]
pub(crate) struct Sought<'a> {
    name: &'a Name,
    bits: u64,
}

impl<'a> Model for Sought<'a> {
    ghost use Rattle.std.specs.Prelude.{◌≡◌};
    ghost use Rattle.dns_name.specs.Labels.{Labels};
    ghost use Rattle.local_zone.specs.Mask.{bits_of};
    ghost use Rattle.local_zone.specs.Tag.{tag_of};

    ghost Value = { Labels };

    ghost view = { λ s. s.name.now };

    ghost invariant = { λ s. s.bits ≡ bits_of (tag_of s.name.now) };
}

impl<'a> Sought<'a> {
    pub(crate) fn new(name: &'a Name) -> Sought<'a>
        ensures { result ≡ name.now }
    {
        let bits = bits_of(tag_of(name));
        Sought { name, bits }
    }

    pub(crate) fn name(&self) -> &'a Name
        ensures { result.now ≡ self.now }
    {
        self.name
    }

    /// Whether a name of this mask may lie at or below. Only if all bits are there, the name itself has to be read.
    pub(crate) fn may_cover(&self, mask: u64) -> bool
        ensures { result ≡ false → (owner : Labels) → mask ≡ mask_of owner → is_at_or_below owner self.now ≡ false }
    {
        mask & self.bits == self.bits
    }
}
