//! The mask of a name: a set of 64 bits. It spares most reads of owners that do not lie below another name.

ghost use Rattle.std.specs.Prelude.{◌≡◌};
ghost use Rattle.local_zone.specs.Mask.{bits_of, mask_of};

use crate::tag::tag_in;
use dns_name::Name;

/// Two of 64 bits, by a tag.
pub(crate) fn bits_of(tag: u32) -> u64
    ensures { result ≡ bits_of tag }
{
    (1 << (tag % 64)) | (1 << (tag / 64 % 64))
}

/// The mask of a name. That of a name below it has all its bits, and more.
pub(crate) fn mask_of(name: &Name) -> u64
    ensures { result ≡ mask_of name.now }
{
    let mut octets = name.octets();
    let mut labels = name.labels();
    let mut mask = 0;
    loop {
        mask |= bits_of(tag_in(octets));
        let Some(label) = labels.next() else {
            return mask;
        };
        let end = octets.len() - label.len() - 1;
        octets = &octets[..end];
    }
}
