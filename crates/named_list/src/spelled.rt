//! A name that is sought by its octets.

ghost use Rattle.std.specs.Prelude.{◌≡◌};

use dns_name::Name;
use indexmap::Equivalent;
use std::hash::{Hash, Hasher};

/// The octets of a name that is sought. It is hashed as the name is, by one write, so a name above another needs no block of its own.
#[derive(Clone, Copy)]
pub(crate) struct Spelled<'a> {
    pub(crate) octets: &'a [u8],
}

impl<'a> PartialEq for Spelled<'a> {
    ghost use Rattle.named_list.specs.Spelled.{spelled_eq, spelled_per};

    ghost eq = { λ a b. spelled_eq a.octets.now b.octets.now };

    ghost laws = { spelled_per (λ s. s.octets.now) };

    fn eq(&self, other: &Spelled<'a>) -> bool {
        self.octets == other.octets
    }
}

impl<'a> Eq for Spelled<'a> {
    ghost use Rattle.named_list.specs.Spelled.{spelled_equiv};

    ghost laws = { spelled_equiv (λ s. s.octets.now) };
}

impl<'a> Hash for Spelled<'a> {
    ghost use Rattle.named_list.specs.Spelled.{hash_of, same_hash};

    ghost hash_input = { λ s. hash_of s.octets.now };

    ghost respects_eq = { λ a b. same_hash a.octets.now b.octets.now };

    fn hash<H: Hasher>(&self, state: &mut H) {
        state.write(self.octets)
    }
}

impl<'a> Equivalent<Name> for Spelled<'a> {
    ghost use Rattle.dns_name.specs.Labels.{octets_of};
    ghost use Rattle.named_list.specs.Spelled.{same_hash, same_test, spelled_eq};

    ghost equivalent = { λ s name. spelled_eq s.octets.now (octets_of name) };

    ghost respects_hash = { λ s name. same_hash s.octets.now (octets_of name) };

    ghost respects_eq = { λ s x y. same_test s.octets.now (octets_of x) (octets_of y) };

    fn equivalent(&self, key: &Name) -> bool {
        self.octets == key.octets()
    }
}
