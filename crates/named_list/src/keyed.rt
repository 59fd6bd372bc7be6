//! A thing with its key in the index.

ghost use Rattle.std.specs.Prelude.{◌≡◌};

use crate::named::Named;
use dns_name::Name;
use dns_text::Shared;
use std::marker::Model;

/// A thing and its name. Contracts see the thing alone.
#[derive(Drop)]
pub struct Keyed<T: Named> {
    pub(crate) key: Name,
    pub(crate) thing: Shared<T>,
}

impl<T: Named> Model for Keyed<T> {
    ghost use Rattle.std.specs.Prelude.{◌≡◌};
    ghost use Rattle.dns_name.specs.Labels.{octets_of};

    ghost Value = { T };

    ghost view = { λ k. k.thing };

    ghost invariant = { λ k. octets_of k.key ≡ octets_of (T.named k.thing) };
}

impl<T: Named> Keyed<T> {
    /// The name of the thing.
    pub(crate) fn name(&self) -> &Name
        ensures { result.now ≡ T.named self.now }
    {
        self.thing.get().name()
    }
}
