//! The way back that a change leaves.

ghost use Rattle.std.specs.Prelude.{◌≡◌, ℕ, length};
ghost use Rattle.dns_name.specs.Labels.{octets_of};
ghost use Rattle.named_list.specs.Turn.{name_in, puts_in};
ghost use Rattle.std.specs.Option.{option_map};

use crate::keyed::Keyed;
use crate::named::Named;
use dns_name::Name;
use dns_text::Shared;

/// The difference between a list and the one on the other side of a change.
#[derive(Drop)]
pub enum Turn<T: Named> {
    /// Both are equal.
    Nothing,
    /// The other list has another thing of the same name at this place.
    Other { place: usize, thing: Shared<T> },
    /// The other list lacks the thing at this place.
    Without { place: usize },
    /// The other list has one more thing, at this place.
    With { place: usize, thing: Keyed<T> },
}

impl<T: Named> Turn<T> {
    /// Whether the step to the other side puts a thing in, so that it may need memory.
    pub fn puts_in(&self) -> bool
        ensures { result ≡ puts_in self.now }
    {
        matches!(self, Turn::With { .. })
    }

    /// The name of the thing that the step to the other side puts in, if it puts one in.
    pub fn name_in(&self) -> Option<&Name>
        ensures { option_map (λ name. name.now) result ≡ name_in T.named self.now }
    {
        match self {
            Turn::With { thing, .. } => Some(thing.name()),
            _ => None,
        }
    }

    /// How many octets the name of the thing has that the step to the other side puts in, if it puts one in.
    pub(crate) fn octets_in(&self) -> usize
        ensures { (place : ℕ) (thing : T) → self.now ≡ Turn.With place thing → result ≡ length (octets_of (T.named thing)) }
    {
        match self {
            Turn::With { thing, .. } => thing.key.octets().len(),
            _ => usize::MAX,
        }
    }
}
