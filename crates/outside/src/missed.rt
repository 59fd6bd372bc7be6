//! The names that a server left unanswered since its last answer.

ghost use Rattle.std.specs.Prelude.{◌≡◌, ◌↔◌, IsTrue};

use dns_name::Name;

/// The different names that a server left unanswered since its last answer. From three on it does not matter which.
#[derive(Drop)]
pub enum Missed {
    Zero,
    One(Name),
    Two(Name, Name),
    Many,
}

impl Missed {
    ghost use Rattle.outside.specs.declared.missed.Missed.TheVariants.{Zero, Many};
    ghost use Rattle.outside.specs.Silences.{missed_with};

    /// These names, and one more if it is not among them.
    pub fn with(self, name: Name) -> Missed
        ensures { result ≡ missed_with self name }
    {
        match self {
            Missed::Zero => Missed::One(name),
            Missed::One(first) => {
                if first == name {
                    return Missed::One(first);
                }
                Missed::Two(first, name)
            }
            Missed::Two(first, second) => {
                if first == name || second == name {
                    return Missed::Two(first, second);
                }
                Missed::Many
            }
            Missed::Many => Missed::Many,
        }
    }

    /// Whether there are none.
    pub fn are_none(&self) -> bool
        ensures { IsTrue result ↔ (self.now ≡ Zero) }
    {
        match self {
            Missed::Zero => true,
            _ => false,
        }
    }

    /// Whether there are three or more.
    pub fn are_many(&self) -> bool
        ensures { IsTrue result ↔ (self.now ≡ Many) }
    {
        match self {
            Missed::Many => true,
            _ => false,
        }
    }
}
