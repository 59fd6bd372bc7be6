//! A flush: the cache cells that one command empties.

ghost use Rattle.std.specs.Prelude.{◌≡◌, IfOk};
ghost use Rattle.ranked.specs.Flush.{is_flushed};

use dns_name::{Name, NoMemory};
use dns_text::types;

/// The cells that a flush of a name empties, by the three commands of `unbound-control(8)`.
#[derive(Clone, Copy, PartialEq, Eq)]
pub enum Reach {
    /// `flush_type`: the cell of this type.
    OneType(u16),
    /// `flush`: the cells of the ten types that the manual page lists.
    Name,
    /// `flush_zone`: the cells of every type, for every name at or below the name.
    Zone,
}

impl Reach {
    ghost use Rattle.ranked.specs.Flush.{reaches};
    ghost use Rattle.dns_text.specs.declared.record.Question.{Question};

    /// Whether a flush of the name empties the cell of this owner and type.
    pub fn covers(self, name: &Name, owner: &Name, kind: u16) -> bool
        ensures { result ≡ reaches self name.now (record { owner = owner.now; kind = kind }) }
    {
        match self {
            Reach::OneType(flushed) => flushed == kind && *name == *owner,
            Reach::Name => is_flushed(kind) && *name == *owner,
            Reach::Zone => owner.at_or_below(name),
        }
    }
}

/// A name, and the cells that its flush empties.
#[derive(Drop, PartialEq)]
pub struct Flush {
    pub name: Name,
    pub reach: Reach,
}

impl Flush {
    ghost use Rattle.ranked.specs.Flush.{covers};
    ghost use Rattle.dns_text.specs.declared.record.Question.{Question};

    /// A copy. It allocates if the name is long.
    pub fn copy(&self) -> Result<Flush, NoMemory>
        ensures { IfOk result (λ flush. flush ≡ self.now) }
    {
        let name = self.name.clone()?;
        Ok(Flush {
            name,
            reach: self.reach,
        })
    }

    /// Whether it empties the cell of this owner and type.
    pub fn covers(&self, owner: &Name, kind: u16) -> bool
        ensures { result ≡ covers self.now (record { owner = owner.now; kind = kind }) }
    {
        self.reach.covers(&self.name, owner, kind)
    }
}

// Whether `flush` of a name empties its cell of this type.
fn is_flushed(kind: u16) -> bool
    ensures { result ≡ is_flushed kind }
{
    matches!(
        kind,
        types::A
            | types::NS
            | types::SOA
            | types::CNAME
            | types::PTR
            | types::MX
            | types::AAAA
            | types::SRV
            | types::NAPTR
            | types::DNAME
    )
}
