//! The records that a change took out.

use crate::counts_below::CountsBelow;
use crate::group::Group;
use crate::groups::{many_in, set_in};
use crate::record::LocalRecord;
use crate::taken::Taken;
use dns_name::Name;
use indexmap::IndexMap;
use std::alloc::Global;
use std::marker::Model;

/// Records that were taken out of the list, each with its gap. Contracts see these alone. The groups of the index came with them, and
/// counts say how many are below a name. So a lookup of what would be there again passes over no record.
#[derive(Drop)]
pub(crate) struct Removed {
    pub(crate) taken: Vec<Taken>,
    // The groups of their owners, with their keys, as they were in the index.
    pub(crate) groups: IndexMap<Name, Group>,
    pub(crate) below: CountsBelow,
}

impl Model for Removed {
    ghost use Rattle.std.specs.Prelude.{List};
    ghost use Rattle.local_zone.specs.declared.taken.Taken.{Taken};
    ghost use Rattle.local_zone.specs.CountsBelow.{AreCounted};
    ghost use Rattle.local_zone.specs.Gaps.{records_of};
    ghost use Rattle.local_zone.specs.Group.{AreGrouped};

    ghost Value = { List Taken };

    ghost view = { λ r. r.taken.items };

    ghost invariant = { λ r. AreGrouped (records_of r.taken.items) r.groups.entries × AreCounted (records_of r.taken.items) r.below };
}

impl Removed {
    ghost use Rattle.std.specs.Prelude.{◌≡◌, [], length};
    ghost use Rattle.local_zone.specs.CountsBelow.{count_below};
    ghost use Rattle.local_zone.specs.Gaps.{records_of};
    ghost use Rattle.local_zone.specs.Index.{of_owner};
    ghost use Rattle.local_zone.specs.Show.{set_of};

    /// How many of the records an owner has.
    pub(crate) fn count_of(&self, owner: &Name) -> u64
        ensures { result ≡ length (of_owner owner.now (records_of self.now)) }
    {
        many_in(&self.groups, owner)
    }

    /// The records of an owner and TYPE, in order.
    pub(crate) fn set_of(&self, owner: &Name, kind: u16) -> &[LocalRecord]
        ensures { result.now ≡ set_of owner.now kind (records_of self.now) }
    {
        set_in(&self.groups, owner, kind)
    }

    /// How many of the records lie strictly below a name.
    pub(crate) fn count_below(&self, name: &Name) -> u64
        ensures { result ≡ count_below name.now (records_of self.now) }
    {
        self.below.of(name)
    }

    /// The records, each with its gap.
    pub(crate) fn as_slice(&self) -> &[Taken]
        ensures { result.now ≡ self.now }
    {
        &self.taken
    }

    /// No records. It takes no memory.
    pub(crate) fn new(alloc: Global) -> Removed
        ensures { result ≡ [] }
    {
        Removed {
            taken: Vec::new(alloc),
            groups: IndexMap::new(alloc),
            below: CountsBelow::new(alloc),
        }
    }
}
