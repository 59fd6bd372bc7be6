//! The tables on the other side of a change, read through this side and the way there. Nothing changes, and no step passes over
//! records of other sets.

ghost use Rattle.std.specs.Prelude.{◌≡◌};
ghost use Rattle.std.specs.Option.{option_map};
ghost use Rattle.local_zone.specs.Answer.{has_record};
ghost use Rattle.local_zone.specs.Closest.{closest};
ghost use Rattle.local_zone.specs.Count.{count_of};
ghost use Rattle.local_zone.specs.Show.{data_for, set_of};

use crate::added::RecordTurn;
use crate::counts_below::CountsBelow;
use crate::other_counts::{count_back, count_before, count_left, count_with};
use crate::other_set::OtherSet;
use crate::own_records::{
    has_back, has_before, has_left, has_with, set_back, set_before, set_left, set_with,
};
use crate::record_list::RecordList;
use crate::saved::SavedTables;
use crate::zone::Zone;
use crate::zoned::count_over;
use crate::zones::closest_over;
use dns_name::Name;
use dns_text::types::CNAME;
use named_list::NamedList;
use std::marker::Model;

/// The parts of a table, and the way to the other side of a change. Contracts see the tables there.
#[derive(Drop)]
pub(crate) struct OtherSide<'a> {
    pub(crate) zones: &'a NamedList<Zone>,
    pub(crate) records: &'a RecordList,
    pub(crate) zoned: &'a CountsBelow,
    pub(crate) saved: &'a SavedTables,
}

impl<'a> Model for OtherSide<'a> {
    ghost use Rattle.local_zone.specs.OtherSide.{IsSide, other_tables};
    ghost use Rattle.local_zone.specs.Tables.{Tables};

    ghost Value = { Tables };

    ghost view = { λ s. other_tables s.saved.now s.zones.now s.records.now };

    ghost invariant = { λ s. IsSide s.saved.now s.zones.now s.records.now s.zoned.now };
}

impl<'a> OtherSide<'a> {
    /// The zone that covers a name.
    pub(crate) fn closest(&self, name: &Name) -> Option<&'a Zone>
        ensures { option_map (λ z. z.now) result ≡ closest self.now.zones name.now }
    {
        closest_over(self.zones, &self.saved.zones, name)
    }

    /// The records of an owner and TYPE, in order. It takes no memory.
    pub(crate) fn set_of(&self, owner: &Name, kind: u16) -> OtherSet<'a>
        ensures { result ≡ set_of owner.now kind self.now.records }
    {
        let records = self.records;
        let own = records.set_of(owner, kind);
        match &self.saved.records {
            RecordTurn::Nothing => OtherSet::same(own),
            RecordTurn::Added(added) => set_before(own, added, owner, kind),
            RecordTurn::Adds(new) => set_with(own, new, owner, kind),
            RecordTurn::Removed(removed) => set_back(own, removed, owner, kind),
            RecordTurn::Removes(gaps) => {
                let all = records.as_slice();
                set_left(own, self.zones, &self.saved.zones, all, gaps, owner, kind)
            }
        }
    }

    /// The CNAME of an owner, else its records of the TYPE.
    pub(crate) fn data_for(&self, owner: &Name, kind: u16) -> OtherSet<'a>
        ensures { result ≡ data_for owner.now kind self.now.records }
    {
        let aliases = self.set_of(owner, CNAME);
        if aliases.is_empty() {
            return self.set_of(owner, kind);
        }
        aliases
    }

    /// Whether an owner has a record.
    pub(crate) fn has(&self, owner: &Name) -> bool
        ensures { result ≡ has_record owner.now self.now.records }
    {
        let records = self.records;
        let count = records.count_of(owner);
        match &self.saved.records {
            RecordTurn::Nothing => count > 0,
            RecordTurn::Added(added) => has_before(count, added, owner),
            RecordTurn::Adds(new) => has_with(count, new.get(), owner),
            RecordTurn::Removed(removed) => has_back(count, removed, owner),
            RecordTurn::Removes(gaps) => {
                let all = records.as_slice();
                has_left(count, self.zones, &self.saved.zones, all, gaps, owner)
            }
        }
    }

    /// How many records lie at or below a name, in the zone in which the name lies.
    pub(crate) fn count_of(&self, name: &Name) -> u64
        ensures { result ≡ count_of self.now.zones name.now self.now.records }
    {
        let zones = self.zones;
        let turn = &self.saved.zones;
        let records = self.records;
        match &self.saved.records {
            RecordTurn::Nothing => count_over(zones, turn, records, self.zoned, name),
            RecordTurn::Added(added) => count_before(zones, turn, records, self.zoned, added, name),
            RecordTurn::Adds(new) => {
                count_with(zones, turn, records, self.zoned, new.get(), name)
            }
            RecordTurn::Removed(removed) => {
                let count = count_over(zones, turn, records, self.zoned, name);
                count.saturating_add(count_back(zones, turn, removed, name))
            }
            RecordTurn::Removes(gaps) => {
                count_left(zones, turn, records, self.zoned, gaps, name)
            }
        }
    }
}
