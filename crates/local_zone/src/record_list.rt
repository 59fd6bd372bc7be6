//! Records in the order of their arrival, with an index by owner.

ghost use Rattle.std.specs.Prelude.{◌≡◌, ◌≤◌, ◌+◌, ◌++◌, ◌∷◌, [], IfOk, OnErr, OnOk};
ghost use Rattle.std.specs.Vec.{vec_len, vec_capacity};
ghost use Rattle.local_zone.specs.Gaps.{at_gaps, gaps_of, put_back, records_of, rest_of, AreApart, AreWithin};
ghost use Rattle.std.specs.Prelude.{◌-◌, None, map, take, length, false, IsTrue, ◌&&◌, ◌==◌, not};
ghost use Rattle.std.specs.List.{list_any};
ghost use Rattle.local_zone.specs.CountsBelow.{count_below, AreCounted, CountMoreBy};
ghost use Rattle.local_zone.specs.Tables.{is_of_set};
ghost use Rattle.local_zone.specs.Change.{retimed_by};
ghost use Rattle.local_zone.specs.Group.{group_of, records_in, FindsAllButLast, IndexesAllButLast, IndexesChanged, IndexesSame, KeepsOtherGroups};
ghost use Rattle.local_zone.specs.InPlace.{HasRoomFor};
ghost use Rattle.local_zone.specs.Index.{of_owner};
ghost use Rattle.local_zone.specs.Show.{data_for, set_of};

use crate::counts_below::CountsBelow;
use crate::group::Group;
use crate::groups::{data_in, keep_groups, many_in, move_groups, set_in};
use crate::in_place::{moves_in_place, put_few, take_few};
use crate::join::join;
use crate::passes::{push_gaps, put_pass, take_pass};
use crate::record::{LocalRecord, retime_each};
use crate::removed::Removed;
use crate::taken::Taken;
use dns_name::{Name, NoMemory};
use dns_text::{Record, Ttl};
use indexmap::IndexMap;
use std::alloc::Global;
use std::marker::Model;
use std::mem;

/// Puts a record into the group of its owner.
fn index_last(
    alloc: Global,
    owners: &mut IndexMap<Name, Group>,
    new: LocalRecord,
) -> Result<(), NoMemory>
    ensures ok { OnOk result (IndexesChanged (λ records. records ++ new ∷ []) owners.old.entries owners.new.entries) }
    ensures err { OnErr result (IndexesSame owners.old.entries owners.new.entries) }
{
    match owners.get_mut(new.owner()) {
        Some(group) => group.push(alloc, new),
        None => index_first(owners, new),
    }
}

/// Makes the group of an owner with its first record.
fn index_first(owners: &mut IndexMap<Name, Group>, new: LocalRecord) -> Result<(), NoMemory>
    requires { group_of new.owner owners.old.entries ≡ None }
    ensures ok { OnOk result (IndexesChanged (λ records. records ++ new ∷ []) owners.old.entries owners.new.entries) }
    ensures err { OnErr result (owners.new.entries ≡ owners.old.entries) }
{
    let key = new.owner().clone()?;
    owners.insert(key, Group::One(new))?;
    Ok(())
}

/// Whether a record of the set has another TTL.
fn has_other_ttl(records: &[LocalRecord], set: &Record, ttl: Ttl) -> bool
    ensures { result ≡ list_any (λ r. is_of_set r set.now && not (r.ttl == ttl)) records.now }
{
    // TTLs first: they seldom differ, and comparing them is faster than comparing owners.
    records
        .iter()
        .any(|r| r.ttl().seconds() != ttl.seconds() && r.is_of_set(set))
}

/// Gives the records of a set in the index a TTL.
fn retime_index(owners: &mut IndexMap<Name, Group>, set: &Record, ttl: Ttl)
    ensures { IndexesChanged (λ records. map (retimed_by (record set.now { ttl = ttl })) records) owners.old.entries owners.new.entries }
{
    if let Some(group) = owners.get_mut(&set.owner) {
        group.retime(set, ttl);
    }
}

/// Takes the last record of an owner, which has this TYPE, out of the index, and the owner's group if that is empty then.
fn unindex_last(owners: &mut IndexMap<Name, Group>, owner: &Name, kind: u16)
    ensures { IndexesAllButLast owner.now kind owners.old.entries owners.new.entries }
{
    if pop_under(owners, owner, kind) {
        owners.swap_remove(owner);
    }
}

/// Takes the last record of a TYPE out of the group of an owner, and returns whether none is left.
fn pop_under(owners: &mut IndexMap<Name, Group>, owner: &Name, kind: u16) -> bool
    ensures front { FindsAllButLast owner.now kind owners.old.entries owners.new.entries }
    ensures some { result ≡ false → IndexesAllButLast owner.now kind owners.old.entries owners.new.entries }
    ensures others { KeepsOtherGroups owner.now owners.old.entries owners.new.entries }
    ensures empty { IsTrue result → records_in (group_of owner.now owners.new.entries) ≡ [] }
{
    match owners.get_mut(owner) {
        Some(group) => group.pop(kind),
        None => false,
    }
}

/// Takes the records at the gaps out of a list: few of many in place, others in one pass. If memory is refused, nothing has changed.
fn cut_out(
    alloc: Global,
    list: &mut Vec<LocalRecord>,
    gaps: &[usize],
    taken: &mut Vec<Taken>,
) -> Result<(), NoMemory>
    requires within { AreWithin gaps.now list.old.items }
    requires places { vec_len taken.old + length gaps.now ≤ vec_capacity taken.old }
    ensures list { OnOk result (list.new.items ≡ rest_of gaps.now list.old.items) }
    ensures taken { OnOk result (taken.new.items ≡ taken.old.items ++ at_gaps gaps.now list.old.items) }
    ensures err { OnErr result ((list.new.items ≡ list.old.items) × (taken.new.items ≡ taken.old.items)) }
{
    let stay = list.len() - gaps.len();
    if moves_in_place(list.capacity(), stay, gaps.len()) {
        take_few(list, gaps, taken);
        return Ok(());
    }
    let mut left = Vec::with_capacity(alloc, list.len())?;
    let mut from = mem::replace(list, Vec::new(alloc)).into_iter();
    take_pass(&mut from, gaps, &mut left, taken);
    *list = left;
    Ok(())
}

/// Room for records that go back into a list: in the list itself if they are few of many, and it has not become much shorter than
/// its room, else a second list.
fn room_for(
    alloc: Global,
    list: &mut Vec<LocalRecord>,
    taken: &[Taken],
) -> Result<Option<Vec<LocalRecord>>, NoMemory>
    ensures items { list.new.items ≡ list.old.items }
    ensures room { IfOk result (HasRoomFor (length taken.now) list.new) }
{
    if moves_in_place(list.capacity(), list.len(), taken.len()) {
        list.reserve_exact(taken.len())?;
        return Ok(None);
    }
    Ok(Some(Vec::with_capacity(alloc, list.len() + taken.len())?))
}

/// Puts records back in their places in a list, with the room that was made for them. It takes no memory.
fn put_all(
    alloc: Global,
    list: &mut Vec<LocalRecord>,
    taken: Vec<Taken>,
    gaps: &[usize],
    second: Option<Vec<LocalRecord>>,
)
    requires gaps { gaps.now ≡ gaps_of taken.items }
    requires room { HasRoomFor (vec_len taken) list.old second }
    ensures { list.new.items ≡ put_back taken.items list.old.items }
{
    match second {
        None => put_few(list, taken, gaps),
        Some(to) => {
            let mut to = to;
            let mut from = mem::replace(list, Vec::new(alloc)).into_iter();
            put_pass(&mut from, taken, &mut to);
            *list = to;
        }
    }
}

/// Counts of the records at the gaps, below each name above them.
fn counts_at(alloc: Global, list: &[LocalRecord], gaps: &[usize]) -> Result<CountsBelow, NoMemory>
    requires { AreWithin gaps.now list.now }
    ensures { IfOk result (λ counts. AreCounted (records_of (at_gaps gaps.now list.now)) counts) }
{
    let mut counts = CountsBelow::new(alloc);
    let mut place = 0;
    for gap in gaps {
        place += *gap;
        counts.add(alloc, list[place].owner())?;
        place += 1;
    }
    Ok(counts)
}

/// Counts records below each name above them.
fn count_each(
    alloc: Global,
    counts: &mut CountsBelow,
    records: &[LocalRecord],
) -> Result<(), NoMemory>
    ensures { OnOk result (CountMoreBy (λ name. count_below name records.now) counts.old counts.new) }
{
    for r in records {
        counts.add(alloc, r.owner())?;
    }
    Ok(())
}

/// Counts of the other records, below each name above them.
fn counts_between(
    alloc: Global,
    list: &[LocalRecord],
    gaps: &[usize],
) -> Result<CountsBelow, NoMemory>
    requires { AreWithin gaps.now list.now }
    ensures { IfOk result (λ counts. AreCounted (rest_of gaps.now list.now) counts) }
{
    let mut counts = CountsBelow::new(alloc);
    let mut place = 0;
    for gap in gaps {
        let end = place + *gap;
        let between = &list[place..end];
        count_each(alloc, &mut counts, between)?;
        place = end + 1;
    }
    let last = &list[place..];
    count_each(alloc, &mut counts, last)?;
    Ok(counts)
}

/// Records in order. Contracts see the list alone. An index finds those of an owner in one lookup, and counts say in one lookup
/// how many are below a name.
#[derive(Drop)]
pub(crate) struct RecordList {
    list: Vec<LocalRecord>,
    // A second share of each record, by owner and TYPE. Groups hold no places, so that a removal renumbers nothing. A
    // name is hashed at once, and not octet by octet, and a short one lies in the key itself.
    owners: IndexMap<Name, Group>,
    // So that one lookup finds a name with no record below it, which a stranger may make up and ask for.
    below: CountsBelow,
}

impl Model for RecordList {
    ghost use Rattle.std.specs.Prelude.{List};
    ghost use Rattle.dns_text.specs.declared.record.Record.{Record};
    ghost use Rattle.local_zone.specs.CountsBelow.{AreCounted};
    ghost use Rattle.local_zone.specs.Group.{AreGrouped};

    ghost Value = { List Record };

    ghost view = { λ r. r.list.items };

    ghost invariant = { λ r. AreGrouped r.list.items r.owners.entries × AreCounted r.list.items r.below };
}

impl RecordList {
    /// No records. It takes no memory.
    pub(crate) fn new(alloc: Global) -> RecordList
        ensures { result ≡ [] }
    {
        RecordList {
            list: Vec::new(alloc),
            owners: IndexMap::new(alloc),
            below: CountsBelow::new(alloc),
        }
    }

    /// The records in order.
    pub(crate) fn as_slice(&self) -> &[LocalRecord]
        ensures { result.now ≡ self.now }
    {
        &self.list
    }

    /// How many records an owner has. It is one lookup.
    pub(crate) fn count_of(&self, owner: &Name) -> u64
        ensures { result ≡ length (of_owner owner.now self.now) }
    {
        many_in(&self.owners, owner)
    }

    /// The records of an owner and TYPE, in order. It passes over no others.
    pub(crate) fn set_of(&self, owner: &Name, kind: u16) -> &[LocalRecord]
        ensures { result.now ≡ set_of owner.now kind self.now }
    {
        set_in(&self.owners, owner, kind)
    }

    /// The CNAME of an owner, else its records of the TYPE.
    pub(crate) fn data_for(&self, owner: &Name, kind: u16) -> &[LocalRecord]
        ensures { result.now ≡ data_for owner.now kind self.now }
    {
        data_in(&self.owners, owner, kind)
    }

    /// How many records lie strictly below a name. It is one lookup.
    pub(crate) fn count_below(&self, name: &Name) -> u64
        ensures { result ≡ count_below name.now self.now }
    {
        self.below.of(name)
    }

    /// Puts a record last. If memory is refused, nothing has changed.
    pub(crate) fn push(&mut self, alloc: Global, new: LocalRecord) -> Result<(), NoMemory>
        ensures ok { OnOk result (self.new ≡ self.old ++ new ∷ []) }
        ensures err { OnErr result (self.new ≡ self.old) }
    {
        self.list.reserve(1)?;
        let twin = new.share()?;
        self.below.add(alloc, new.owner())?;
        match index_last(alloc, &mut self.owners, twin) {
            Ok(()) => {
                self.list.push_reserved(new);
                Ok(())
            }
            Err(e) => {
                self.below.remove(new.owner());
                Err(e)
            }
        }
    }

    /// Gives the records of a set a TTL. It takes no memory.
    pub(crate) fn retime(&mut self, set: &Record, ttl: Ttl)
        ensures { self.new ≡ map (retimed_by (record set.now { ttl = ttl })) self.old }
    {
        if has_other_ttl(self.set_of(&set.owner, set.kind), set, ttl) {
            retime_each(self.list.as_mut_slice(), set, ttl);
            retime_index(&mut self.owners, set, ttl);
        }
    }

    /// Takes the last record out, if there is one. It takes no memory.
    pub(crate) fn pop(&mut self)
        ensures { self.new ≡ take (length self.old - 1) self.old }
    {
        if let Some(last) = self.list.pop() {
            unindex_last(&mut self.owners, last.owner(), last.kind());
            self.below.remove(last.owner());
        }
    }

    /// Takes the records at the gaps out. It takes all its memory first. If that is refused, nothing has changed.
    pub(crate) fn take_out(&mut self, alloc: Global, gaps: &[usize]) -> Result<Removed, NoMemory>
        requires within { AreWithin gaps.now self.old }
        requires apart { AreApart (at_gaps gaps.now self.old) (rest_of gaps.now self.old) }
        ensures ok { OnOk result (self.new ≡ rest_of gaps.now self.old) }
        ensures removed { IfOk result (λ removed. removed ≡ at_gaps gaps.now self.old) }
        ensures err { OnErr result (self.new ≡ self.old) }
    {
        if gaps.len() <= self.list.len() / 2 {
            return self.take_some(alloc, gaps);
        }
        self.take_most(alloc, gaps)
    }

    // Where most stay, the groups of those that go move, and these are counted anew.
    fn take_some(&mut self, alloc: Global, gaps: &[usize]) -> Result<Removed, NoMemory>
        requires within { AreWithin gaps.now self.old }
        requires apart { AreApart (at_gaps gaps.now self.old) (rest_of gaps.now self.old) }
        ensures ok { OnOk result (self.new ≡ rest_of gaps.now self.old) }
        ensures removed { IfOk result (λ removed. removed ≡ at_gaps gaps.now self.old) }
        ensures err { OnErr result (self.new ≡ self.old) }
    {
        let mut taken = Vec::with_capacity(alloc, gaps.len())?;
        let mut groups = IndexMap::with_capacity(alloc, gaps.len())?;
        let below = counts_at(alloc, self.list.as_slice(), gaps)?;
        cut_out(alloc, &mut self.list, gaps, &mut taken)?;
        move_groups(&mut self.owners, &mut groups, &taken);
        self.below.remove_all(&below);
        Ok(Removed {
            taken,
            groups,
            below,
        })
    }

    // Where most go, they take the index and the counts along. The groups of those that stay move, and these are counted anew.
    fn take_most(&mut self, alloc: Global, gaps: &[usize]) -> Result<Removed, NoMemory>
        requires within { AreWithin gaps.now self.old }
        requires apart { AreApart (at_gaps gaps.now self.old) (rest_of gaps.now self.old) }
        ensures ok { OnOk result (self.new ≡ rest_of gaps.now self.old) }
        ensures removed { IfOk result (λ removed. removed ≡ at_gaps gaps.now self.old) }
        ensures err { OnErr result (self.new ≡ self.old) }
    {
        let mut taken = Vec::with_capacity(alloc, gaps.len())?;
        let stay = self.list.len() - gaps.len();
        let mut kept = IndexMap::with_capacity(alloc, stay)?;
        let counts = counts_between(alloc, self.list.as_slice(), gaps)?;
        cut_out(alloc, &mut self.list, gaps, &mut taken)?;
        keep_groups(&mut self.owners, &mut kept, &self.list);
        self.below.remove_all(&counts);
        let groups = mem::replace(&mut self.owners, kept);
        let below = mem::replace(&mut self.below, counts);
        Ok(Removed {
            taken,
            groups,
            below,
        })
    }

    /// Puts records back in their places, and returns the gaps. It takes all its memory first. If that is refused,
    /// nothing has changed.
    pub(crate) fn put_in(
        &mut self,
        alloc: Global,
        removed: &mut Removed,
    ) -> Result<Vec<usize>, NoMemory>
        requires apart { AreApart removed.old self.old }
        ensures ok { OnOk result (self.new ≡ put_back removed.old self.old) }
        ensures gaps { IfOk result (λ gaps. gaps.items ≡ gaps_of removed.old) }
        ensures err { OnErr result ((self.new ≡ self.old) × (removed.new ≡ removed.old)) }
    {
        let mut gaps = Vec::with_capacity(alloc, removed.taken.len())?;
        let second = room_for(alloc, &mut self.list, &removed.taken)?;
        join(
            alloc,
            &mut self.owners,
            &mut self.below,
            &mut removed.groups,
            &mut removed.below,
        )?;
        let taken = mem::replace(&mut removed.taken, Vec::new(alloc));
        push_gaps(&taken, &mut gaps);
        put_all(alloc, &mut self.list, taken, &gaps, second);
        Ok(gaps)
    }
}
