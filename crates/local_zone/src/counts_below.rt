//! The number of records strictly below each name, or of those that lie in zones strictly below it. It spares a pass over all records.

ghost use Rattle.std.specs.Prelude.{◌≡◌, ◌<◌, ◌≤◌, None, OnErr, OnOk, MatchOption, IsTrue, false, length, take, if◌then◌else◌};
ghost use Rattle.dns_name.specs.Labels.{octets_of, parent_of};
ghost use Rattle.local_zone.specs.CountsBelow.{count_under, AreAboveZero, HasLessUnder, HasNoneAbove, IsAbove, IsAboveFrom, KeepsCounts};
ghost use Rattle.local_zone.specs.CountsBelow.{KeepsOtherCounts, LowersCount, LowersCounts, LowersNext, PutsCount, RaisesCount, RaisesCounts, RaisesNext};
ghost use Rattle.local_zone.specs.Index.{under};

use dns_name::{Name, NoMemory};
use indexmap::IndexMap;
use std::alloc::{AllocError, Global};
use std::marker::Model;

/// The octets of the name above, if there is one. What is left of `labels` are its labels.
fn octets_above<'a>(octets: &'a [u8], labels: &mut dns_name::Labels) -> Option<&'a [u8]>
    requires { octets.now ≡ octets_of labels.old }
    ensures { MatchOption result (parent_of labels.old ≡ None) (λ above. IsAbove labels.old labels.new above.now) }
{
    let label = labels.next()?;
    let end = octets.len() - label.len() - 1;
    Some(&octets[..end])
}

/// The same, if the name above has so many octets at least.
fn octets_above_from<'a>(
    octets: &'a [u8],
    labels: &mut dns_name::Labels,
    least: usize,
) -> Option<&'a [u8]>
    requires { octets.now ≡ octets_of labels.old }
    ensures { MatchOption result (HasNoneAbove least labels.old) (λ above. IsAboveFrom least labels.old labels.new above.now) }
{
    let above = octets_above(octets, labels)?;
    if above.len() < least {
        return None;
    }
    Some(above)
}

/// Adds to the count under these octets.
fn raise(
    alloc: Global,
    counts: &mut IndexMap<Vec<u8>, u64>,
    octets: &[u8],
    more: u64,
) -> Result<(), NoMemory>
    requires { 0 < more }
    ensures ok { OnOk result (RaisesCount (λ k. k.items) octets.now more counts.old.entries counts.new.entries) }
    ensures err { OnErr result (KeepsCounts (λ k. k.items) counts.old.entries counts.new.entries) }
    ensures above_zero { AreAboveZero (λ k. k.items) counts.old.entries → AreAboveZero (λ k. k.items) counts.new.entries }
{
    match counts.get_mut(octets) {
        Some(count) => {
            *count = count.checked_add(more).ok_or(AllocError)?;
            Ok(())
        }
        None => start(alloc, counts, octets, more),
    }
}

/// Makes a count.
fn start(
    alloc: Global,
    counts: &mut IndexMap<Vec<u8>, u64>,
    octets: &[u8],
    count: u64,
) -> Result<(), NoMemory>
    requires { under (λ k. k.items) octets.now counts.old.entries ≡ None }
    ensures ok { OnOk result (PutsCount (λ k. k.items) octets.now count counts.old.entries counts.new.entries) }
    ensures err { OnErr result (counts.new.entries ≡ counts.old.entries) }
{
    let mut key = Vec::new(alloc);
    key.extend_from_slice(octets)?;
    counts.insert(key, count)?;
    Ok(())
}

/// Takes from the count under these octets, and returns whether none is left. It takes no memory.
fn lower_count(counts: &mut IndexMap<Vec<u8>, u64>, octets: &[u8], less: u64) -> bool
    ensures here { HasLessUnder (λ k. k.items) octets.now less counts.old.entries counts.new.entries }
    ensures others { KeepsOtherCounts (λ k. k.items) octets.now counts.old.entries counts.new.entries }
    ensures empty { IsTrue result → count_under (λ k. k.items) octets.now counts.new.entries ≡ 0 }
    ensures above_zero { result ≡ false → AreAboveZero (λ k. k.items) counts.old.entries → AreAboveZero (λ k. k.items) counts.new.entries }
{
    match counts.get_mut(octets) {
        Some(count) => {
            *count = count.saturating_sub(less);
            *count == 0
        }
        None => false,
    }
}

/// Takes from the count under these octets, and takes the count away if none is left. It takes no memory.
fn lower(counts: &mut IndexMap<Vec<u8>, u64>, octets: &[u8], less: u64)
    ensures count { LowersCount (λ k. k.items) octets.now less counts.old.entries counts.new.entries }
    ensures above_zero { AreAboveZero (λ k. k.items) counts.old.entries → AreAboveZero (λ k. k.items) counts.new.entries }
{
    if lower_count(counts, octets, less) {
        counts.swap_remove(octets);
    }
}

/// Takes from the counts what other counts have at a place. It takes no memory.
fn lower_at(counts: &mut IndexMap<Vec<u8>, u64>, less: &IndexMap<Vec<u8>, u64>, place: usize)
    requires { place < length less.now.entries }
    ensures count { LowersNext (λ k. k.items) place less.now.entries counts.old.entries counts.new.entries }
    ensures above_zero { AreAboveZero (λ k. k.items) counts.old.entries → AreAboveZero (λ k. k.items) counts.new.entries }
{
    // For its law alone: no two counts are of one name.
    let _all = less.len();
    if let Some((octets, count)) = less.get_index(place) {
        lower(counts, octets.as_slice(), *count);
    }
}

/// Takes from the counts what the first `many` of other counts say. It takes no memory.
fn lower_first(counts: &mut IndexMap<Vec<u8>, u64>, less: &IndexMap<Vec<u8>, u64>, many: usize)
    requires { many ≤ length less.now.entries }
    ensures count { LowersCounts (λ k. k.items) (take many less.now.entries) counts.old.entries counts.new.entries }
    ensures above_zero { AreAboveZero (λ k. k.items) counts.old.entries → AreAboveZero (λ k. k.items) counts.new.entries }
{
    for i in 0..many {
        lower_at(counts, less, i);
    }
}

/// Adds to the counts what other counts have at a place.
fn raise_at(
    alloc: Global,
    counts: &mut IndexMap<Vec<u8>, u64>,
    more: &IndexMap<Vec<u8>, u64>,
    place: usize,
) -> Result<(), NoMemory>
    requires place { place < length more.now.entries }
    requires above_zero { AreAboveZero (λ k. k.items) more.now.entries }
    ensures ok { OnOk result (RaisesNext (λ k. k.items) place more.now.entries counts.old.entries counts.new.entries) }
    ensures err { OnErr result (KeepsCounts (λ k. k.items) counts.old.entries counts.new.entries) }
    ensures above_zero { AreAboveZero (λ k. k.items) counts.old.entries → AreAboveZero (λ k. k.items) counts.new.entries }
{
    // For its law alone: no two counts are of one name.
    let _all = more.len();
    match more.get_index(place) {
        Some((octets, count)) => raise(alloc, counts, octets.as_slice(), *count),
        None => Ok(()),
    }
}

/// Adds to the counts what other counts say.
fn raise_all(
    alloc: Global,
    counts: &mut IndexMap<Vec<u8>, u64>,
    more: &IndexMap<Vec<u8>, u64>,
) -> Result<(), NoMemory>
    requires { AreAboveZero (λ k. k.items) more.now.entries }
    ensures ok { OnOk result (RaisesCounts (λ k. k.items) more.now.entries counts.old.entries counts.new.entries) }
    ensures err { OnErr result (KeepsCounts (λ k. k.items) counts.old.entries counts.new.entries) }
    ensures above_zero { AreAboveZero (λ k. k.items) counts.old.entries → AreAboveZero (λ k. k.items) counts.new.entries }
{
    for i in 0..more.len() {
        if let Err(e) = raise_at(alloc, counts, more, i) {
            lower_first(counts, more, i);
            return Err(e);
        }
    }
    Ok(())
}

/// For each name the number of records strictly below it, or of those that lie in zones strictly below it. Contracts see these
/// counts, each under the octets of its name. A name whose count is 0 takes no memory.
#[derive(Drop)]
pub(crate) struct CountsBelow {
    counts: IndexMap<Vec<u8>, u64>,
}

impl Model for CountsBelow {
    ghost use Rattle.std.specs.Prelude.{ℕ, List, map};
    ghost use Rattle.local_zone.specs.CountsBelow.{AreAboveZero};

    ghost Value = { List (List ℕ × ℕ) };

    ghost view = { λ c. map (λ e. (e.0.items, e.1)) c.counts.entries };

    ghost invariant = { λ c. AreAboveZero (λ k. k.items) c.counts.entries };
}

impl CountsBelow {
    ghost use Rattle.std.specs.Prelude.{[]};
    ghost use Rattle.local_zone.specs.CountsBelow.{counted, is_below, is_below_from, CountLessBy, CountMoreBy, CountTheSame};

    /// Nothing is counted. It takes no memory.
    pub(crate) fn new(alloc: Global) -> CountsBelow
        ensures { result ≡ [] }
    {
        CountsBelow {
            counts: IndexMap::new(alloc),
        }
    }

    /// The count of a name. It is one lookup.
    pub(crate) fn of(&self, name: &Name) -> u64
        ensures { result ≡ counted name.now self.now }
    {
        match self.counts.get(name.octets()) {
            Some(count) => *count,
            None => 0,
        }
    }

    /// Counts so many more below each name above this one that has enough octets, the nearest first. A name has 127 above it at
    /// most. If that fails, no count has changed.
    fn add_above(
        &mut self,
        alloc: Global,
        octets: &[u8],
        labels: &mut dns_name::Labels,
        least: usize,
        more: u64,
    ) -> Result<(), NoMemory>
        requires octets { octets.now ≡ octets_of labels.old }
        requires some { 0 < more }
        ensures ok { OnOk result (CountMoreBy (λ name. if is_below_from least labels.old name then more else 0) self.old self.new) }
        ensures err { OnErr result (CountTheSame self.old self.new) }
    {
        let Some(above) = octets_above_from(octets, labels, least) else {
            return Ok(());
        };
        raise(alloc, &mut self.counts, above, more)?;
        let added = self.add_above(alloc, above, labels, least, more);
        if added.is_err() {
            lower(&mut self.counts, above, more);
        }
        added
    }

    /// Counts so many less below each name above this one that has enough octets, the nearest first. It takes no memory.
    fn remove_above(
        &mut self,
        octets: &[u8],
        labels: &mut dns_name::Labels,
        least: usize,
        less: u64,
    )
        requires { octets.now ≡ octets_of labels.old }
        ensures { CountLessBy (λ name. if is_below_from least labels.old name then less else 0) self.old self.new }
    {
        if let Some(above) = octets_above_from(octets, labels, least) {
            lower(&mut self.counts, above, less);
            self.remove_above(above, labels, least, less);
        }
    }

    /// Counts so many more below each name above this one that has so many octets at least. If memory is refused, or there are more
    /// than can be counted, no count has changed.
    pub(crate) fn add_from(
        &mut self,
        alloc: Global,
        name: &Name,
        least: usize,
        more: u64,
    ) -> Result<(), NoMemory>
        ensures ok { OnOk result (CountMoreBy (λ other. if is_below_from least name.now other then more else 0) self.old self.new) }
        ensures err { OnErr result (CountTheSame self.old self.new) }
    {
        if more == 0 {
            return Ok(());
        }
        self.add_above(alloc, name.octets(), &mut name.labels(), least, more)
    }

    /// Counts so many less below each name above this one that has so many octets at least. It takes no memory.
    pub(crate) fn remove_from(&mut self, name: &Name, least: usize, less: u64)
        ensures { CountLessBy (λ other. if is_below_from least name.now other then less else 0) self.old self.new }
    {
        self.remove_above(name.octets(), &mut name.labels(), least, less);
    }

    /// Counts one more below each name above this one. If memory is refused, or there are more than can be counted, no count has
    /// changed.
    pub(crate) fn add(&mut self, alloc: Global, owner: &Name) -> Result<(), NoMemory>
        ensures ok { OnOk result (CountMoreBy (λ name. if is_below owner.now name then 1 else 0) self.old self.new) }
        ensures err { OnErr result (CountTheSame self.old self.new) }
    {
        self.add_from(alloc, owner, 0, 1)
    }

    /// Counts one less below each name above this one. It takes no memory.
    pub(crate) fn remove(&mut self, owner: &Name)
        ensures { CountLessBy (λ name. if is_below owner.now name then 1 else 0) self.old self.new }
    {
        self.remove_from(owner, 0, 1);
    }

    /// Counts as many more below each name as other counts say. If memory is refused, or there are more than can be counted, no count
    /// has changed.
    pub(crate) fn add_all(&mut self, alloc: Global, more: &CountsBelow) -> Result<(), NoMemory>
        ensures ok { OnOk result (CountMoreBy (λ name. counted name more.now) self.old self.new) }
        ensures err { OnErr result (CountTheSame self.old self.new) }
    {
        raise_all(alloc, &mut self.counts, &more.counts)
    }

    /// Counts as many less below each name as other counts say. It takes no memory.
    pub(crate) fn remove_all(&mut self, less: &CountsBelow)
        ensures { CountLessBy (λ name. counted name less.now) self.old self.new }
    {
        lower_first(&mut self.counts, &less.counts, less.counts.len());
    }
}
