//! The cells of one name.

ghost use Rattle.std.specs.Prelude.{◌≡◌, ◌<◌, ◌≤◌, ◌==◌, ◌+◌, ◌-◌, ◌^◌, ℕ, [], ◌∷◌, Some, None, true, false, not, max, length, vec_len, vec_capacity, is_some};
ghost use Rattle.std.specs.Prelude.{IfOk, IsOk, OnOk, OnErr, IfSome, IfNone, if◌then◌else◌};
ghost use Rattle.std.specs.List.{AllByRecursion};
ghost use Rattle.ranked.specs.declared.find.Scope.{Scope};
ghost use Rattle.ranked.specs.declared.find.Scope.TheVariants.{One, Whole};
ghost use Rattle.ranked.specs.Find.{admission_of};
ghost use Rattle.ranked.specs.Cell.{shown_at, turns_away};
ghost use Rattle.cell_store.specs.Owner.{after_settle, column_of, held_now, whole_cell, whole_held};
ghost use Rattle.cell_store.specs.Owner.{IsLeftWithin, IsPlaceOf, IsSettled, IsWholeUpTo};
ghost use Rattle.cell_store.specs.Walk.{IsEach};
ghost use Rattle.cell_store.specs.Count.{count_kinds, is_counted, one_if};
ghost use Rattle.cell_store.specs.Ends.{cell_end, name_end};
ghost use Rattle.cell_store.specs.Mixed.{is_mixed_kind};
ghost use Rattle.cell_store.specs.Sweep.{alive_at, is_dead, whole_swept, HasSameAlive, IsSeenAlive, IsSweptKind, KeepsAlive};

use crate::column::Column;
use crate::version::Sight;
use crate::versions::cell_end;
use dns_name::NoMemory;
use ranked::{Admitted, Cell, Find, Held, Scope, SharedFind, negative_law};
use std::alloc::Global;

/// The column of one type.
#[derive(Drop)]
pub struct KindColumn {
    pub kind: u16,
    pub column: Column,
}

/// A find about every type of a name. Nothing outranks it, so its admission reaches every version.
#[derive(Drop)]
pub struct WholeFind {
    pub find: SharedFind,
    /// The moment at which it was admitted, in seconds.
    pub since: u64,
    /// The last version at its admission. Later versions do not have it.
    pub upto: u64,
}

/// The cells of one name: the find of the whole name, and a column for each type that needs one.
#[derive(Drop)]
pub struct OwnerCells {
    pub alloc: Global,
    pub whole: Option<WholeFind>,
    pub kinds: Vec<KindColumn>,
}

// The place of the column of a type.
pub(crate) fn place_of(kinds: &[KindColumn], kind: u16) -> Option<usize>
    ensures some { IfSome result (IsPlaceOf kinds.now kind) }
    ensures none { IfNone result (column_of kinds.now kind ≡ None) }
{
    for (place, own) in kinds.iter().enumerate() {
        if own.kind == kind {
            return Some(place);
        }
    }
    None
}

fn whole_count(whole: &Option<WholeFind>) -> u64
    ensures { result ≡ one_if (is_some whole.now) }
{
    match whole {
        Some(_) => 1,
        None => 0,
    }
}

// The number of columns that have a find in some version.
fn count_kinds(kinds: &[KindColumn]) -> u64
    ensures count { result ≡ count_kinds kinds.now }
    ensures few { result < 2 ^ 63 }
{
    let mut count = 0;
    let mut place = 0;
    while place < kinds.len() {
        count += one_if(kinds[place].column.is_counted());
        place += 1;
    }
    count
}

fn one_if(counted: bool) -> u64
    ensures { result ≡ one_if counted }
{
    if counted { 1 } else { 0 }
}

// Makes a flush of every type permanent, in each column.
fn settle_each(kinds: &mut Vec<KindColumn>, number: u64)
    ensures { IsEach (IsSettled number) kinds.old.items kinds.new.items }
{
    let mut place = 0;
    while place < kinds.len() {
        kinds[place].column.settle(number);
        place += 1;
    }
}

impl OwnerCells {
    ghost use Rattle.cell_store.specs.Owner.{cell_in, whole_settled, CanSettle, GrowsByOne, HasAdmission, HasKindAdmission, HasSameCells, HasWholeAlone, IsUpTo, KeepsSettling, SettlesKinds};
    ghost use Rattle.cell_store.specs.Count.{count_of, has_place, AddsAtMost, AddsPlace, GainsNothing, HasSamePlaces, IsTidy, LosesFinds, LosesFindsOf, OpensColumns};

    /// No cells.
    pub fn new(alloc: Global) -> OwnerCells
        ensures cells { (kind v : ℕ) → cell_in result kind v ≡ None }
        ensures upto { (top : ℕ) → IsUpTo top result }
        ensures settles { (n k : ℕ) → CanSettle n k result }
        ensures count { count_of result ≡ 0 }
        ensures places { (scope : Scope) → has_place result scope ≡ false }
        ensures tidy { IsTidy result }
    {
        OwnerCells {
            alloc,
            whole: None,
            kinds: Vec::new(alloc),
        }
    }

    // Caches a find of the whole name in each version, in place of all columns. It takes no memory.
    fn admit_whole(&mut self, find: SharedFind, moment: u64, top: u64)
        requires scope { find.scope ≡ Whole }
        ensures cells { (kind v : ℕ) → v ≤ top → cell_in self.new kind v ≡ Some (admission_of find find moment) }
        ensures upto { IsUpTo top self.new }
        ensures settles { (n k : ℕ) → n ≤ top → CanSettle n k self.new }
        ensures count { count_of self.new ≡ 1 }
        ensures places { AddsPlace Whole self.old self.new }
        ensures tidy { IsTidy self.new }
        ensures room { vec_capacity self.new.kinds ≡ 0 }
    {
        // The list goes, with its room: it counts no more, and may have had a column for each of many types.
        self.kinds = Vec::new(self.alloc);
        self.whole = Some(WholeFind {
            find,
            since: moment,
            upto: top,
        });
    }

    // A column for a type that has none, with the content of that type.
    fn derived(&self, top: u64) -> Result<Column, NoMemory>
        requires upto { IsWholeUpTo top self.now.whole }
        ensures cells { IfOk result (HasWholeAlone self.now.whole) }
        ensures upto { IfOk result (λ column. column.upto ≤ top) }
        ensures left { IfOk result (IsLeftWithin self.now.whole) }
        ensures counted { IfOk result (λ column. is_counted column ≡ false) }
    {
        match &self.whole {
            Some(whole) => Column::left(self.alloc, whole.upto),
            None => Column::new(self.alloc, top),
        }
    }

    // Adds a column for a type that has none. No cell changes.
    fn open_kind(&mut self, kind: u16, top: u64) -> Result<(), NoMemory>
        requires upto { IsUpTo top self.old }
        requires fresh { column_of self.old.kinds.items kind ≡ None }
        ensures opens { OpensColumns top self.old self.new }
        ensures whole { self.new.whole ≡ self.old.whole }
        ensures opened { OnOk result ((1 ≤ vec_len self.new.kinds) × IsPlaceOf self.new.kinds.items kind (vec_len self.new.kinds - 1)) }
        ensures size { GrowsByOne result (vec_len self.old.kinds) (vec_len self.new.kinds) }
        ensures room { vec_capacity self.new.kinds ≤ max (vec_capacity self.old.kinds) (vec_len self.new.kinds) }
    {
        let column = self.derived(top)?;
        // Most names have one type: a growth by the usual rule would take room for four.
        self.kinds.reserve_exact(1)?;
        self.kinds.push_reserved(KindColumn { kind, column });
        Ok(())
    }

    /// Adds a column for a type, if a find of the whole name is cached, so that `settle_kind` needs no memory later. No cell changes.
    pub fn open(&mut self, kind: u16, top: u64) -> Result<(), NoMemory>
        requires upto { IsUpTo top self.old }
        ensures opens { OpensColumns top self.old self.new }
        ensures opened { OnOk result ((n : ℕ) → CanSettle n kind self.new) }
        ensures still { self.old.whole ≡ None → self.new ≡ self.old }
        ensures free { self.old.whole ≡ None → IsOk result }
    {
        if self.whole.is_none() {
            return Ok(());
        }
        self.place_for(kind, top)?;
        Ok(())
    }

    /// Does the same for some types. If memory runs out, some of them may have a column.
    pub fn open_each(&mut self, kinds: &[u16], top: u64) -> Result<(), NoMemory>
        requires upto { IsUpTo top self.old }
        ensures opens { OpensColumns top self.old self.new }
        ensures opened { OnOk result (AllByRecursion (λ kind. (n : ℕ) → CanSettle n kind self.new) kinds.now) }
        ensures still { self.old.whole ≡ None → self.new ≡ self.old }
    {
        for kind in kinds {
            self.open(*kind, top)?;
        }
        Ok(())
    }

    // The place of the column of a type. It adds one if there is none.
    fn place_for(&mut self, kind: u16, top: u64) -> Result<usize, NoMemory>
        requires upto { IsUpTo top self.old }
        ensures opens { OpensColumns top self.old self.new }
        ensures whole { self.new.whole ≡ self.old.whole }
        ensures place { IfOk result (IsPlaceOf self.new.kinds.items kind) }
        ensures size { vec_len self.new.kinds ≤ vec_len self.old.kinds + one_if (not (has_place self.old (One kind))) }
        ensures err { OnErr result (vec_len self.new.kinds ≡ vec_len self.old.kinds) }
        ensures free { has_place self.old (One kind) ≡ true → IsOk result }
    {
        if let Some(place) = place_of(&self.kinds, kind) {
            return Ok(place);
        }
        self.open_kind(kind, top)?;
        Ok(self.kinds.len() - 1)
    }

    // Whether the find of the whole name is alive at a moment and outranks a find.
    fn turns_away(&self, find: &Find, moment: u64) -> bool
        ensures { result ≡ turns_away (whole_cell self.now.whole) (admission_of find.now find.now moment) }
    {
        match &self.whole {
            Some(whole) => {
                let held = whole.find.find();
                moment.saturating_sub(whole.since) < u64::from(held.ttl)
                    && find.rank.level() < held.rank.level()
            }
            None => false,
        }
    }

    // Caches a find of a type in each version, unless the content there is alive at the moment and of higher rank.
    // On an error nothing changes.
    fn admit_kind(
        &mut self,
        find: SharedFind,
        kind: u16,
        moment: u64,
        top: u64,
    ) -> Result<(), NoMemory>
        requires upto { IsUpTo top self.old }
        requires scope { find.scope ≡ One kind }
        ensures cells { OnOk result (HasKindAdmission top kind find moment self.old self.new) }
        ensures err { OnErr result (HasSameCells self.old self.new × HasSamePlaces self.old self.new) }
        ensures upto { IsUpTo top self.new }
        ensures settles { KeepsSettling self.old self.new }
        ensures adds { AddsAtMost (One kind) self.old self.new }
        ensures free { has_place self.old (One kind) ≡ true → IsOk result }
    {
        let place = self.place_for(kind, top)?;
        let outranked = self.turns_away(find.find(), moment);
        self.kinds[place].column.hold(find, moment, outranked, top);
        Ok(())
    }

    /// Caches a find in each version, for each type that it is about, unless the content there is alive at the moment and of higher rank.
    /// On an error nothing changes.
    pub fn admit(&mut self, find: SharedFind, moment: u64, top: u64) -> Result<(), NoMemory>
        requires upto { IsUpTo top self.old }
        ensures cells { OnOk result (HasAdmission top find moment self.old self.new) }
        ensures err { OnErr result (HasSameCells self.old self.new × HasSamePlaces self.old self.new) }
        ensures upto { IsUpTo top self.new }
        ensures settles { (n k : ℕ) → n ≤ top → CanSettle n k self.old → CanSettle n k self.new }
        ensures adds { AddsAtMost find.scope self.old self.new }
        ensures free { has_place self.old find.scope ≡ true → IsOk result }
    {
        match find.find().scope {
            Scope::One(kind) => self.admit_kind(find, kind, moment, top),
            Scope::Whole => {
                negative_law();
                self.admit_whole(find, moment, top);
                Ok(())
            }
        }
    }

    // The find of the whole name, if it is alive at a moment.
    fn whole_at(&self, moment: u64) -> Option<Held<'_>>
        ensures { held_now result ≡ shown_at (whole_cell self.now.whole) moment }
    {
        match &self.whole {
            Some(whole) => {
                let found = whole.find.find();
                let cell = Cell {
                    held: Some(Admitted {
                        rank: found.rank,
                        ttl: found.ttl,
                        since: whole.since,
                        body: &whole.find,
                    }),
                };
                cell.at(moment)
            }
            None => None,
        }
    }

    /// The find of a type in a version, if it is alive at a moment.
    pub fn at(&self, kind: u16, version: u64, moment: u64) -> Option<Held<'_>>
        ensures { held_now result ≡ shown_at (cell_in self.now kind version) moment }
    {
        match place_of(&self.kinds, kind) {
            Some(place) => match self.kinds[place].column.at(version, moment) {
                Sight::Left => self.whole_at(moment),
                Sight::Own(shown) => shown,
            },
            None => self.unopened_at(version, moment),
        }
    }

    // The same for a type that has no column.
    fn unopened_at(&self, version: u64, moment: u64) -> Option<Held<'_>>
        ensures { held_now result ≡ shown_at (whole_held self.now.whole version) moment }
    {
        match &self.whole {
            Some(whole) => {
                if whole.upto < version {
                    None
                } else {
                    self.whole_at(moment)
                }
            }
            None => None,
        }
    }

    /// The number of places that count against the limit: the find of the whole name, and each column that has a find in some version.
    pub fn counted(&self) -> u64
        ensures { result ≡ count_of self.now }
    {
        whole_count(&self.whole) + count_kinds(&self.kinds)
    }

    /// The first moment at which a find of the name is dead, in seconds. It is the latest moment if there is none.
    pub fn first_end(&self) -> u64
        ensures { result ≡ name_end self.now }
    {
        let mut end = whole_end(&self.whole);
        for own in &self.kinds {
            end = end.min(own.column.first_end());
        }
        end
    }

    /// Whether the place of a find is counted already.
    pub fn has_place(&self, scope: Scope) -> bool
        ensures { result ≡ has_place self.now scope }
    {
        match scope {
            Scope::One(kind) => self.has_kind(kind),
            Scope::Whole => self.whole.is_some(),
        }
    }

    fn has_kind(&self, kind: u16) -> bool
        ensures { result ≡ has_place self.now (One kind) }
    {
        match place_of(&self.kinds, kind) {
            Some(place) => self.kinds[place].column.is_counted(),
            None => false,
        }
    }

    /// Makes a flush of a type permanent. It takes no memory.
    pub fn settle_kind(&mut self, kind: u16, number: u64)
        requires settles { CanSettle number kind self.old }
        ensures cells { (k v : ℕ) → cell_in self.new k v ≡ cell_in self.old k (after_settle (kind == k) number v) }
        ensures gains { GainsNothing self.old self.new }
    {
        if let Some(place) = place_of(&self.kinds, kind) {
            self.kinds[place].column.settle(number);
        }
    }

    /// Makes a flush of some types permanent.
    pub fn settle_kinds(&mut self, kinds: &[u16], number: u64)
        requires settles { AllByRecursion (λ kind. CanSettle number kind self.old) kinds.now }
        ensures cells { SettlesKinds kinds.now number self.old self.new }
        ensures gains { GainsNothing self.old self.new }
    {
        for kind in kinds {
            self.settle_kind(*kind, number);
        }
    }

    /// Makes a flush of every type permanent.
    pub fn settle_all(&mut self, number: u64)
        ensures cells { (top : ℕ) → IsUpTo top self.old → (k v : ℕ) → cell_in self.new k v ≡ cell_in self.old k (max number v) }
        ensures gains { GainsNothing self.old self.new }
    {
        settle_each(&mut self.kinds, number);
        self.settle_whole(number);
    }

    // Drops the find of the whole name, if it is older than a flush.
    fn settle_whole(&mut self, number: u64)
        ensures whole { self.new.whole ≡ whole_settled number self.old.whole }
        ensures kinds { self.new.kinds.items ≡ self.old.kinds.items }
    {
        let past = match &self.whole {
            Some(whole) => whole.upto < number,
            None => false,
        };
        if past {
            self.whole = None;
        }
    }

    /// Drops the find of the whole name, if it is dead at a moment. It takes no memory.
    pub fn sweep_whole(&mut self, moment: u64)
        ensures cells { HasSameAlive moment self.old self.new }
        ensures kinds { self.new.kinds.items ≡ self.old.kinds.items }
        ensures whole { self.new.whole ≡ whole_swept moment self.old.whole }
        ensures lost { LosesFinds self.old self.new }
    {
        self.drop_dead(moment);
    }

    fn drop_dead(&mut self, moment: u64)
        ensures whole { self.new.whole ≡ whole_swept moment self.old.whole }
        ensures kinds { self.new.kinds.items ≡ self.old.kinds.items }
    {
        if is_dead(&self.whole, moment) {
            self.whole = None;
        }
    }

    /// Drops the finds of a type that are dead at a moment, and those that no version in use has. Version 0 and those of `numbers` are in use.
    /// It takes no memory.
    pub fn sweep_kind(&mut self, kind: u16, numbers: &[u64], moment: u64)
        ensures cells { KeepsAlive kind numbers.now moment self.old self.new }
        ensures seen { IsSeenAlive kind numbers.now moment self.new }
        ensures lost { LosesFindsOf kind self.old self.new }
    {
        if let Some(place) = place_of(&self.kinds, kind) {
            self.kinds[place].column.sweep(numbers, moment);
        }
    }

    /// Drops the finds of a type that are dead at a moment, and returns true, unless its column has more than one entry: then it returns
    /// false, and nothing changes. The versions of a column with one entry are alike, so it does not matter which are in use.
    /// It takes no memory.
    pub fn sweep_if_even(&mut self, kind: u16, moment: u64) -> bool
        ensures cells { HasSameAlive moment self.old self.new }
        ensures seen { result ≡ true → has_place self.new (One kind) ≡ true →
            is_some (alive_at moment (cell_in self.new kind 0)) ≡ true }
        ensures lost { LosesFindsOf kind self.old self.new }
        ensures same { result ≡ false → (self.new ≡ self.old) × (is_mixed_kind self.old kind ≡ true) }
        ensures even { result ≡ not (is_mixed_kind self.old kind) }
        ensures swept { result ≡ true → IsSweptKind moment (column_of self.old.kinds.items kind) (column_of self.new.kinds.items kind) }
    {
        match place_of(&self.kinds, kind) {
            Some(place) => {
                if self.kinds[place].column.is_mixed() {
                    return false;
                }
                self.kinds[place].column.sweep_even(moment);
                true
            }
            None => true,
        }
    }
}

// The moment at which the find of the whole name ends.
fn whole_end(whole: &Option<WholeFind>) -> u64
    ensures { result ≡ cell_end (whole_cell whole.now) }
{
    match whole {
        Some(whole) => cell_end(whole.since, whole.find.find().ttl),
        None => u64::MAX,
    }
}

// Whether the find of the whole name is dead at a moment.
fn is_dead(whole: &Option<WholeFind>, moment: u64) -> bool
    ensures { result ≡ is_dead moment whole.now }
{
    match whole {
        Some(whole) => moment.saturating_sub(whole.since) >= u64::from(whole.find.find().ttl),
        None => false,
    }
}
