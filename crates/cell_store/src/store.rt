//! The cells of all names, in an index with a seeded hasher.

ghost use Rattle.std.specs.Prelude.{◌≡◌, ◌<◌, ◌≤◌, ℕ, None, true, false, length, option_copied, position, slice_get};
ghost use Rattle.std.specs.Prelude.{IfSome, IsOk, OnOk, OnErr, if◌then◌else◌};
ghost use Rattle.std.specs.List.{AllByRecursion};
ghost use Rattle.std.specs.Map.{keys_of};
ghost use Rattle.std.specs.Option.{option_map_or};
ghost use Rattle.indexmap.specs.IndexMap.{get};
ghost use Rattle.dns_name.specs.Labels.{Labels};
ghost use Rattle.dns_name.specs.Order.{name_eq};
ghost use Rattle.dns_text.specs.declared.record.Question.{Question};
ghost use Rattle.ranked.specs.Cell.{shown_at};
ghost use Rattle.cell_store.specs.Owner.{held_now};
ghost use Rattle.cell_store.specs.Count.{has_pair, has_place, has_place_for, stored_in, KeepPairs};
ghost use Rattle.cell_store.specs.Store.{cell_by_owner, cell_of, has_same_cell, AddAtMost, AreCellsAt, AreLeft, AreSameCells, AreSettled, AreSettledAt, AreUpTo, CanSettleAt, CountsFewerBy, EachCounts};
ghost use Rattle.cell_store.specs.Store.{GainNothing, HasGone, HaveAdmission, IsBelowAt, IsDroppedAt, IsIndex, KeepNames, OpenColumns, StayButAt, StayUnless};

use crate::owner::OwnerCells;
use crate::seed::NameSeed;
use dns_name::{Name, NoMemory};
use indexmap::IndexMap;
use ranked::{Find, Held, Scope, SharedFind};
use std::alloc::Global;

/// The cells of each name. Their order means nothing: a removal moves the last name into the gap.
pub type Owners = IndexMap<Name, OwnerCells, NameSeed>;

/// Caches a find in each version, for each question that it is about, unless the content there is alive and of higher rank. `place` is
/// what a look-up has found for the owner: it hashes the owner only if it is new.
/// It takes no memory if the place of the find is counted already. `stored` is the number of counted places. On an error nothing changes.
pub fn admit_at(
    alloc: Global,
    owners: &mut Owners,
    stored: &mut u64,
    place: Option<usize>,
    find: SharedFind,
    moment: u64,
    top: u64,
) -> Result<(), NoMemory>
    requires index { IsIndex top stored.old owners.old × (place ≡ position (name_eq find.owner) (keys_of owners.old.entries)) }
    ensures cells { OnOk result (HaveAdmission top find moment owners.old owners.new) }
    ensures err { OnErr result (AreSameCells owners.old owners.new × (stored.new ≡ stored.old) × KeepPairs owners.old owners.new) }
    ensures upto { AreUpTo top owners.new }
    ensures settles { (n k : ℕ) (name : Labels) → n ≤ top → CanSettleAt n k name owners.old → CanSettleAt n k name owners.new }
    ensures bound { AddAtMost find stored.old owners.old stored.new owners.new }
    ensures free { has_place_for owners.old find ≡ true → IsOk result }
    ensures named { EachCounts owners.old.entries → EachCounts owners.new.entries }
{
    if let Some(place) = place {
        let (_, cells) = owners.pair_mut(place);
        let others = *stored - cells.counted();
        let result = cells.admit(find, moment, top);
        *stored = others + cells.counted();
        return result;
    }
    let owner = find.find().owner.clone()?;
    let mut cells = OwnerCells::new(alloc);
    cells.admit(find, moment, top)?;
    let counted = cells.counted();
    owners.insert(owner, cells)?;
    *stored += counted;
    Ok(())
}

/// The cells of a name, by the place that a look-up has found for it.
pub fn cells_at(owners: &Owners, place: Option<usize>) -> Option<&OwnerCells>
    ensures { AreCellsAt owners.now place (option_copied result) }
{
    match place {
        Some(place) => match owners.get_index(place) {
            Some((_, cells)) => Some(cells),
            None => None,
        },
        None => None,
    }
}

/// The find of a question in a version, if it is alive at the moment. It looks the name up once, and takes no memory.
pub fn at<'a>(
    owners: &'a Owners,
    owner: &Name,
    kind: u16,
    version: u64,
    moment: u64,
) -> Option<Held<'a>>
    ensures { held_now result ≡ shown_at (cell_of owners.now (record { owner = owner.now; kind = kind }) version) moment }
{
    held_in(owners.get(owner), kind, version, moment)
}

/// The same by the cells of the name, if it has some.
pub fn held_in<'a>(
    cells: Option<&'a OwnerCells>,
    kind: u16,
    version: u64,
    moment: u64,
) -> Option<Held<'a>>
    ensures { held_now result ≡ shown_at (cell_by_owner (option_copied cells.entry) kind version) moment }
{
    match cells {
        Some(cells) => cells.at(kind, version, moment),
        None => None,
    }
}

/// Makes room for a flush of some types of a name, so that `settle_kinds` needs no memory later. No cell changes, even if memory runs out.
pub fn open_kinds(
    owners: &mut Owners,
    owner: &Name,
    kinds: &[u16],
    top: u64,
) -> Result<(), NoMemory>
    requires upto { AreUpTo top owners.old }
    ensures opens { OpenColumns top owners.old owners.new }
    ensures opened { OnOk result (AllByRecursion (λ kind. (n : ℕ) → CanSettleAt n kind owner.now owners.new) kinds.now) }
    ensures entries { KeepNames owner.now owners.old.entries owners.new.entries }
{
    if let Some(cells) = owners.get_mut(owner) {
        return cells.open_each(kinds, top);
    }
    Ok(())
}

/// Makes a flush of some types of a name permanent: the versions before it go. It takes no memory.
pub fn settle_kinds(owners: &mut Owners, stored: &mut u64, owner: &Name, kinds: &[u16], number: u64)
    requires settles { AllByRecursion (λ kind. CanSettleAt number kind owner.now owners.old) kinds.now }
    requires counted { stored.old ≡ stored_in owners.old }
    ensures cells { AreSettled owner.now kinds.now number owners.old owners.new }
    ensures gains { GainNothing owners.old owners.new }
    ensures counted { (stored.new ≡ stored_in owners.new) × (stored.new ≤ stored.old) }
    ensures entries { KeepNames owner.now owners.old.entries owners.new.entries }
{
    if let Some(cells) = owners.get_mut(owner) {
        let others = *stored - cells.counted();
        cells.settle_kinds(kinds, number);
        *stored = others + cells.counted();
    }
}

/// Makes a flush of every type at or below a name permanent in the cells of the name at a place, and says whether it covers that name.
/// It takes no memory.
pub fn settle_at(
    owners: &mut Owners,
    stored: &mut u64,
    place: usize,
    zone: &Name,
    number: u64,
) -> bool
    requires low { place < length owners.old.entries }
    requires counted { stored.old ≡ stored_in owners.old }
    ensures cells { AreSettledAt place zone.now number owners.old owners.new }
    ensures gains { GainNothing owners.old owners.new }
    ensures counted { (stored.new ≡ stored_in owners.new) × (stored.new ≤ stored.old) }
    ensures entries { StayButAt place owners.old.entries owners.new.entries }
    ensures covered { IsBelowAt place zone.now owners.old.entries result
        × StayUnless result owners.old stored.old owners.new stored.new }
{
    let (name, cells) = owners.pair_mut(place);
    // Most names are not covered, and their cells need not be read.
    if !name.at_or_below(zone) {
        return false;
    }
    let others = *stored - cells.counted();
    cells.settle_all(number);
    *stored = others + cells.counted();
    true
}

/// Whether the place of an owner and scope is counted. A place is that of a name and type, or of a whole name.
pub fn has_pair(owners: &Owners, owner: &Name, scope: Scope) -> bool
    ensures { result ≡ has_pair owners.now (owner.now, scope) }
{
    has_place_in(owners.get(owner), scope)
}

/// The same by the cells of the owner, if it has some.
pub fn has_place_in(cells: Option<&OwnerCells>, scope: Scope) -> bool
    ensures { result ≡ option_map_or (λ own. has_place own scope) (option_copied cells.entry) false }
{
    match cells {
        Some(cells) => cells.has_place(scope),
        None => false,
    }
}

/// Whether two versions of a question have the same find from the same moment, or both have none. It takes no memory.
pub fn is_same(owners: &Owners, owner: &Name, kind: u16, version: u64, other: u64) -> bool
    ensures { result ≡ has_same_cell owners.now (record { owner = owner.now; kind = kind }) version other }
{
    match owners.get(owner) {
        Some(cells) => cells.is_same(kind, version, other),
        None => true,
    }
}

/// Removes a name, from every version, and returns the place that it had. The last name moves into that. It takes no memory.
pub fn forget_place(owners: &mut Owners, stored: &mut u64, owner: &Name) -> Option<usize>
    requires counted { stored.old ≡ stored_in owners.old }
    ensures place { result ≡ position (name_eq owner.now) (keys_of owners.old.entries) }
    ensures gone { HasGone owner.now owners.old owners.new }
    ensures cells { (q : Question) (v : ℕ) →
        cell_of owners.new q v ≡ (if name_eq owner.now q.owner then None else cell_of owners.old q v) }
    ensures gains { GainNothing owners.old owners.new }
    ensures counted { stored.new ≡ stored_in owners.new }
    ensures fewer { CountsFewerBy owner.now owners.old stored.old stored.new }
{
    let (place, _, cells) = owners.swap_remove_full(owner)?;
    *stored -= cells.counted();
    Some(place)
}

/// Removes the name at a place if no place of it counts, and says whether it did. The last name moves into the gap. No cell changes.
/// It takes no memory.
pub fn drop_if_uncounted(owners: &mut Owners, place: usize) -> bool
    ensures cells { AreSameCells owners.old owners.new }
    ensures left { AreLeft owners.old owners.new }
    ensures counted { stored_in owners.new ≡ stored_in owners.old }
    ensures entries { IsDroppedAt place owners.old.entries owners.new.entries result }
    ensures gone { IfSome (slice_get owners.old.entries place) (λ entry. result ≡ true → get name_eq owners.new entry.0 ≡ None) }
{
    match owners.get_index(place) {
        Some((_, cells)) if cells.counted() == 0 => {}
        _ => return false,
    }
    owners.swap_remove_index(place);
    true
}
