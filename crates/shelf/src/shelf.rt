//! The shelf: cached cells, and the flushes that can be undone or redone.

ghost use Rattle.std.specs.Prelude.{◌≡◌, ◌<◌, ◌≤◌, ◌+◌, ◌^◌, ◌∷◌, ◌&&◌, [], ℕ, List, None, true, false, map, option_copied, position};
ghost use Rattle.std.specs.Prelude.{IfErr, IsOk, OnOk, OnErr};
ghost use Rattle.std.specs.Map.{keys_of};
ghost use Rattle.indexmap.specs.IndexMap.{get, hasher_of};
ghost use Rattle.dns_name.specs.Order.{name_eq};
ghost use Rattle.dns_text.specs.declared.record.Question.{Question};
ghost use Rattle.ranked.specs.declared.find.Scope.TheVariants.{One};
ghost use Rattle.cell_store.specs.Count.{has_place_for, KeepPairs};
ghost use Rattle.cell_store.specs.Owner.{held_now};
ghost use Rattle.cell_store.specs.Store.{StayBut};
ghost use Rattle.shelf.specs.declared.shelf.KeptFlush.{KeptFlush};
ghost use Rattle.shelf.specs.Kept.{with_shown};
ghost use Rattle.shelf.specs.Losing.{EndBySteps};
ghost use Rattle.shelf.specs.Room.{fate_of, is_outranked, is_wanted, kind_fate, room_for, HasRoomFor};
ghost use Rattle.shelf.specs.Settling.{cleared_by, reached_at_once, HaveEnded, HaveStepped};
ghost use Rattle.shelf.specs.Told.{without};

use crate::ends::{Ends, drop_end, fit, no_ends, reset, touch};
use crate::fault::StoreFault;
use crate::flushing::{open_flush, remove_number, reserve, settle_flush, stands_first};
use crate::names::no_names;
use crate::room::Room;
use crate::settling::{
    REACHED_AT_ONCE, Settling, doubt_later, ends_first, reach_some, reserve_settlings,
};
use cell_store::{
    NameSeed, OwnerCells, Owners, admit_at, at, cells_at, forget_place, has_place_in, held_in,
};
use dns_name::{Name, NoMemory};
use ranked::{Fate, Find, Flush, Held, Scope, SharedFind};
use std::alloc::Global;

/// A flush that can be undone or redone.
#[derive(Drop)]
pub struct KeptFlush {
    pub flush: Flush,
    pub number: u64,
    /// Whether it is in force. An undone flush is not.
    pub shown: bool,
}

/// The cache without a history. For each cell it keeps the content without the flushes that can be undone,
/// and the content since each of these flushes that covers it.
#[derive(Drop)]
pub struct Shelf {
    pub alloc: Global,
    pub owners: Owners,
    /// The flushes that can be undone or redone, in the order of their numbers.
    pub kept: Vec<KeptFlush>,
    /// The greatest number of a flush so far.
    pub top: u64,
    /// The number of counted places.
    pub stored: u64,
    /// The most places that may be counted.
    pub limit: u64,
    /// Room for the numbers of the kept flushes, so that a sweep takes no memory.
    pub numbers: Vec<u64>,
    /// For each name, a moment before which a sweep finds nothing to remove there.
    pub ends: Ends,
    /// The permanent flushes of zones that have not reached the cells of each name yet, in the order of their numbers. There is room for
    /// each kept flush, so that to make one permanent takes no memory.
    pub settlings: Vec<Settling>,
}

impl KeptFlush {
    // Sets the flag, if the flush has this number.
    fn set_shown(&mut self, number: u64, shown: bool)
        ensures { self.new ≡ with_shown number shown self.old }
    {
        if self.number == number {
            self.shown = shown;
        }
    }
}

// Sets the flag of the flush with this number.
fn set_shown(kept: &mut Vec<KeptFlush>, number: u64, shown: bool)
    ensures { kept.new.items ≡ map (with_shown number shown) kept.old.items }
{
    for own in kept.iter_mut() {
        own.set_shown(number, shown);
    }
}

impl Shelf {
    ghost use Rattle.shelf.specs.Told.{Told, cell_at, shown_version, ForgetsName, HasAdmitted, HasFlushed, IsEmptyShelf, IsReplayed, IsSame, IsShelf, IsShown, JoinsOldest};
    ghost use Rattle.shelf.specs.Told.{HasEndedSince, HasSteppedSince, KeepsFlushes, LetsGo, LosesOnly, ShowsOldest, ShowsSameIf, TurnsFlush};
    ghost use Rattle.shelf.specs.Stored.{count_pairs, pairs_in, CountsFaces, CountsReplayed, HasAdmittedEach};
    ghost use Rattle.shelf.specs.Admission.{IsAdmission};
    ghost use Rattle.shelf.specs.Oldest.{IsEnding};

    /// An empty cache of at most `limit` places, whose index hashes with the fixed seed. It is for scripts and tests.
    pub fn new(alloc: Global, limit: u64) -> Shelf
        requires { limit ≤ 2 ^ 62 }
        ensures { IsEmptyShelf limit result }
    {
        Shelf::seeded(alloc, limit, 0, NameSeed::fixed())
    }

    /// An empty cache whose index hashes with a seed that the program drew, since strangers choose the names. If there is memory, the
    /// index has room for so many names from the start, and for as many more: a name that goes does not always leave its room to another.
    pub fn seeded(alloc: Global, limit: u64, room: usize, seed: NameSeed) -> Shelf
        requires { limit ≤ 2 ^ 62 }
        ensures empty { IsEmptyShelf limit result }
        ensures seed { hasher_of result.owners ≡ seed }
    {
        Shelf {
            alloc,
            owners: no_names(alloc, room, seed),
            kept: Vec::new(alloc),
            top: 0,
            stored: 0,
            limit,
            numbers: Vec::new(alloc),
            ends: no_ends(alloc),
            settlings: Vec::new(alloc),
        }
    }

    // The version of a question that is in force.
    pub(crate) fn version(&self, owner: &Name, kind: u16) -> u64
        ensures { result ≡ shown_version self.now.kept.items (record { owner = owner.now; kind = kind }) }
    {
        // Of the flushes that cover the question, the newest in force decides.
        let mut place = self.kept.len();
        while place > 0 {
            place -= 1;
            let own = &self.kept[place];
            if own.shown && own.flush.covers(owner, kind) {
                return own.number;
            }
        }
        0
    }

    /// The number of counted places. It is at most the limit, and at most the number of different pairs among the admissions so far:
    /// the pair of a find is its owner and its scope. It is at least the number of different pairs among the finds
    /// that are alive at a moment, whatever choice of the kept flushes is in force.
    pub fn stored(&self) -> u64
        ensures value { result ≡ self.now.stored }
        ensures limit { IsShelf self.now → result ≤ self.now.limit }
        ensures most { IsShelf self.now → (told : List Told) → HasAdmittedEach told self.now → result ≤ count_pairs (pairs_in told) }
        ensures least { IsShelf self.now → CountsFaces self.now result }
        ensures replayed { IsShelf self.now → CountsReplayed self.now result }
    {
        // `len` is called for its clause that the names differ, which the proof cites.
        let _ = self.owners.len();
        self.stored
    }

    // Whether a version has content of a type that is alive at the moment and outranks a find, by the cells of its owner.
    fn turns_away(
        &self,
        find: &Find,
        cells: Option<&OwnerCells>,
        kind: u16,
        version: u64,
        moment: u64,
    ) -> bool
        requires { option_copied cells ≡ get name_eq self.now.owners find.now.owner }
        ensures { result ≡ is_outranked self.now find.now kind version moment }
    {
        let version = self.settled(&find.owner, version);
        match held_in(cells, kind, version, moment) {
            Some(shown) => find.rank.level() < shown.rank.level(),
            None => false,
        }
    }

    // Whether some version would cache a find of a type.
    fn is_taken(&self, find: &Find, cells: Option<&OwnerCells>, kind: u16, moment: u64) -> bool
        requires { option_copied cells ≡ get name_eq self.now.owners find.now.owner }
        ensures { result ≡ is_wanted self.now find.now moment (One kind) }
    {
        if !self.turns_away(find, cells, kind, 0, moment) {
            return true;
        }
        for own in &self.kept {
            if own.flush.covers(&find.owner, kind)
                && !self.turns_away(find, cells, kind, own.number, moment)
            {
                return true;
            }
        }
        false
    }

    // Whether some version would cache a find.
    fn is_wanted(&self, find: &Find, cells: Option<&OwnerCells>, moment: u64) -> bool
        requires { option_copied cells ≡ get name_eq self.now.owners find.now.owner }
        ensures { result ≡ is_wanted self.now find.now moment find.now.scope }
    {
        match find.scope {
            Scope::One(kind) => self.is_taken(find, cells, kind, moment),
            Scope::Whole => true,
        }
    }

    // Whether there is room for a find, by the place that a look-up has found for its owner.
    fn room_for(&self, find: &Find, place: Option<usize>, moment: u64) -> Room
        requires { place ≡ position (name_eq find.now.owner) (keys_of self.now.owners.entries) }
        ensures { result ≡ room_for self.now find.now moment }
    {
        let cells = cells_at(&self.owners, place);
        if has_place_in(cells, find.scope) {
            return Room::Free;
        }
        if !self.is_wanted(find, cells, moment) {
            return Room::Unwanted;
        }
        if self.stored == self.limit {
            return Room::Full;
        }
        Room::Free
    }

    /// Whether the version in force would cache a find, or has content that is alive at the moment and outranks it.
    pub fn fate(&self, find: &Find, moment: u64) -> Fate
        ensures { result ≡ fate_of self.now find.now moment find.now.scope }
    {
        match find.scope {
            Scope::One(kind) => self.kind_fate(find, self.owners.get(&find.owner), kind, moment),
            Scope::Whole => Fate::Taken,
        }
    }

    /// The same, by the place that a look-up has found for the owner.
    pub fn fate_at(&self, find: &Find, place: Option<usize>, moment: u64) -> Fate
        requires { place ≡ position (name_eq find.now.owner) (keys_of self.now.owners.entries) }
        ensures { result ≡ fate_of self.now find.now moment find.now.scope }
    {
        match find.scope {
            Scope::One(kind) => self.kind_fate(find, cells_at(&self.owners, place), kind, moment),
            Scope::Whole => Fate::Taken,
        }
    }

    // The same for a find of a type, by the cells of its owner.
    fn kind_fate(&self, find: &Find, cells: Option<&OwnerCells>, kind: u16, moment: u64) -> Fate
        requires { option_copied cells ≡ get name_eq self.now.owners find.now.owner }
        ensures { result ≡ kind_fate self.now find.now moment kind }
    {
        // A new name has nothing that outranks it, whichever flushes are in force.
        if cells.is_none() {
            return Fate::Taken;
        }
        let version = self.version(&find.owner, kind);
        if self.turns_away(find, cells, kind, version, moment) {
            Fate::Outranked
        } else {
            Fate::Taken
        }
    }

    /// The place of a name in the index, if it has cells. It hashes the name once.
    pub fn place_of(&self, owner: &Name) -> Option<usize>
        ensures { result ≡ position (name_eq owner.now) (keys_of self.now.owners.entries) }
    {
        self.owners.get_index_of(owner)
    }

    /// Caches a find in each version, unless the content there is alive at the moment and outranks it.
    /// The fault is `Full` only if the find needs a new place and the counted places are at the limit.
    /// If its place is counted already, it takes no memory and is not refused. Its place is counted if a find of the same owner and scope
    /// is alive at the moment, whatever choice of the kept flushes is in force.
    /// `Full` never comes before as many different pairs of owner and scope were admitted as the limit.
    pub fn admit(&mut self, find: SharedFind, moment: u64) -> Result<(), StoreFault>
        requires whole { IsShelf self.old }
        ensures { IsAdmission find moment self.old self.new result }
    {
        let place = self.place_of(&find.find().owner);
        self.admit_at(find, place, moment)
    }

    /// Does the same, by the place that a look-up has found for the owner. It hashes the owner only to insert it.
    pub fn admit_at(
        &mut self,
        find: SharedFind,
        place: Option<usize>,
        moment: u64,
    ) -> Result<(), StoreFault>
        requires place { place ≡ position (name_eq find.owner) (keys_of self.old.owners.entries) }
        requires whole { IsShelf self.old }
        ensures { IsAdmission find moment self.old self.new result }
    {
        match self.room_for(find.find(), place, moment) {
            Room::Unwanted => Ok(()),
            Room::Full => Err(StoreFault::Full {
                stored: self.stored(),
            }),
            Room::Free => self.hold(find, place, moment),
        }
    }

    // Caches a find, if there is room for its place, by the place that a look-up has found for its owner.
    fn hold(
        &mut self,
        find: SharedFind,
        place: Option<usize>,
        moment: u64,
    ) -> Result<(), StoreFault>
        requires whole { IsShelf self.old }
        requires room { HasRoomFor find place self.old }
        ensures whole { IsShelf self.new }
        ensures admitted { OnOk result (HasAdmitted find moment self.old self.new) }
        ensures fault { IfErr result (λ fault. fault ≡ StoreFault.NoMemory) × (has_place_for self.old.owners find ≡ true → IsOk result) }
        ensures same { OnErr result (IsSame self.old self.new) }
        ensures kept { KeepsFlushes self.old self.new × (self.new.stored ≤ self.old.stored + 1) }
        ensures left { OnOk result (HaveStepped reached_at_once self.old.settlings.items self.new.settlings.items) }
    {
        touch(&mut self.ends, place)?;
        let result = admit_at(
            self.alloc,
            &mut self.owners,
            &mut self.stored,
            place,
            find,
            moment,
            self.top,
        );
        fit(&self.owners, &mut self.ends);
        self.ends.lasts.follow(&self.owners);
        result?;
        self.reach_names();
        Ok(())
    }

    /// The find of a question, by the flushes in force, if it is alive at the moment. It takes no memory.
    pub fn show(&self, owner: &Name, kind: u16, moment: u64) -> Option<Held<'_>>
        ensures cell { IsShown self.now owner.now kind moment (held_now result) }
        ensures cells { IsReplayed self.now owner.now kind moment (held_now result) }
    {
        let version = self.settled(owner, self.version(owner, kind));
        at(&self.owners, owner, kind, version, moment)
    }

    // The find of a question, by the cells of its owner.
    fn shown_in<'a>(
        &'a self,
        cells: Option<&'a OwnerCells>,
        owner: &Name,
        kind: u16,
        moment: u64,
    ) -> Option<Held<'a>>
        requires { option_copied cells ≡ get name_eq self.now.owners owner.now }
        ensures { IsShown self.now owner.now kind moment (held_now result) }
    {
        let version = self.settled(owner, self.version(owner, kind));
        held_in(cells, kind, version, moment)
    }

    /// The finds of two types of a name, each as `show` gives it. It looks the name up once.
    pub fn show_both(
        &self,
        owner: &Name,
        first: u16,
        second: u16,
        moment: u64,
    ) -> (Option<Held<'_>>, Option<Held<'_>>)
        ensures first { IsShown self.now owner.now first moment (held_now result.0) }
        ensures second { IsShown self.now owner.now second moment (held_now result.1) }
    {
        let cells = self.owners.get(owner);
        (
            self.shown_in(cells, owner, first, moment),
            self.shown_in(cells, owner, second, moment),
        )
    }

    /// Undoes a flush. It clears one flag, however much the flush covers.
    pub fn hide(&mut self, number: u64)
        ensures turns { TurnsFlush number false self.old self.new }
        ensures whole { IsShelf self.old → IsShelf self.new }
    {
        set_shown(&mut self.kept, number, false);
    }

    /// Redoes a flush, in its place among the others. It sets one flag.
    pub fn unhide(&mut self, number: u64)
        ensures turns { TurnsFlush number true self.old self.new }
        ensures whole { IsShelf self.old → IsShelf self.new }
    {
        set_shown(&mut self.kept, number, true);
    }

    /// Makes a flush that can be undone or redone. It visits no cell: the versions from its number on have no entry, and so are empty.
    /// It takes memory for its entry, and for columns of the name if NXDOMAIN is cached for it.
    pub fn open_flush(&mut self, flush: Flush, number: u64) -> Result<(), NoMemory>
        requires newest { self.old.top < number }
        requires whole { IsShelf self.old }
        ensures whole { IsShelf self.new }
        ensures flushed { OnOk result (HasFlushed flush number self.old self.new) }
        ensures same { OnErr result (IsSame self.old self.new) }
        ensures limit { self.new.limit ≡ self.old.limit }
        ensures stored { self.new.stored ≡ self.old.stored }
        ensures entries { StayBut flush.name self.old.owners.entries self.new.owners.entries }
    {
        reserve(&mut self.numbers, self.kept.len())?;
        reserve_settlings(&mut self.settlings, self.kept.len())?;
        reset(&self.owners, &mut self.ends, &flush.name);
        open_flush(&mut self.owners, &flush, self.top)?;
        self.kept.push(KeptFlush {
            flush,
            number,
            shown: true,
        })?;
        self.top = number;
        Ok(())
    }

    /// Removes a name, from every version. It takes no memory.
    pub fn forget(&mut self, owner: &Name)
        requires whole { IsShelf self.old }
        ensures loses { LosesOnly self.old self.new }
        ensures faces { ForgetsName owner.now self.old self.new }
        ensures gone { get name_eq self.new.owners owner.now ≡ None }

        // Fewer places are counted, if a find of the name was alive, whatever choice of the kept flushes was in force.
        ensures fewer { (t end : ℕ) → IsEnding self.old t owner.now end → self.new.stored < self.old.stored }
    {
        let place = forget_place(&mut self.owners, &mut self.stored, owner);
        drop_end(&mut self.ends, place);
        self.ends.lasts.remove(&self.owners, place);
    }

    /// Makes a flush permanent if it is the oldest and in force. Else drops it for good. It takes no memory. A flush of a zone is permanent
    /// at once, and reaches the names a few at a time: here, at later admissions, and the rest at a sweep. The oldest such flush comes
    /// first, however many there are. If a flush is dropped, none reaches a name, since a command may drop as many as the journal keeps.
    /// Then only some names in doubt are ended, if these come first.
    pub fn settle(&mut self, number: u64)
        requires whole { IsShelf self.old }
        ensures gone { LetsGo number self.old self.new }
        ensures left { HasSteppedSince number self.old self.new }
        ensures dropped { HasEndedSince number self.old self.new }
    {
        if stands_first(&self.kept, number) {
            self.settle_oldest();
            self.reach_names();
            return;
        }
        self.settle_cleared(number);
        self.end_doubt();
    }

    // Ends some names in doubt, if these come before all permanent flushes of zones. It takes no memory.
    fn end_doubt(&mut self)
        requires whole { IsShelf self.old }
        ensures loses { LosesOnly self.old self.new }
        ensures cells { (q : Question) (v : ℕ) → cell_at self.new q v ≡ cell_at self.old q v }
        ensures ended { HaveEnded self.old.settlings.items self.new.settlings.items }
    {
        if ends_first(&self.settlings) {
            self.reach_names();
        }
    }

    // Lets the oldest permanent flush reach some names more. It takes no memory.
    pub(crate) fn reach_names(&mut self)
        requires whole { IsShelf self.old }
        ensures loses { LosesOnly self.old self.new }
        ensures cells { (q : Question) (v : ℕ) → cell_at self.new q v ≡ cell_at self.old q v }
        ensures left { HaveStepped reached_at_once self.old.settlings.items self.new.settlings.items }
        ensures ended { EndBySteps self.old.settlings.items self.new.settlings.items self.old.ends self.new.ends }
    {
        reach_some(
            &mut self.owners,
            &mut self.ends,
            &mut self.stored,
            &mut self.settlings,
            REACHED_AT_ONCE,
        );
    }

    /// Makes the oldest flush permanent: it can no longer be undone, and the versions before it go. It takes no memory.
    pub fn settle_oldest(&mut self)
        requires whole { IsShelf self.old }
        ensures whole { IsShelf self.new }
        ensures faces { ShowsOldest self.old self.new }
        ensures kept { (own : KeptFlush) (later : List KeptFlush) →
            self.old.kept.items ≡ own ∷ later → self.new.kept.items ≡ later }
        ensures none { self.old.kept.items ≡ [] → self.new ≡ self.old }
        ensures bounds { (self.new.top ≡ self.old.top) × (self.new.limit ≡ self.old.limit) × (self.new.stored ≤ self.old.stored) }
        ensures pairs { KeepPairs self.old.owners self.new.owners }
        ensures settlings { JoinsOldest self.old self.new }
    {
        if self.kept.is_empty() {
            return;
        }
        let own = self.kept.remove(0);
        settle_flush(
            self.alloc,
            &mut self.owners,
            &mut self.ends,
            &mut self.stored,
            &mut self.settlings,
            own.flush,
            own.number,
        );
    }

    /// Drops an undone flush for good: it can no longer be redone. Its versions go at the next sweep, which visits only the names
    /// where they may differ. It takes no memory.
    pub fn settle_cleared(&mut self, number: u64)
        ensures whole { IsShelf self.old → IsShelf self.new }
        ensures faces { ShowsSameIf number false self.old self.new }
        ensures kept { self.new.kept.items ≡ without number self.old.kept.items }
        ensures top { self.new.top ≡ self.old.top }
        ensures limit { self.new.limit ≡ self.old.limit }
        ensures stored { self.new.stored ≡ self.old.stored }
        ensures owners { self.new.owners ≡ self.old.owners }
        ensures settlings { IsShelf self.old → self.new.settlings.items ≡ cleared_by number self.old }
    {
        let before = self.kept.len();
        remove_number(&mut self.kept, number);
        if self.kept.len() < before {
            doubt_later(
                self.alloc,
                &self.owners,
                &mut self.ends,
                &mut self.settlings,
            );
        }
    }
}
