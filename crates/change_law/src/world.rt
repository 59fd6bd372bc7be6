//! The world: its face, and the changes that it keeps.

ghost use Rattle.std.specs.Prelude.{◌≡◌, ◌<◌, ◌≤◌, ◌+◌, ◌^◌, ℕ, Bool, true, false, List, Option, IfOk, IfErr, IfSome, IfNone, IsOk, OnOk, OnErr, IsErrOf};
ghost use Rattle.dns_name.specs.Labels.{Labels};
ghost use Rattle.ranked.specs.declared.find.Scope.{Scope};
ghost use Rattle.change_law.specs.declared.kept.KeptChange.{KeptChange};
ghost use Rattle.change_law.specs.Face.{Face, face_with, face_without, fate_in};
ghost use Rattle.change_law.specs.Row.{IsEachRow, IsEachRowFrom, IsNoMore, IsOneMore, IsRefused, KeepsCleared, ReadsChosen, ShowsPresent};
ghost use Rattle.change_law.specs.Pairs.{AreNeeded, CountsNoneOf, HoldsIfAlive, pair_of};
ghost use Rattle.change_law.specs.Oldest.{HasNoneEnding, HoldsIfEnding, IsOldestOf};

use crate::fault::WorldFault;
use dns_name::Name;
use ranked::{Fate, SharedFind};

/// Tables and cells that changes are made to, with the data for their way back.
///
/// A world keeps changes. For each choice of them it has a face: the tables and cells if only the chosen changes were in effect.
/// It shows the face of the changes that are in effect. The constructor of a world must also promise that it keeps nothing yet:
/// a world that never keeps a change would meet every clause below.
pub trait World: Drop {
    /// The part of a face without its cells.
    type Tables;

    /// The data that a change saves for its way back.
    type Saved: Drop;

    /// The description of a kept change, for example its command.
    type Told;

    /// Whether it has cells. A world of tables alone has none.
    ghost has_cells: { Bool };

    /// The table of a change, by the data that it saved. A change of cells has none.
    ghost table: { Self.Saved → Option ℕ };

    /// The description of a change, by the data that it saved.
    ghost told: { Self.Saved → Self.Told };

    /// Whether the next step of a change, which is its undo or its redo, may need memory, by the data that it saved.
    ghost needs_memory: { Self.Saved → Bool };

    /// Whether the step after that one may.
    ghost needs_memory_after: { Self.Saved → Bool };

    /// The world keeps these changes, the oldest first.
    ghost keeps: { Self → List (KeptChange Self.Saved) → Type 0 };

    /// Its face if, of the changes that it keeps, only the chosen ones were in effect.
    ghost face: { Self → List (KeptChange Self.Saved) → (ℕ → Bool) → Face Self.Tables };

    /// A bound of the tickets that it was given.
    ghost newest: { Self → ℕ };

    /// The face that it shows.
    ghost shown: { Self → Face Self.Tables };

    /// The number of cells that it stores.
    ghost stored: { Self → ℕ };

    /// The most cells that it may store.
    ghost limit: { Self → ℕ };

    /// Whether the place of a pair counts: that of the finds of one owner and scope. As many count as cells are stored.
    ghost counts: { Self → (Labels × Scope) → Bool };

    /// A bound of what a sweep at a moment has left to do.
    ghost unswept: { Self → ℕ → ℕ };

    /// A bound of what one call of `sweep_some` takes from it, but at the latest moment that a clock can show.
    ghost turn: { ℕ };

    /// The number of the table of a change, by the data that it saved. A change of cells has none.
    fn table(saved: &Self::Saved) -> Option<u8>
        ensures { result ≡ table saved.now };

    /// Admits a find, to each face separately. It is `Full` only if the world stores as many cells as it may.
    fn admit(&mut self, find: SharedFind, moment: u64) -> Result<Fate, WorldFault>
        ensures told { IfOk result (λ fate. fate ≡ fate_in (shown self.old) find moment find.scope) }
        ensures row { OnOk result (IsEachRowFrom table keeps face moment (face_with has_cells find moment) self.old self.new) }
        ensures err { OnErr result (IsRefused table keeps face newest stored counts self.old self.new) }
        ensures full { (n : ℕ) → IsErrOf result (WorldFault.Full n) → (stored self.old ≡ n) × (limit self.old ≡ n) }

        // A world that stores as many cells as it may refuses no find for want of memory: it is full.
        ensures at_limit { stored self.old ≡ limit self.old → IfErr result (λ fault. fault ≡ WorldFault.Full (stored self.old)) }

        // A find is not refused if one of its pair is alive, by whichever choice of the kept changes.
        ensures free { HoldsIfAlive table keeps face self.old moment (pair_of find) (IsOk result) }

        // One admission stores one more cell at most: that of the find's pair.
        ensures counts { IsOneMore newest stored limit counts (pair_of find) self.old self.new };

    /// Removes content that has expired at a moment. From that moment on, no face changes by it. Afterwards only what is needed counts: some
    /// find about it is alive, by some choice of the kept changes.
    fn sweep(&mut self, moment: u64)
        ensures row { IsEachRowFrom table keeps face moment (λ f. f) self.old self.new }
        ensures counts { IsNoMore newest stored limit counts self.old self.new }
        ensures none { unswept self.new moment ≡ 0 }
        ensures needed { AreNeeded counts keeps face moment self.new };

    /// Removes some of that content, so that no call is long, and returns whether there may be more of it. If it returns `true`, less is
    /// left than before. If it returns `false`, nothing is.
    fn sweep_some(&mut self, moment: u64) -> bool
        ensures row { IsEachRowFrom table keeps face moment (λ f. f) self.old self.new }
        ensures counts { IsNoMore newest stored limit counts self.old self.new }
        ensures more { result ≡ true → unswept self.new moment < unswept self.old moment }
        ensures none { result ≡ false → unswept self.new moment ≡ 0 }
        ensures short { moment + 1 < 2 ^ 64 → unswept self.old moment ≤ unswept self.new moment + turn }
        ensures needed { result ≡ false → AreNeeded counts keeps face moment self.new };

    /// Forgets a name: empties its cells, in each face, whichever changes are chosen. Undoing a change does not bring them back.
    /// It takes no memory.
    fn forget(&mut self, owner: &Name)
        ensures row { IsEachRow table keeps face (face_without has_cells owner.now) self.old self.new }
        ensures counts { IsNoMore newest stored limit counts self.old self.new }
        ensures gone { CountsNoneOf counts owner.now self.new }

        // Fewer cells are stored, if a find of the name was alive, by whichever choice of the kept changes.
        ensures fewer { HoldsIfEnding table keeps face self.old owner.now (stored self.new < stored self.old) };

    /// The name to forget first when no more cells fit: the one whose last find ends first, of the names that have a find alive at a moment,
    /// by whichever choice of the kept changes. Of names whose last finds end in the same second it is the first in the order of names.
    /// It takes no memory.
    fn oldest(&self, moment: u64) -> Option<&Name>
        ensures some { IfSome result (λ name. IsOldestOf table keeps face self.now moment name.now) }
        ensures none { IfNone result (HasNoneEnding table keeps face self.now moment) };

    /// A law: the face that it shows is the face of the changes in effect.
    ghost shows: { (world : Self) → ShowsPresent keeps face shown world };

    /// A law: the cells of a face depend only on which of the kept changes are chosen.
    ghost reads: { (world : Self) → ReadsChosen keeps face world };

    /// A law: at a later moment a sweep has no less to do.
    ghost later: { (world : Self) (s t : ℕ) → s ≤ t → unswept world s ≤ unswept world t };

    /// A law: to clear the undone changes, no call is needed. Each face is as before.
    ghost clears: { (world : Self) → KeepsCleared table keeps face world };
}
