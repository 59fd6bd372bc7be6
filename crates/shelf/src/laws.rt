//! Laws of the counted places, by the admissions so far.

ghost use Rattle.std.specs.Prelude.{◌≡◌, [], ℕ, List};
ghost use Rattle.ranked.specs.declared.find.Find.{Find};
ghost use Rattle.ranked.specs.declared.flush.Flush.{Flush};
ghost use Rattle.cell_store.specs.Count.{KeepPairs};
ghost use Rattle.shelf.specs.declared.shelf.Shelf.{Shelf};
ghost use Rattle.shelf.specs.Stored.{AddsAdmitted, AddsFlushed, HasAdmittedEach, KeepsEach};
ghost use Rattle.shelf.specs.Told.{Told, IsShelf};

/// A law: each counted place is that of an admission. It holds of a cache that stores nothing, and each call keeps it.
/// `Shelf::stored` and `Shelf::admit` say what follows from it.
pub fn admitted_law()
    ensures none { (shelf : Shelf) → IsShelf shelf → shelf.stored ≡ 0 → HasAdmittedEach [] shelf }
    ensures kept { (told : List Told) (old new : Shelf) → KeepPairs old.owners new.owners → KeepsEach told old new }
    ensures admitted { (told : List Told) (find : Find) (t : ℕ) (old new : Shelf) → AddsAdmitted told find t old new }
    ensures flushed { (told : List Told) (flush : Flush) (n : ℕ) (old new : Shelf) → AddsFlushed told flush n old new }
{}
