//! A shelf, from its first find to its last.

ghost use Rattle.std.specs.Prelude.{◌≡◌};
ghost use Rattle.shelf.specs.Told.{IsShelf};

use crate::checks::Checks;
use crate::finds::{address, letters};
use cell_store::NameSeed;
use dns_name::Name;
use dns_text::{Question, types};
use ranked::{Flush, Rank, Reach, SharedFind};
use shelf::{Shelf, StoreFault};
use std::alloc::Global;

/// The address of a name, which lives for 60 seconds.
fn find(alloc: Global, owner: &[u8]) -> anyhow::Result<SharedFind> {
    address(alloc, owner, Rank::Answer, 60)
}

/// The seconds that the cached address of a name has left.
fn left(shelf: &Shelf, owner: &Name, moment: u64) -> Option<u32> {
    match shelf.show(owner, types::A, moment) {
        Some(held) => Some(held.left),
        None => None,
    }
}

fn undone_and_redone(checks: &mut Checks, alloc: Global, shelf: &mut Shelf) -> anyhow::Result<()>
    requires whole { IsShelf shelf.old }
    requires newest { shelf.old.top ≡ 0 }
{
    let owner = Name::from_text(alloc, b"a.test")?;
    shelf.admit(find(alloc, b"a.test")?, 0)?;
    let flush = Flush {
        name: Name::root(alloc),
        reach: Reach::Zone,
    };
    shelf.open_flush(flush, 1)?;
    checks.that(left(shelf, &owner, 1) == None);
    shelf.hide(1);
    checks.that(left(shelf, &owner, 1) == Some(59));
    shelf.unhide(1);
    checks.that(left(shelf, &owner, 1) == None);
    Ok(())
}

/// An undo of a flush brings back what it emptied, and a redo empties it again.
pub fn a_flush_is_undone_and_redone(checks: &mut Checks, alloc: Global) -> anyhow::Result<()> {
    undone_and_redone(checks, alloc, &mut Shelf::new(alloc, 1))
}

fn cached_in_both(checks: &mut Checks, alloc: Global, shelf: &mut Shelf) -> anyhow::Result<()>
    requires whole { IsShelf shelf.old }
    requires newest { shelf.old.top ≡ 0 }
{
    let owner = Name::from_text(alloc, b"a.test")?;
    let flush = Flush {
        name: owner.clone()?,
        reach: Reach::OneType(types::A),
    };
    shelf.open_flush(flush, 1)?;
    shelf.admit(find(alloc, b"a.test")?, 0)?;
    shelf.hide(1);
    checks.that(left(shelf, &owner, 0) == Some(60));
    shelf.settle(1);
    checks.that(left(shelf, &owner, 0) == Some(60));
    shelf.forget(&owner);
    checks.that(left(shelf, &owner, 0) == None);
    Ok(())
}

/// What came between a flush and its undo is there with the flush and without it.
pub fn a_find_is_cached_in_both_versions(checks: &mut Checks, alloc: Global) -> anyhow::Result<()> {
    cached_in_both(
        checks,
        alloc,
        &mut Shelf::seeded(alloc, 1, 1, NameSeed::new(7)),
    )
}

fn full_for_new(checks: &mut Checks, alloc: Global, shelf: &mut Shelf) -> anyhow::Result<()>
    requires { IsShelf shelf.old }
{
    shelf.admit(find(alloc, b"a.test")?, 0)?;
    let other = shelf.admit(find(alloc, b"b.test")?, 0);
    checks.that(matches!(other, Err(StoreFault::Full { stored: 1 })));
    shelf.admit(find(alloc, b"a.test")?, 1)?;
    shelf.sweep(60);
    checks.that(shelf.stored() == 1);
    shelf.sweep(61);
    checks.that(shelf.stored() == 0);
    Ok(())
}

/// A new name is one too many, and the one that is there is not.
pub fn full_for_a_new_name_alone(checks: &mut Checks, alloc: Global) -> anyhow::Result<()> {
    full_for_new(checks, alloc, &mut Shelf::new(alloc, 1))
}

/// A flush of the addresses of the name `a`.
fn flush_of_a(alloc: Global) -> anyhow::Result<Flush> {
    Ok(Flush {
        name: Name::from_text(alloc, b"a")?,
        reach: Reach::OneType(types::A),
    })
}

fn kept_after_flushes(checks: &mut Checks, alloc: Global, shelf: &mut Shelf) -> anyhow::Result<()>
    requires whole { IsShelf shelf.old }
    requires newest { shelf.old.top ≡ 0 }
{
    let question = Question {
        owner: Name::from_text(alloc, b"a")?,
        kind: types::A,
    };
    checks.that(shelf.kept(&question) == 0);
    shelf.admit(address(alloc, b"a", Rank::AuthoritativeAnswer, 60)?, 0)?;
    checks.that(shelf.kept(&question) == 1);
    shelf.open_flush(flush_of_a(alloc)?, 1)?;
    checks.that(shelf.kept(&question) == 2);
    shelf.open_flush(flush_of_a(alloc)?, 2)?;
    checks.that(shelf.kept(&question) == 2);
    shelf.open_flush(flush_of_a(alloc)?, 3)?;
    checks.that(shelf.kept(&question) == 2);
    shelf.admit(address(alloc, b"a", Rank::AuthoritativeAnswer, 60)?, 0)?;
    checks.that(shelf.kept(&question) == 1);
    Ok(())
}

/// Versions that are empty alike are one cell, and so are those that hold one find.
pub fn equal_neighbours_are_one_cell(checks: &mut Checks, alloc: Global) -> anyhow::Result<()> {
    kept_after_flushes(checks, alloc, &mut Shelf::new(alloc, 1))
}

/// Caches the addresses of so many names, each of two letters.
fn fill(alloc: Global, shelf: &mut Shelf, count: u16) -> anyhow::Result<()>
    requires whole { IsShelf shelf.old }
    requires newest { shelf.old.top ≡ 0 }
    ensures whole { IsShelf shelf.new }
    ensures newest { shelf.new.top ≡ 0 }
{
    for number in 0..count {
        shelf.admit(find(alloc, &letters(number))?, 0)?;
    }
    Ok(())
}

fn reached_later(checks: &mut Checks, alloc: Global, shelf: &mut Shelf) -> anyhow::Result<()>
    requires whole { IsShelf shelf.old }
    requires newest { shelf.old.top ≡ 0 }
{
    let first = Name::from_text(alloc, b"aa")?;
    fill(alloc, shelf, 300)?;
    let flush = Flush {
        name: Name::root(alloc),
        reach: Reach::Zone,
    };
    shelf.open_flush(flush, 1)?;
    checks.that(shelf.stored() == 300);
    shelf.settle(1);
    checks.that(left(shelf, &first, 1) == None);
    checks.that(shelf.stored() == 44);
    shelf.admit(find(alloc, b"b.test")?, 1)?;
    checks.that(shelf.stored() == 1);
    Ok(())
}

/// A permanent flush of everything is seen at once. It reaches 256 names then, and as many at each later admission.
pub fn a_permanent_flush_reaches_names_later(
    checks: &mut Checks,
    alloc: Global,
) -> anyhow::Result<()> {
    reached_later(checks, alloc, &mut Shelf::new(alloc, 301))
}

fn swept_in_turns(checks: &mut Checks, alloc: Global, shelf: &mut Shelf) -> anyhow::Result<()>
    requires whole { IsShelf shelf.old }
    requires newest { shelf.old.top ≡ 0 }
{
    fill(alloc, shelf, 300)?;
    checks.that(shelf.sweep_some(59));
    checks.that(!shelf.sweep_some(59));
    checks.that(shelf.stored() == 300);
    checks.that(shelf.sweep_some(60));
    checks.that(shelf.stored() == 44);
    checks.that(!shelf.sweep_some(60));
    checks.that(shelf.stored() == 0);
    Ok(())
}

/// A turn of a sweep visits 256 names at most. The last turn says that no more is left.
pub fn a_sweep_in_turns_removes_what_a_sweep_does(
    checks: &mut Checks,
    alloc: Global,
) -> anyhow::Result<()> {
    swept_in_turns(checks, alloc, &mut Shelf::new(alloc, 300))
}
