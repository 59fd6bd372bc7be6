//! The name to forget first.

ghost use Rattle.std.specs.Prelude.{◌<◌};
ghost use Rattle.shelf.specs.Told.{IsShelf};

use crate::checks::Checks;
use crate::finds::{LONG_ADDRESS, address, shared_find};
use dns_name::Name;
use dns_text::types;
use ranked::{Flush, Rank, Reach};
use shelf::Shelf;
use std::alloc::Global;

fn is_oldest(shelf: &Shelf, moment: u64, owner: &Name) -> bool
    requires { IsShelf shelf.now }
{
    match shelf.oldest(moment) {
        Some(name) => *name == *owner,
        None => false,
    }
}

fn alive_without_a_flush(
    checks: &mut Checks,
    alloc: Global,
    shelf: &mut Shelf,
) -> anyhow::Result<()>
    requires whole { IsShelf shelf.old }
    requires newest { shelf.old.top < 1 }
{
    let owner = Name::from_text(alloc, b"a")?;
    shelf.admit(address(alloc, b"a", Rank::Answer, 60)?, 0)?;
    let flush = Flush {
        name: owner.clone()?,
        reach: Reach::OneType(types::A),
    };
    shelf.open_flush(flush, 1)?;
    checks.that(shelf.show(&owner, types::A, 0).is_none());
    checks.that(is_oldest(shelf, 0, &owner));
    checks.that(shelf.oldest(60).is_none());
    Ok(())
}

/// A name that only an undo would bring back is there to be forgotten.
pub fn a_name_that_is_alive_without_a_flush(
    checks: &mut Checks,
    alloc: Global,
) -> anyhow::Result<()> {
    alive_without_a_flush(checks, alloc, &mut Shelf::new(alloc, 1))
}

fn in_order(checks: &mut Checks, alloc: Global, shelf: &mut Shelf) -> anyhow::Result<()>
    requires { IsShelf shelf.old }
{
    let first = Name::from_text(alloc, b"b.test")?;
    let second = Name::from_text(alloc, b"c.test")?;
    let last = Name::from_text(alloc, b"a.test")?;
    checks.that(shelf.oldest(0).is_none());
    shelf.admit(address(alloc, b"c.test", Rank::Answer, 60)?, 0)?;
    shelf.admit(address(alloc, b"a.test", Rank::Answer, 90)?, 0)?;
    shelf.admit(address(alloc, b"b.test", Rank::Answer, 60)?, 0)?;
    checks.that(is_oldest(shelf, 0, &first));
    shelf.sweep(0);
    checks.that(is_oldest(shelf, 59, &first));
    shelf.forget(&first);
    checks.that(is_oldest(shelf, 59, &second));
    checks.that(is_oldest(shelf, 60, &last));
    checks.that(shelf.oldest(90).is_none());
    Ok(())
}

/// Of names that end in the same second the first in their order comes first, whenever they came.
pub fn names_in_the_order_of_their_ends(checks: &mut Checks, alloc: Global) -> anyhow::Result<()> {
    in_order(checks, alloc, &mut Shelf::new(alloc, 3))
}

fn in_one_second(checks: &mut Checks, alloc: Global, shelf: &mut Shelf) -> anyhow::Result<()>
    requires { IsShelf shelf.old }
{
    let first = Name::from_text(alloc, b"a.test")?;
    let second = Name::from_text(alloc, b"b.test")?;
    let third = Name::from_text(alloc, b"c.test")?;
    shelf.admit(address(alloc, b"d.test", Rank::Answer, 60)?, 0)?;
    shelf.admit(address(alloc, b"b.test", Rank::Answer, 60)?, 0)?;
    shelf.admit(address(alloc, b"e.test", Rank::Answer, 60)?, 0)?;
    shelf.admit(address(alloc, b"a.test", Rank::Answer, 60)?, 0)?;
    shelf.admit(address(alloc, b"c.test", Rank::Answer, 60)?, 0)?;
    shelf.sweep(0);
    checks.that(is_oldest(shelf, 0, &first));
    shelf.forget(&first);
    checks.that(is_oldest(shelf, 0, &second));
    shelf.admit(address(alloc, b"b.test", Rank::Answer, 90)?, 0)?;
    checks.that(is_oldest(shelf, 0, &third));
    shelf.sweep(0);
    checks.that(is_oldest(shelf, 0, &third));
    shelf.sweep(60);
    checks.that(is_oldest(shelf, 60, &second));
    Ok(())
}

/// Names that end in the same second go in their order, also once a sweep has noted the second.
pub fn names_that_end_in_one_second(checks: &mut Checks, alloc: Global) -> anyhow::Result<()> {
    in_one_second(checks, alloc, &mut Shelf::new(alloc, 5))
}

fn short_and_long(checks: &mut Checks, alloc: Global, shelf: &mut Shelf) -> anyhow::Result<()>
    requires { IsShelf shelf.old }
{
    let both = Name::from_text(alloc, b"a.test")?;
    let one = Name::from_text(alloc, b"b.test")?;
    shelf.admit(address(alloc, b"a.test", Rank::Answer, 60)?, 0)?;
    let long = shared_find(alloc, both.clone()?, LONG_ADDRESS, Rank::Answer, 600)?;
    shelf.admit(long, 0)?;
    shelf.admit(address(alloc, b"b.test", Rank::Answer, 300)?, 0)?;
    checks.that(is_oldest(shelf, 0, &one));
    shelf.sweep(0);
    checks.that(is_oldest(shelf, 0, &one));
    checks.that(is_oldest(shelf, 300, &both));
    shelf.admit(address(alloc, b"b.test", Rank::Answer, 900)?, 0)?;
    checks.that(is_oldest(shelf, 0, &both));
    shelf.sweep(60);
    checks.that(is_oldest(shelf, 60, &both));
    shelf.forget(&both);
    checks.that(is_oldest(shelf, 60, &one));
    Ok(())
}

/// The last find of a name counts, whatever else it has that ends sooner.
pub fn short_and_long_data_of_one_name(checks: &mut Checks, alloc: Global) -> anyhow::Result<()> {
    short_and_long(checks, alloc, &mut Shelf::new(alloc, 3))
}

fn in_turn(checks: &mut Checks, alloc: Global, shelf: &mut Shelf) -> anyhow::Result<()>
    requires { IsShelf shelf.old }
{
    for step in 0..26u8 {
        let letter = (7 * step + 3) % 26;
        let seconds = 60 + u32::from(letter % 3);
        shelf.admit(address(alloc, &[b'a' + letter], Rank::Answer, seconds)?, 0)?;
    }
    shelf.sweep(0);
    for step in 0..26u8 {
        let letter = step % 9 * 3 + step / 9;
        let owner = Name::from_text(alloc, &[b'a' + letter])?;
        checks.that(is_oldest(shelf, 0, &owner));
        shelf.forget(&owner);
    }
    checks.that(shelf.oldest(0).is_none());
    Ok(())
}

/// However the names came, each is the next to go once those before it have gone: by its second, and then by its letter.
pub fn names_that_go_one_by_one(checks: &mut Checks, alloc: Global) -> anyhow::Result<()> {
    in_turn(checks, alloc, &mut Shelf::new(alloc, 26))
}

fn flushed_and_undone(checks: &mut Checks, alloc: Global, shelf: &mut Shelf) -> anyhow::Result<()>
    requires whole { IsShelf shelf.old }
    requires newest { shelf.old.top < 1 }
{
    let flushed = Name::from_text(alloc, b"a.test")?;
    let other = Name::from_text(alloc, b"b.test")?;
    shelf.admit(address(alloc, b"a.test", Rank::Answer, 900)?, 0)?;
    shelf.admit(address(alloc, b"b.test", Rank::Answer, 300)?, 0)?;
    shelf.sweep(0);
    let flush = Flush {
        name: flushed.clone()?,
        reach: Reach::Zone,
    };
    shelf.open_flush(flush, 1)?;
    shelf.sweep(0);
    checks.that(is_oldest(shelf, 0, &other));
    shelf.hide(1);
    checks.that(is_oldest(shelf, 0, &other));
    shelf.unhide(1);
    shelf.settle(1);
    checks.that(is_oldest(shelf, 0, &other));
    checks.that(shelf.oldest(300).is_none());
    shelf.sweep(0);
    checks.that(is_oldest(shelf, 0, &other));
    checks.that(shelf.oldest(300).is_none());
    Ok(())
}

/// A flush that can be undone leaves the find that it hides alive. Once it is permanent, the find is gone.
pub fn a_name_that_is_flushed_for_good(checks: &mut Checks, alloc: Global) -> anyhow::Result<()> {
    flushed_and_undone(checks, alloc, &mut Shelf::new(alloc, 2))
}
