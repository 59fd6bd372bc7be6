//! New books with journals of so many commands, and with room for so many cells.

ghost use Rattle.std.specs.Prelude.{[], IfOk};
ghost use Rattle.shared_book.specs.Fresh.{CanShare};

use dns_text::Items;
use history::{Book, MakeFault, Settings};
use std::alloc::Global;
use undo_book::{PlainBook, ShelfBook};

fn settings(alloc: Global, journal: usize, cells: usize) -> Settings {
    Settings {
        journal,
        cells,
        hints: Items::new(Vec::new(alloc)),
        server_port: 53,
    }
}

/// A book that replays its history.
pub fn plain_book(alloc: Global, journal: usize, cells: usize) -> Result<PlainBook, MakeFault>
    ensures { IfOk result (λ b. ⟦<PlainBook as Book>⟧.stands_for b []) }
{
    PlainBook::new(alloc, settings(alloc, journal, cells))
}

/// The same, and an opening book to it.
pub fn plain_books(
    alloc: Global,
    journal: usize,
    cells: usize,
) -> Result<(PlainBook, PlainBook), MakeFault>
    ensures { IfOk result (λ b. CanShare ⟦<PlainBook as Book>⟧.stands_for ⟦<PlainBook as Book>⟧.settings b.0 b.1) }
{
    let settings = settings(alloc, journal, cells);
    let opening = PlainBook::lagging(alloc, &settings)?;
    let book = PlainBook::new(alloc, settings)?;
    Ok((book, opening))
}

/// A book that keeps no history.
pub fn shelf_book(alloc: Global, journal: usize, cells: usize) -> Result<ShelfBook, MakeFault> {
    ShelfBook::new(alloc, settings(alloc, journal, cells))
}

/// The same, and an opening book to it.
pub fn shelf_books(
    alloc: Global,
    journal: usize,
    cells: usize,
) -> Result<(ShelfBook, ShelfBook), MakeFault>
    ensures { IfOk result (λ b. CanShare ⟦<ShelfBook as Book>⟧.stands_for ⟦<ShelfBook as Book>⟧.settings b.0 b.1) }
{
    let settings = settings(alloc, journal, cells);
    let opening = ShelfBook::lagging(alloc, &settings)?;
    let book = ShelfBook::new(alloc, settings)?;
    Ok((book, opening))
}
