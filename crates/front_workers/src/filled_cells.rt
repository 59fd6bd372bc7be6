//! The cells that the workers filled, and how many of them each zone has.

ghost use Rattle.std.specs.Prelude.{◌≡◌, ◌<◌, ◌≤◌, ◌+◌, ℕ, None, Some, IfOk, count_by, is_some, replicate, slice_get, slice_index, slice_set, vec_len};
ghost use Rattle.front_workers.specs.FilledCells.{allowed_of, end_in, is_marked, is_of, IsLookedOver, IsPlaceFor, NotesCell};
ghost use Rattle.front_workers.specs.declared.filled_cells.TheConstants.{ROW, ZONE_COUNTERS};

use dns_text::NoMemory;
use iterate::MOST_FINDS;
use std::alloc::Global;

/// The places of a row. A cell is noted in one place of the row that its hash chooses.
const ROW: usize = 16;

/// The counters of zones. Zones whose hashes choose the same one share it.
pub(crate) const ZONE_COUNTERS: usize = 16_384;

/// A zone may have as many cells as are free, divided by this.
pub(crate) const FREE_FOR_ZONE: usize = 8;

/// The cells that a zone may have however few are free: those of one response.
pub(crate) const LEAST_SHARE: usize = MOST_FINDS;

/// The places at which each response looks for cells whose time is up.
const LOOKED_AT: usize = 64;

/// A cell that a worker filled.
#[derive(Clone, Copy)]
pub(crate) struct Filled {
    /// The hash of its name and type.
    pub(crate) mark: u64,
    /// The counter of the zone that brought it.
    pub(crate) counter: usize,
    /// The moment, in milliseconds, at which it ends.
    pub(crate) until: u64,
}

/// The cells that the workers filled, each in a place of the row that its hash chooses, with the number of those of each zone. If
/// a row is full, the cell that ends first makes way, as it does in the cache.
#[derive(Drop)]
pub(crate) struct FilledCells {
    pub(crate) places: Vec<Option<Filled>>,
    /// For each counter the cells of its zones.
    held: Vec<usize>,
    taken: usize,
    /// The next place to look at for a cell whose time is up.
    cursor: usize,
    ghost counters: { vec_len held ≡ ZONE_COUNTERS },
    ghost all: { taken ≡ count_by is_some places.items },
    ghost each: { (counter : ℕ) → slice_index held.items counter ≡ count_by (is_of counter) places.items },
}

/// The moment at which the cell of a place ends. A place without one comes first.
fn end_of(place: Option<Filled>) -> u64
    ensures { result ≡ end_in place }
{
    match place {
        Some(cell) => cell.until,
        None => 0,
    }
}

/// Whether a place has the cell with this hash.
fn has_mark(place: Option<Filled>, mark: u64) -> bool
    ensures { result ≡ is_marked mark place }
{
    match place {
        Some(cell) => cell.mark == mark,
        None => false,
    }
}

impl FilledCells {
    /// So many places, all of them empty.
    pub(crate) fn new(alloc: Global, count: usize) -> Result<FilledCells, NoMemory>
        ensures { IfOk result (λ cells. cells.places.items ≡ replicate count None) }
    {
        Ok(FilledCells {
            places: Vec::from_elem(alloc, None, count)?,
            held: Vec::from_elem(alloc, 0, ZONE_COUNTERS)?,
            taken: 0,
            cursor: 0,
        })
    }

    /// Empties a place.
    fn empty(&mut self, place: usize)
        requires { place < vec_len self.old.places }
        ensures { self.new.places.items ≡ slice_set self.old.places.items place None }
    {
        let was = self.places[place];
        self.places[place] = None;
        if let Some(cell) = was {
            self.held[cell.counter] -= 1;
            self.taken -= 1;
        }
    }

    /// Fills an empty place.
    fn fill(&mut self, place: usize, cell: Filled)
        requires known { cell.counter < ZONE_COUNTERS }
        requires vacant { slice_get self.old.places.items place ≡ Some None }
        ensures { self.new.places.items ≡ slice_set self.old.places.items place (Some cell) }
    {
        self.places[place] = Some(cell);
        self.held[cell.counter] += 1;
        self.taken += 1;
    }

    /// Empties those of the next few places whose cells have ended.
    fn retire(&mut self, now: u64)
        ensures { IsLookedOver now self.old.cursor self.old.places.items self.new.places.items self.new.cursor }
    {
        for looked in 0..LOOKED_AT {
            if self.cursor >= self.places.len() {
                self.cursor = 0;
                return;
            }
            let place = self.cursor;
            if end_of(self.places[place]) <= now {
                self.empty(place);
            }
            self.cursor = place + 1;
        }
    }

    /// How many cells more the zones of a counter may fill with one response.
    pub(crate) fn allowed(&mut self, counter: usize, now: u64) -> usize
        requires { counter < ZONE_COUNTERS }
        ensures looked { IsLookedOver now self.old.cursor self.old.places.items self.new.places.items self.new.cursor }
        ensures allowed { result ≡ allowed_of self.new.places.items counter }
    {
        self.retire(now);
        let free = self.places.len() - self.taken;
        let share = (free / FREE_FOR_ZONE).max(LEAST_SHARE);
        share.saturating_sub(self.held[counter]).min(MOST_FINDS)
    }

    /// The place for a cell in the row that begins here: its own if it has one, else the one that ends first.
    fn place_of(&self, first: usize, mark: u64) -> usize
        requires { first + ROW ≤ vec_len self.now.places }
        ensures within { result < vec_len self.now.places }
        ensures place { IsPlaceFor self.now.places.items first mark result }
    {
        let mut best = first;
        for place in first..first + ROW {
            if has_mark(self.places[place], mark) {
                return place;
            }
            if end_of(self.places[place]) < end_of(self.places[best]) {
                best = place;
            }
        }
        best
    }

    /// Notes a cell that is filled. With fewer places than a row has, nothing is noted.
    pub(crate) fn note(&mut self, cell: Filled)
        requires { cell.counter < ZONE_COUNTERS }
        ensures few { vec_len self.old.places < ROW → self.new.places ≡ self.old.places }
        ensures noted { ROW ≤ vec_len self.old.places → NotesCell self.old.places.items cell self.new.places.items }
    {
        let rows = self.places.len() / ROW;
        if rows == 0 {
            return;
        }
        let first = (cell.mark % rows as u64) as usize * ROW;
        let place = self.place_of(first, cell.mark);
        self.empty(place);
        self.fill(place, cell);
    }
}
