//! How many names a flush hides. No clause says what is counted, and no reply of a book shows it.

use crate::flushing::flushed_types;
use crate::shelf::{KeptFlush, Shelf};
use cell_store::{OwnerCells, held_in};
use dns_name::Name;
use ranked::Reach;

/// The most names that one call visits, so that no call is long.
const VISITED_AT_ONCE: usize = 256;

/// A type that hardly any name has, for the types that have no cell of their own.
const ANOTHER_TYPE: u16 = 0;

impl Shelf {
    // Whether a flush hides content of a type that is alive: without the flush it would be shown, and what is shown instead is less.
    fn hides_type(
        &self,
        number: u64,
        name: &Name,
        cells: &OwnerCells,
        kind: u16,
        moment: u64,
    ) -> bool {
        let version = self.settled(name, self.version(name, kind));
        let other = self.settled(name, self.version_over(number, name, kind));
        match held_in(Some(cells), kind, other, moment) {
            Some(hidden) => match held_in(Some(cells), kind, version, moment) {
                Some(shown) => shown.rank.level() < hidden.rank.level(),
                None => true,
            },
            None => false,
        }
    }

    // Whether a flush hides some content of a name.
    fn hides(&self, own: &KeptFlush, name: &Name, cells: &OwnerCells, moment: u64) -> bool {
        match own.flush.reach {
            Reach::OneType(kind) => self.hides_type(own.number, name, cells, kind, moment),
            Reach::Name => flushed_types().iter().any(|kind| self.hides_type(
                own.number, name, cells, *kind, moment,
            )),
            Reach::Zone => {
                self.hides_type(own.number, name, cells, ANOTHER_TYPE, moment)
                    || cells.kinds.iter().any(|k| self.hides_type(
                        own.number, name, cells, k.kind, moment,
                    ))
            }
        }
    }

    // Whether the name at a place lies in the flush, and the flush hides some of its content.
    fn hides_at(&self, own: &KeptFlush, place: usize, moment: u64) -> bool {
        match self.owners.get_index(place) {
            Some((name, cells)) => {
                name.at_or_below(&own.flush.name) && self.hides(own, name, cells, moment)
            }
            None => false,
        }
    }

    /// Of how many of the names from a place on the flush of this number hides a cell whose content is alive, and where to go on, if names
    /// are left. It visits 256 names at most. A flush of one name visits that name alone.
    pub fn hidden_some(&self, number: u64, from: usize, moment: u64) -> (u64, u64, Option<usize>) {
        let Some(own) = self
            .kept
            .iter()
            .find(|own| own.number == number && own.shown)
        else {
            return (0, 0, None);
        };
        if own.flush.reach != Reach::Zone {
            return match self.place_of(&own.flush.name) {
                Some(place) => (u64::from(self.hides_at(own, place, moment)), 1, None),
                None => (0, 0, None),
            };
        }
        let mut names = 0;
        let mut visited = 0;
        for place in from..self.owners.len().min(from.saturating_add(VISITED_AT_ONCE)) {
            names += u64::from(self.hides_at(own, place, moment));
            visited += 1;
        }
        let next = from.saturating_add(VISITED_AT_ONCE);
        if next < self.owners.len() {
            (names, visited, Some(next))
        } else {
            (names, visited, None)
        }
    }
}
