//! The shares of zones in the cache: no zone fills the cells that others need.

ghost use Rattle.std.specs.Prelude.{◌<◌};

use crate::filled_cells::{Filled, FilledCells, ZONE_COUNTERS};
use cell_store::NameSeed;
use dns_name::Name;
use dns_text::NoMemory;
use flight::zone_octets;
use history::Event;
use iterate::{Allowance, MOST_FINDS};
use ranked::{Body, Find, Scope};
use std::alloc::Global;
use std::hash::{BuildHasher, Hasher};
use std::sync::{Mutex, Wait};

/// The milliseconds of a second.
const SECOND: u64 = 1_000;

/// The shares of zones in the cache, for all workers. Strangers choose the names, so their hashes are seeded.
///
/// All zones below one name of two labels have one share: whoever owns that name can make as many zones below it as he likes. A set
/// counts for the zone of its own name, and a negative answer for the zone that gave it. The denials of all top-level zones and of the
/// root have one share together, for strangers choose what they deny. Their other responses are not bounded: each referral counts for
/// the zone that it names.
#[derive(Drop)]
pub struct ZoneShares {
    seed: NameSeed,
    cells: Mutex<FilledCells>,
}

/// Whether a zone is the root, or a top-level zone: its first label, counted from the root, is its only one.
fn is_top(zone: &Name) -> bool {
    let octets = zone.octets();
    match octets.first() {
        Some(count) => octets.len() <= usize::from(*count) + 1,
        None => true,
    }
}

/// The octets that stand for the share of what a zone denies.
fn denial_key(zone: &Name) -> &[u8] {
    if is_top(zone) {
        return &[];
    }
    zone_octets(zone)
}

/// The octets that stand for the share that a find counts for.
fn key_of(find: &Find) -> &[u8] {
    match &find.body {
        Body::Set(_) => zone_octets(&find.owner),
        Body::NoData(soa) => denial_key(&soa.get().owner),
        Body::NoName(soa) => denial_key(&soa.get().owner),
    }
}

/// The type of a find, as a number. A find of the whole name has none.
fn kind_of(find: &Find) -> u16 {
    match find.scope {
        Scope::One(kind) => kind,
        Scope::Whole => 0,
    }
}

impl ZoneShares {
    /// The shares in a cache with so many cells. Strangers do not know the seed.
    pub fn new(alloc: Global, cells: usize, seed: NameSeed) -> Result<ZoneShares, NoMemory> {
        Ok(ZoneShares {
            seed,
            cells: Mutex::new(FilledCells::new(alloc, cells)?),
        })
    }

    /// The counter of a share.
    fn counter_of(&self, key: &[u8]) -> usize
        ensures { result < ZONE_COUNTERS }
    {
        let mut hasher = self.seed.build_hasher();
        hasher.write(key);
        (hasher.finish() % ZONE_COUNTERS as u64) as usize
    }

    /// The hash of the cell of a find.
    fn mark_of(&self, find: &Find) -> u64 {
        let mut hasher = self.seed.build_hasher();
        hasher.write(&kind_of(find).to_le_bytes());
        hasher.write(find.owner.octets());
        hasher.finish()
    }

    /// How many finds of a response from a server of this zone may be handed to the book. `now` is in milliseconds.
    pub(crate) fn allowance<R: Wait>(&self, rt: &R, zone: &Name, now: u64) -> Allowance {
        let counter = self.counter_of(denial_key(zone));
        let of_denial = self.cells.lock(rt).allowed(counter, now);
        let finds = if is_top(zone) { MOST_FINDS } else { of_denial };
        Allowance { finds, of_denial }
    }

    /// Notes an event for the book: if it admits a find, the find fills a cell.
    pub(crate) fn note<R: Wait>(&self, rt: &R, event: &Event, now: u64) {
        let Event::Admit { find, .. } = event else {
            return;
        };
        let find = find.find();
        let cell = Filled {
            mark: self.mark_of(find),
            counter: self.counter_of(key_of(find)),
            until: now.saturating_add(SECOND * u64::from(find.ttl)),
        };
        self.cells.lock(rt).note(cell);
    }
}
