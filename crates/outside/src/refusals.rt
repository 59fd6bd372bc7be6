//! The refusals that a worker remembers.

ghost use Rattle.std.specs.Prelude.{◌≡◌, ◌≤◌, [], true, false, IfOk};
ghost use Rattle.std.specs.Option.{option_copied};
ghost use Rattle.indexmap.specs.IndexMap.{index_map_len};
ghost use Rattle.outside.specs.declared.refused_zones.TheConstants.{MOST_REFUSALS};

use crate::refused_zones::{MOST_REFUSALS, ZonePauses, is_paused, is_refusal, pause, zone_of};
use cell_store::NameSeed;
use dns_name::Name;
use dns_query::Over;
use dns_text::{Addr, NoMemory, Shared};
use flight::Listened;
use history::Servers;
use indexmap::IndexMap;
use std::alloc::Global;

/// What a worker remembers of at most `MOST_REFUSALS` zones at servers. A zone whose name finds no memory is not remembered.
#[derive(Drop)]
pub struct Refusals {
    pub zones: ZonePauses,
    cursor: usize,
    ghost most: { index_map_len zones ≤ MOST_REFUSALS },
}

impl Refusals {
    ghost use Rattle.outside.specs.Hashing.{IsSeeded};
    ghost use Rattle.outside.specs.Refusals.{IsRefused, LooksUpList, LooksUpZone, NotesAnswer, NotesRefusal, RefusedList};

    /// Remembers nothing. Nearly all memory of the table is taken here. Its hashes begin with a seed that strangers do not know.
    pub fn new(alloc: Global, seed: u64) -> Result<Refusals, NoMemory>
        ensures blank { IfOk result (λ refusals. refusals.zones.entries ≡ []) }
        ensures seed { IfOk result (λ refusals. IsSeeded seed refusals.zones) }
    {
        let seed = NameSeed::new(u128::from(seed));
        Ok(Refusals {
            zones: IndexMap::with_capacity_and_hasher(alloc, MOST_REFUSALS, seed)?,
            cursor: 0,
        })
    }

    /// Whether a server refused a zone less than a second ago.
    pub fn has(&self, server: &Addr, over: Over, zone: &Name, now: u64) -> bool
        ensures refused { result ≡ true → IsRefused server.now over zone.now now self.now }
        ensures free { result ≡ false → LooksUpZone server.now over zone.now now self.now }
    {
        let Some(zone) = zone_of(server, over, zone) else {
            return false;
        };
        is_paused(&self.zones, &zone, now)
    }

    /// Notes that a server refused a zone.
    pub fn note(&mut self, server: &Addr, over: Over, zone: &Name, now: u64)
        ensures { NotesRefusal server.now over zone.now now self.old self.new }
    {
        let Some(zone) = zone_of(server, over, zone) else {
            return;
        };
        pause(&mut self.zones, &mut self.cursor, zone, now);
    }

    /// Whether a server refused the zone of this list less than a second ago.
    pub fn has_list(
        &self,
        server: &Addr,
        over: Over,
        list: Option<&Shared<Servers>>,
        now: u64,
    ) -> bool
        ensures refused { result ≡ true → RefusedList server.now over (option_copied list.entry) now self.now }
        ensures free { result ≡ false → LooksUpList server.now over (option_copied list.entry) now self.now }
    {
        match list {
            Some(list) => self.has(server, over, &list.get().zone, now),
            None => false,
        }
    }

    /// Notes what an exchange about a zone says: whether its server refuses the zone.
    pub fn note_heard(
        &mut self,
        heard: &Listened,
        server: &Addr,
        over: Over,
        zone: Option<&Name>,
        now: u64,
    )
        ensures { NotesAnswer heard.now server.now over (option_copied zone.entry) now self.old self.new }
    {
        let Listened::Came(octets) = heard else {
            return;
        };
        let Some(zone) = zone else {
            return;
        };
        if is_refusal(octets.as_slice()) {
            self.note(server, over, zone, now);
        }
    }
}
