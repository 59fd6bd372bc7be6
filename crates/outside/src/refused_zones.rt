//! The zones that servers refused lately, each at its server.

ghost use Rattle.std.specs.Prelude.{◌≡◌, ◌≤◌, ◌↔◌, IsTrue, IfSome};
ghost use Rattle.std.specs.Option.{option_copied};
ghost use Rattle.indexmap.specs.IndexMap.{index_map_len};
ghost use Rattle.outside.specs.declared.refused_zones.TheConstants.{MOST_REFUSALS};
ghost use Rattle.outside.specs.Refusals.{list_of_strangers, refused_pause, zone_at, IsRefusal, IsZonePaused, RemembersZone};

use crate::kept::{Notes, add};
use crate::pause::Pause;
use crate::server::{Server, ZoneAt};
use dns_name::Name;
use dns_query::Over;
use dns_text::{Addr, Shared};
use history::{Origin, Servers};
use iterate::Hunt;

/// The milliseconds for which a server that refused a zone is not asked about it.
pub const REFUSED_PAUSE: u64 = 1_000;

/// The most zones at servers that a worker remembers.
pub const MOST_REFUSALS: usize = 4_096;

/// The RCODE of a refusal (RFC 1035, section 4.1.1).
const REFUSED: u8 = 5;

/// The pause of each zone at a server that refused it.
pub type ZonePauses = Notes<ZoneAt, Pause>;

/// Whether a response refuses its question.
pub(crate) fn is_refusal(response: &[u8]) -> bool
    ensures { IsTrue result ↔ IsRefusal response.now }
{
    match response.get(3) {
        Some(octet) => *octet % 16 == REFUSED,
        None => false,
    }
}

/// Whether a server is not asked about a zone.
pub(crate) fn is_paused(zones: &ZonePauses, zone: &ZoneAt, now: u64) -> bool
    ensures { IsTrue result ↔ IsZonePaused zone.now now zones.now }
{
    match zones.get(zone) {
        Some(pause) => pause.lasts(now),
        None => false,
    }
}

/// The pause of a zone that is refused now.
fn pause_from(now: u64) -> Pause
    ensures { result ≡ refused_pause now }
{
    Pause {
        millis: REFUSED_PAUSE,
        until: now.saturating_add(REFUSED_PAUSE),
    }
}

/// Notes that a server refused a zone. It is not asked about the zone for a second.
pub(crate) fn pause(zones: &mut ZonePauses, cursor: &mut usize, zone: ZoneAt, now: u64)
    requires { index_map_len zones.old ≤ MOST_REFUSALS }
    ensures remembers { RemembersZone now zone (refused_pause now) zones.old zones.new }
    ensures bound { index_map_len zones.new ≤ MOST_REFUSALS }
{
    if let Some(last) = zones.get_mut(&zone) {
        *last = pause_from(now);
        return;
    }
    add(zones, cursor, MOST_REFUSALS, zone, pause_from(now), now);
}

/// The zone at a server over a transport. `None` if there is no memory for its name.
pub(crate) fn zone_of(server: &Addr, over: Over, zone: &Name) -> Option<ZoneAt>
    ensures { IfSome result (λ at. at ≡ zone_at server.now over zone.now) }
{
    let Ok(zone) = zone.clone() else {
        return None;
    };
    let server = Server {
        addr: *server,
        over,
    };
    Some(ZoneAt { server, zone })
}

/// The list of a task, if strangers may have named its addresses: it is none of the operator's.
pub fn list_of_strangers(hunt: Option<&Hunt>) -> Option<&Shared<Servers>>
    ensures { option_copied result ≡ list_of_strangers (option_copied hunt.entry) }
{
    let hunt = hunt?;
    match hunt.servers.get().source {
        Origin::Cache => Some(&hunt.servers),
        _ => None,
    }
}
