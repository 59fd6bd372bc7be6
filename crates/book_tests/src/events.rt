//! Events for callers of a shared book. Each but one gives the moment 0.

use crate::finds::address;
use dns_name::Name;
use dns_text::types::A;
use dns_text::{Question, Shared};
use history::{Ask, Command, Event, MOMENT_END};
use local_zone::ZoneType;
use ranked::Rank;
use std::alloc::Global;

fn share(alloc: Global, event: Event) -> anyhow::Result<Shared<Event>> {
    Ok(Shared::new(alloc, event)?)
}

fn look(alloc: Global, ask: Ask) -> anyhow::Result<Shared<Event>> {
    share(alloc, Event::Look { moment: 0, ask })
}

/// Admits the address 192.0.2.1 of `b.test.`, of rank 4, for a minute.
pub fn admit(alloc: Global) -> anyhow::Result<Shared<Event>> {
    let find = address(alloc, b"b.test", Rank::AuthoritativeAnswer, 60)?;
    share(alloc, Event::Admit { moment: 0, find })
}

/// Looks at that address.
pub fn look_address(alloc: Global) -> anyhow::Result<Shared<Event>> {
    let owner = Name::from_text(alloc, b"b.test")?;
    look(alloc, Ask::Answer(Question { owner, kind: A }))
}

fn set_zone(alloc: Global, name: &[u8], kind: ZoneType) -> anyhow::Result<Shared<Event>> {
    let name = Name::from_text(alloc, name)?;
    let command = Command::SetZone { name, kind };
    share(alloc, Event::Do { moment: 0, command })
}

/// An undo at a moment that no book takes.
pub fn too_late(alloc: Global) -> anyhow::Result<Shared<Event>> {
    share(alloc, Event::Undo { moment: MOMENT_END })
}

/// The first of two callers sets a zone and takes it back, and looks after each.
pub fn of_the_first(alloc: Global) -> anyhow::Result<Vec<Shared<Event>>> {
    Ok(vec![in alloc;
        set_zone(alloc, b"c", ZoneType::Static)?,
        look(alloc, Ask::Zones)?,
        share(alloc, Event::Undo { moment: 0 })?,
        look(alloc, Ask::Zones)?,
    ]?)
}

/// The second brings an address, and looks at it.
pub fn of_the_second(alloc: Global) -> anyhow::Result<Vec<Shared<Event>>> {
    Ok(vec![in alloc; admit(alloc)?, look_address(alloc)?]?)
}

/// The events of both, those of the first before those of the second.
pub fn of_both(alloc: Global) -> anyhow::Result<Vec<Shared<Event>>> {
    let mut events = of_the_first(alloc)?;
    let mut more = of_the_second(alloc)?;
    events.append(&mut more)?;
    Ok(events)
}

/// Two zones of a type are set, the second is taken back, and the zones are looked up.
pub fn four_about_zones(alloc: Global, kind: ZoneType) -> anyhow::Result<Vec<Shared<Event>>> {
    Ok(vec![in alloc;
        set_zone(alloc, b"a", kind)?,
        set_zone(alloc, b"b", kind)?,
        share(alloc, Event::Undo { moment: 0 })?,
        look(alloc, Ask::Zones)?,
    ]?)
}
