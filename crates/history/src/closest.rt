//! The servers that are closest to a name.

ghost use Rattle.std.specs.Prelude.{◌≡◌, IfOk};
ghost use Rattle.std.specs.Option.{option_map};
ghost use Rattle.stub_table.specs.Closest.{stub_named};
ghost use Rattle.history.specs.Servers.{servers_at, servers_by, servers_in_hints, servers_in_stub};

use crate::delegation::cached_servers;
use crate::event::Settings;
use crate::servers::{Origin, Servers};
use crate::source::CellSource;
use dns_name::{Name, NoMemory};
use dns_text::{Addr, Items};
use std::alloc::Global;
use stub_table::{Stub, StubTable};

/// The servers of the closest name at or above this one that has any, else the hints.
pub fn closest_servers<C: CellSource>(
    alloc: Global,
    settings: &Settings,
    cells: &C,
    stubs: &StubTable,
    name: &Name,
    moment: u64,
) -> Result<Servers, NoMemory>
    ensures { IfOk result (λ s. s ≡ servers_by settings.now stubs.now (C.shows_at cells.now moment) name.now) }
{
    if let Some(servers) = servers_at(alloc, settings, cells, stubs, name, moment)? {
        return Ok(servers);
    }
    match name.parent(alloc)? {
        Some(parent) => closest_servers(alloc, settings, cells, stubs, &parent, moment),
        None => servers_in_hints(alloc, settings),
    }
}

/// The servers that this very name has: those of its stub, else those that the cache has.
fn servers_at<C: CellSource>(
    alloc: Global,
    settings: &Settings,
    cells: &C,
    stubs: &StubTable,
    name: &Name,
    moment: u64,
) -> Result<Option<Servers>, NoMemory>
    ensures { IfOk result (λ o. o ≡ servers_at settings.now stubs.now (C.shows_at cells.now moment) name.now) }
{
    match stub_named(stubs, name) {
        Some(stub) => Ok(Some(servers_in_stub(alloc, name, stub)?)),
        None => cached_servers(alloc, settings, cells, name, moment),
    }
}

/// The stub of this very name.
fn stub_named<'a>(stubs: &'a StubTable, name: &Name) -> Option<&'a Stub>
    ensures { option_map (λ s. s.now) result ≡ stub_named stubs.now name.now }
{
    for stub in stubs.stubs() {
        if stub.get().name == *name {
            return Some(stub.get());
        }
    }
    None
}

fn servers_in_stub(alloc: Global, name: &Name, stub: &Stub) -> Result<Servers, NoMemory>
    ensures { IfOk result (λ s. s ≡ servers_in_stub name.now stub.now) }
{
    Ok(Servers {
        zone: name.clone()?,
        source: Origin::Stub,
        addrs: copy_addrs(alloc, &stub.addrs)?,
        missing: Items::new(Vec::new(alloc)),
    })
}

fn servers_in_hints(alloc: Global, settings: &Settings) -> Result<Servers, NoMemory>
    ensures { IfOk result (λ s. s ≡ servers_in_hints settings.now) }
{
    Ok(Servers {
        zone: Name::root(alloc),
        source: Origin::Hints,
        addrs: copy_addrs(alloc, &settings.hints)?,
        missing: Items::new(Vec::new(alloc)),
    })
}

pub(crate) fn copy_addrs(alloc: Global, addrs: &Items<Addr>) -> Result<Items<Addr>, NoMemory>
    ensures { IfOk result (λ copied. copied ≡ addrs.now) }
{
    Ok(Items::new(Vec::from_slice(alloc, addrs.as_slice())?))
}
