//! The servers of a zone, by what the cache holds.

ghost use Rattle.std.specs.Prelude.{◌≡◌, ◌++◌, [], IfOk, OnOk, not};
ghost use Rattle.std.specs.List.{flat_map, list_any};
ghost use Rattle.dns_name.specs.Below.{is_at_or_below};
ghost use Rattle.ranked.specs.Body.{data_of};
ghost use Rattle.history.specs.Cells.{shown_now};
ghost use Rattle.history.specs.Servers.{AddsMissing, addrs_at, data_at, data_shown, target_of};
ghost use Rattle.history.specs.Servers.{cached_servers, is_usable, servers_named};

use crate::event::Settings;
use crate::servers::{Origin, Servers};
use crate::source::CellSource;
use dns_name::{Name, NoMemory};
use dns_text::{Addr, Data, Items, types};
use ranked::{Body, Held, push_addrs};
use std::alloc::Global;

/// The servers that the cache has at this very name, if they are usable.
pub(crate) fn cached_servers<C: CellSource>(
    alloc: Global,
    settings: &Settings,
    cells: &C,
    name: &Name,
    moment: u64,
) -> Result<Option<Servers>, NoMemory>
    ensures { IfOk result (λ o. o ≡ cached_servers settings.now (C.shows_at cells.now moment) name.now) }
{
    let targets = targets(alloc, data_at(cells, name, types::NS, moment))?;
    let servers = servers_named(alloc, settings, cells, moment, name, &targets)?;
    if is_usable(&servers, &targets) {
        Ok(Some(servers))
    } else {
        Ok(None)
    }
}

/// The data that are alive of a name and a type, of any rank.
fn data_at<'a, C: CellSource>(cells: &'a C, name: &Name, kind: u16, moment: u64) -> &'a [Data]
    ensures { result.now ≡ data_at (C.shows_at cells.now moment) kind name.now }
{
    data_shown(cells.shows(name, kind, moment))
}

/// The data of what a cell shows.
fn data_shown<'a>(held: Option<Held<'a>>) -> &'a [Data]
    ensures { result.now ≡ data_shown (shown_now held.entry) }
{
    match held {
        Some(held) => data_in(&held.body.find().body),
        None => &[],
    }
}

fn data_in(body: &Body) -> &[Data]
    ensures { result.now ≡ data_of body.now }
{
    match body {
        Body::Set(data) => data.as_slice(),
        Body::NoData(_) | Body::NoName(_) => &[],
    }
}

/// The servers that these data name.
fn targets(alloc: Global, set: &[Data]) -> Result<Vec<Name>, NoMemory>
    ensures { IfOk result (λ v. v.items ≡ flat_map target_of set.now) }
{
    let mut targets = Vec::with_capacity(alloc, set.len())?;
    for datum in set {
        push_target(datum, &mut targets)?;
    }
    Ok(targets)
}

fn push_target(datum: &Data, out: &mut Vec<Name>) -> Result<(), NoMemory>
    ensures { OnOk result (out.new.items ≡ out.old.items ++ target_of datum.now) }
{
    if let Data::One(name) = datum {
        out.push(name.clone()?)?;
    }
    Ok(())
}

/// The servers of these names, for a zone.
fn servers_named<C: CellSource>(
    alloc: Global,
    settings: &Settings,
    cells: &C,
    moment: u64,
    zone: &Name,
    targets: &Vec<Name>,
) -> Result<Servers, NoMemory>
    ensures { IfOk result (λ s. s ≡ servers_named settings.now (C.shows_at cells.now moment) zone.now targets.now.items) }
{
    let mut addrs = Vec::new(alloc);
    let mut missing = Vec::new(alloc);
    for target in targets {
        add_server(settings, cells, moment, target, &mut addrs, &mut missing)?;
    }
    Ok(Servers {
        zone: zone.clone()?,
        source: Origin::Cache,
        addrs: Items::new(addrs),
        missing: Items::new(missing),
    })
}

/// Adds the addresses of a server, or itself to those that have none.
fn add_server<C: CellSource>(
    settings: &Settings,
    cells: &C,
    moment: u64,
    target: &Name,
    addrs: &mut Vec<Addr>,
    missing: &mut Vec<Name>,
) -> Result<(), NoMemory>
    ensures addrs { OnOk result (addrs.new.items ≡ addrs.old.items ++ addrs_at settings.now (C.shows_at cells.now moment) target.now) }
    ensures missing { OnOk result (AddsMissing settings.now (C.shows_at cells.now moment) target.now missing.old.items missing.new.items) }
{
    let before = addrs.len();
    push_addrs_at(settings, cells, moment, target, addrs)?;
    if addrs.len() == before {
        missing.push(target.clone()?)?;
    }
    Ok(())
}

/// Adds the addresses of a server, those of IPv4 first. The source is asked for both types at once.
fn push_addrs_at<C: CellSource>(
    settings: &Settings,
    cells: &C,
    moment: u64,
    name: &Name,
    out: &mut Vec<Addr>,
) -> Result<(), NoMemory>
    ensures { OnOk result (out.new.items ≡ out.old.items ++ addrs_at settings.now (C.shows_at cells.now moment) name.now) }
{
    let port = settings.server_port;
    let (v4, v6) = cells.shows_both(name, types::A, types::AAAA, moment);
    push_addrs(port, data_shown(v4), out)?;
    push_addrs(port, data_shown(v6), out)
}

/// Whether these servers of a zone, which have these names, lead to an answer.
fn is_usable(servers: &Servers, targets: &Vec<Name>) -> bool
    ensures { result ≡ is_usable servers.now targets.now.items }
{
    !servers.addrs.as_slice().is_empty() || has_outside(targets, &servers.zone)
}

/// Whether one of the names is not at or below a zone.
fn has_outside(targets: &Vec<Name>, zone: &Name) -> bool
    ensures { result ≡ list_any (λ target. not (is_at_or_below target zone.now)) targets.now.items }
{
    targets.iter().any(|target| !target.at_or_below(zone))
}
