//! Lookups for servers without an address.

ghost use Rattle.std.specs.Prelude.{◌≡◌, ◌<◌, ◌↔◌, IfOk, IsTrue};
ghost use Rattle.std.specs.List.{AllByRecursion, Contains};
ghost use Rattle.dns_text.specs.declared.addr.Addr.{Addr as AddrValue};
ghost use Rattle.history.specs.declared.event.Event.TheVariants.{Look};
ghost use Rattle.iterate.specs.declared.want.Want.TheVariants.{Book};
ghost use Rattle.iterate.specs.Going.{SeeksOn, AsksNamed, AsksNewAddress, BeginsSeeking, LooksForAlias};
ghost use Rattle.iterate.specs.Going.{LooksForServers, SeeksFurther, SeeksOnAtAnyPort, SeeksOnSeeing};
ghost use Rattle.iterate.specs.Hunting.{IsAddressSeen, is_set_seen};
ghost use Rattle.iterate.specs.Looked.{seen_of};
ghost use Rattle.iterate.specs.Phase.{ask_at, drawing};
ghost use Rattle.iterate.specs.Searching.{hunt_of};

use crate::addresses::addresses;
use crate::finishing::failed;
use crate::limits::{MOST_BEGUN, MOST_TARGETS};
use crate::listing::servers_for;
use crate::lookup_reply::{Looked, replied, set_in};
use crate::phase::{Advance, Phase, Stage};
use crate::search::{Search, go_on, open, supply};
use crate::want::{Input, Want};
use dns_name::{Name, NoMemory};
use dns_text::types::{A, CNAME};
use dns_text::{Addr, Question};
use history::{Ask, Event, Seen};
use local_zone::Local;
use rand_core::Rng;
use ranked::Body;
use std::alloc::Global;

/// The lookup for a server without an address at this stage.
fn ask_at(stage: Stage, target: &Name) -> Result<Ask, NoMemory>
    ensures { IfOk result (λ ask. ask ≡ ask_at stage target.now) }
{
    let owner = target.clone()?;
    match stage {
        Stage::Address => Ok(Ask::Answer(Question { owner, kind: A })),
        Stage::Alias => Ok(Ask::Answer(Question { owner, kind: CNAME })),
        Stage::Servers => Ok(Ask::Servers(owner)),
    }
}

/// Looks up the next server without an address of the innermost question.
pub(crate) fn seek(
    alloc: Global,
    moment: u64,
    search: Search,
    target: Name,
    stage: Stage,
) -> Result<Advance, NoMemory>
    ensures want { IfOk result (λ next. next.want ≡ Book (Look moment (ask_at stage target))) }
    ensures goes { BeginsSeeking search target stage moment result }
{
    let ask = ask_at(stage, &target)?;
    Ok(Advance {
        phase: Phase::Seeking {
            search: Box::new(alloc, search)?,
            target,
            stage,
        },
        want: Want::Book(Event::Look { moment, ask }),
    })
}

/// The IPv4 addresses that a lookup found.
fn addresses_seen(alloc: Global, port: u16, what: Looked<'_>) -> Result<Vec<Addr>, NoMemory>
    ensures each { IfOk result (λ v. AllByRecursion (IsAddressSeen port (seen_of what.entry)) v.items) }
    ensures all { IfOk result (λ v. (addr : AddrValue) → IsAddressSeen port (seen_of what.entry) addr → Contains v.items addr) }
{
    match set_in(alloc, what)? {
        Some(told) => addresses(alloc, port, &told),
        None => Ok(Vec::new(alloc)),
    }
}

/// Whether a nested question may be begun for the next server that the innermost question needs.
fn may_begin(search: &Search) -> bool
    ensures { IsTrue result ↔ ((search.now.path.begun < MOST_BEGUN) × ((hunt_of search.now).sought < MOST_TARGETS)) }
{
    search.path.begun < MOST_BEGUN && search.hunt().sought < MOST_TARGETS
}

/// Begins a nested question for a server whose address is not known, unless too many were begun, or the server is not among the
/// first of its list.
fn seek_on<R: Rng>(
    alloc: Global,
    ids: &mut R,
    moment: u64,
    search: Search,
    target: Name,
) -> Result<Advance, NoMemory>
    ensures begins { LooksForAlias search target moment result }
    ensures goes { SeeksFurther search target moment (drawing (R.stream ids.old) (R.stream ids.new)) result }
{
    if may_begin(&search) {
        return seek(alloc, moment, search.begun(), target, Stage::Alias);
    }
    let after = supply(alloc, search, &[])?;
    go_on(alloc, ids, moment, after)
}

/// Continues with what the lookup of an address found. After an answer of any kind the server is done with.
fn address_seen<R: Rng>(
    alloc: Global,
    port: u16,
    ids: &mut R,
    moment: u64,
    search: Search,
    target: Name,
    what: Looked<'_>,
) -> Result<Advance, NoMemory>
    ensures asks { AsksNewAddress port search (seen_of what.entry) result }
    ensures goes { SeeksOnSeeing search target port (seen_of what.entry) moment (drawing (R.stream ids.old) (R.stream ids.new)) result }
{
    match what {
        Looked::Unknown => seek_on(alloc, ids, moment, search, target),
        _ => {
            let found = addresses_seen(alloc, port, what)?;
            let after = supply(alloc, search, &found)?;
            go_on(alloc, ids, moment, after)
        }
    }
}

/// Continues with the reply to the lookup of an address.
fn address_came<R: Rng>(
    alloc: Global,
    port: u16,
    ids: &mut R,
    moment: u64,
    search: Search,
    target: Name,
    input: &Input,
) -> Result<Advance, NoMemory>
    ensures { SeeksOn search target Stage.Address port input.now moment (drawing (R.stream ids.old) (R.stream ids.new)) result }
{
    match replied(input, &target, A) {
        Some(what) => address_seen(alloc, port, ids, moment, search, target, what),
        None => Ok(failed(alloc)),
    }
}

/// Whether a lookup found a set.
fn is_set(what: Looked<'_>) -> bool
    ensures { result ≡ is_set_seen (seen_of what.entry) }
{
    match what {
        Looked::Unknown => false,
        Looked::Held(shown) => matches!(shown.body.find().body, Body::Set(_)),
        Looked::Local(answer) => matches!(answer, Local::Data(_)),
    }
}

/// Continues with the reply to the lookup of an alias. A server whose name is an alias is not used.
fn alias_came<R: Rng>(
    alloc: Global,
    ids: &mut R,
    moment: u64,
    search: Search,
    target: Name,
    input: &Input,
) -> Result<Advance, NoMemory>
    ensures asks { LooksForServers target input.now moment result }
    ensures goes { SeeksOnAtAnyPort search target Stage.Alias input.now moment (drawing (R.stream ids.old) (R.stream ids.new)) result }
{
    match replied(input, &target, CNAME) {
        Some(what) => {
            if is_set(what) {
                let after = supply(alloc, search, &[])?;
                go_on(alloc, ids, moment, after)
            } else {
                seek(alloc, moment, search, target, Stage::Servers)
            }
        }
        None => Ok(failed(alloc)),
    }
}

/// Continues with the servers to ask about a server: opens a nested question for its address.
fn servers_came<R: Rng>(
    alloc: Global,
    ids: &mut R,
    moment: u64,
    search: Search,
    target: Name,
    input: &Input,
) -> Result<Advance, NoMemory>
    ensures asks { AsksNamed search target input.now result }
    ensures goes { SeeksOnAtAnyPort search target Stage.Servers input.now moment (drawing (R.stream ids.old) (R.stream ids.new)) result }
{
    match servers_for(&target, input) {
        Some(servers) => {
            let list = servers.share()?;
            let after = open(alloc, search, target, list)?;
            go_on(alloc, ids, moment, after)
        }
        None => Ok(failed(alloc)),
    }
}

/// Continues with the reply to a lookup for a server without an address.
pub(crate) fn sought<R: Rng>(
    alloc: Global,
    port: u16,
    ids: &mut R,
    moment: u64,
    search: Search,
    target: Name,
    stage: Stage,
    input: &Input,
) -> Result<Advance, NoMemory>
    ensures { SeeksOn search target stage port input.now moment (drawing (R.stream ids.old) (R.stream ids.new)) result }
{
    match stage {
        Stage::Address => address_came(alloc, port, ids, moment, search, target, input),
        Stage::Alias => alias_came(alloc, ids, moment, search, target, input),
        Stage::Servers => servers_came(alloc, ids, moment, search, target, input),
    }
}
