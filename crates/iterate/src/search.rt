//! The servers that are asked in turn, and nested questions for their addresses.

ghost use Rattle.std.specs.Prelude.{◌≡◌, ◌<◌, ◌≤◌, [], IsTrue, MatchOption, IfOk, false, length, drop, ◌↔◌};
ghost use Rattle.dns_query.specs.Query.{address_question};
ghost use Rattle.iterate.specs.Going.{ReachesServers, GoesOnSearching, IsNextMissing, IsNoneMissing, OpensQuestion};
ghost use Rattle.iterate.specs.Going.{SaysIfOpen, SendsToNext, SmallerOnceClosed, SmallerOnceReferred, SmallerOnceSupplied};
ghost use Rattle.iterate.specs.Hunting.{IsFresh, AreReferred, IsSupplied, AreSupplied};
ghost use Rattle.iterate.specs.Hunting.{IsAt, IsNextStep, AreOpened, MayBeSought};
ghost use Rattle.iterate.specs.Measure.{hunts_left, left_of_path, left_of_hearing};
ghost use Rattle.iterate.specs.Phase.{drawing};
ghost use Rattle.iterate.specs.Searching.{IsAskable, IsSearch, IsOther};

use crate::finishing::failed;
use crate::joining::join_addrs;
use crate::limits::MOST_DEPTH;
use crate::lookup_reply::is_name;
use crate::path::Path;
use crate::phase::{Advance, Stage};
use crate::seeking::seek;
use crate::sending::ask;
use dns_name::{Name, NoMemory};
use dns_text::types::A;
use dns_text::{Addr, Question, Shared};
use history::Servers;
use rand_core::Rng;
use std::alloc::Global;

/// The servers of a zone that are asked about a name, and how far they were asked.
#[derive(Drop)]
pub struct Hunt {
    pub servers: Shared<Servers>,
    /// The addresses to ask, each once: those that came with the servers, then those found for servers without one.
    pub addrs: Vec<Addr>,
    /// The number of these that were asked in vain.
    pub asked: usize,
    /// The number of servers without an address that were looked up, or may not be.
    pub sought: usize,
}

/// A nested question, for the address of a server that the question behind it needs.
#[derive(Drop)]
pub struct Nested {
    pub target: Name,
    pub hunt: Hunt,
}

/// The search for an answer by queries.
#[derive(Drop)]
pub struct Search {
    pub path: Path,
    /// The servers that are asked for the last question of the path.
    pub base: Hunt,
    /// The nested questions, the innermost first.
    pub frames: Vec<Nested>,
}

// ---- reaching servers

/// These servers, none of them asked yet.
pub(crate) fn begin_hunt(alloc: Global, servers: Shared<Servers>) -> Result<Hunt, NoMemory>
    ensures { IfOk result (IsFresh servers) }
{
    let list = servers.get();
    // The length of a slice is below 2^64.
    let _missing = list.missing.as_slice().len();
    let addrs = join_addrs(alloc, Vec::new(alloc), list.addrs.as_slice())?;
    Ok(Hunt {
        servers,
        addrs,
        asked: 0,
        sought: 0,
    })
}

/// The search for the last question of a path, among these servers.
pub(crate) fn reach(alloc: Global, path: Path, servers: Shared<Servers>) -> Result<Search, NoMemory>
    ensures path { IfOk result (λ search. search.path ≡ path) }
    ensures frames { IfOk result (λ search. search.frames.items ≡ []) }
    ensures fresh { IfOk result (λ search. IsFresh servers search.base) }
    ensures reached { ReachesServers IsAskable path path.last servers (left_of_path path 1) result }
{
    let base = begin_hunt(alloc, servers)?;
    Ok(Search {
        path,
        base,
        frames: Vec::new(alloc),
    })
}

/// Continues the last question of the path with the servers of a referral.
pub(crate) fn refer_base(
    alloc: Global,
    search: Search,
    servers: Shared<Servers>,
) -> Result<Search, NoMemory>
    ensures path { IfOk result (λ after. after.path ≡ search.path) }
    ensures frames { IfOk result (λ after. after.frames.items ≡ []) }
    ensures fresh { IfOk result (λ after. IsFresh servers after.base) }
    ensures reached { ReachesServers IsSearch search search.path.last servers (left_of_hearing search.path 1) result }
{
    let Search { path, .. } = search;
    let after = reach(alloc, path, servers)?;
    Ok(after)
}

/// Continues the innermost question, which is nested, with the servers of a referral.
pub(crate) fn refer_frame(
    alloc: Global,
    search: Search,
    servers: Shared<Servers>,
) -> Result<Search, NoMemory>
    requires { 0 < length search.frames.items }
    ensures fresh { IfOk result (λ after. AreReferred search.frames.items servers after.frames.items) }
    ensures path { IfOk result (λ after. after.path ≡ search.path) }
    ensures base { IfOk result (λ after. after.base ≡ search.base) }
    ensures reached { SmallerOnceReferred search servers result }
{
    let hunt = begin_hunt(alloc, servers)?;
    let Search {
        path,
        base,
        mut frames,
    } = search;
    let Nested { target, .. } = frames.remove(0);
    frames.insert(0, Nested { target, hunt })?;
    Ok(Search { path, base, frames })
}

/// Opens a nested question for the address of the next server that the innermost question needs, among these servers.
pub(crate) fn open(
    alloc: Global,
    search: Search,
    target: Name,
    servers: Shared<Servers>,
) -> Result<Search, NoMemory>
    ensures path { IfOk result (λ after. after.path ≡ search.path) }
    ensures base { IfOk result (λ after. after.base ≡ search.base) }
    ensures opened { IfOk result (λ after. AreOpened search.frames.items target servers after.frames.items) }
    ensures reached { OpensQuestion search target servers result }
{
    let hunt = begin_hunt(alloc, servers)?;
    let Search {
        path,
        base,
        mut frames,
    } = search;
    frames.insert(0, Nested { target, hunt })?;
    Ok(Search { path, base, frames })
}

// ---- servers without an address

/// Ends the work for the next server without an address: these addresses of it were found.
fn supply_hunt(alloc: Global, hunt: Hunt, found: &[Addr]) -> Result<Hunt, NoMemory>
    ensures { IfOk result (λ after. IsSupplied hunt found.now after) }
{
    let Hunt {
        servers,
        addrs,
        asked,
        sought,
    } = hunt;
    let missing = servers.get().missing.as_slice().len();
    let addrs = join_addrs(alloc, addrs, found)?;
    Ok(Hunt {
        servers,
        addrs,
        asked,
        sought: if sought < missing { sought + 1 } else { sought },
    })
}

fn supply_innermost(alloc: Global, search: Search, found: &[Addr]) -> Result<Search, NoMemory>
    ensures path { IfOk result (λ after. after.path ≡ search.path) }
    ensures supplied { IfOk result (λ after. AreSupplied search.frames.items search.base found.now after.frames.items after.base) }
{
    let Search {
        path,
        base,
        mut frames,
    } = search;
    if frames.is_empty() {
        let base = supply_hunt(alloc, base, found)?;
        return Ok(Search { path, base, frames });
    }
    let Nested { target, hunt } = frames.remove(0);
    let hunt = supply_hunt(alloc, hunt, found)?;
    frames.insert(0, Nested { target, hunt })?;
    Ok(Search { path, base, frames })
}

/// Ends the work for the next server that the innermost question needs: these addresses of it were found.
pub(crate) fn supply(alloc: Global, search: Search, found: &[Addr]) -> Result<Search, NoMemory>
    ensures path { IfOk result (λ after. after.path ≡ search.path) }
    ensures supplied { IfOk result (λ after. AreSupplied search.frames.items search.base found.now after.frames.items after.base) }
    ensures further { SmallerOnceSupplied search found.now result }
{
    let after = supply_innermost(alloc, search, found)?;
    Ok(after)
}

/// Closes the innermost question, which is nested: these addresses were found.
pub(crate) fn close(alloc: Global, search: Search, found: &[Addr]) -> Result<Search, NoMemory>
    requires { 0 < length search.frames.items }
    ensures path { IfOk result (λ after. after.path ≡ search.path) }
    ensures supplied { IfOk result (λ after. AreSupplied (drop 1 search.frames.items) search.base found.now after.frames.items after.base) }
    ensures fewer { IfOk result (λ after. hunts_left after < hunts_left search) }
    ensures further { SmallerOnceClosed search found.now result }
{
    let Search {
        path,
        base,
        mut frames,
    } = search;
    frames.remove(0);
    let after = supply(alloc, Search { path, base, frames }, found)?;
    Ok(after)
}

// ---- the next move

/// The next move for the innermost question.
pub(crate) enum NextMove {
    /// Ask this server.
    Ask(Addr),
    /// Look up this server, which has no address.
    Seek(Name),
    /// Pass over the next server without an address: it may not be looked up.
    Pass,
    /// Close the question: no server is left.
    Close,
}

/// Whether a question is for the address of this server.
fn asks_address(question: &Question, target: &Name) -> bool
    ensures { IsTrue result ↔ (address_question target.now ≡ question.now) }
{
    question.kind == A && is_name(&question.owner, target)
}

/// Whether one of these questions is for the address of this server.
fn is_open(frames: &[Nested], target: &Name) -> bool
    ensures { SaysIfOpen frames.now target.now result }
{
    for frame in frames {
        if is_name(&frame.target, target) {
            return true;
        }
    }
    false
}

/// Whether the address of a server is asked for already.
fn is_sought(search: &Search, target: &Name) -> bool
    ensures { (result ≡ false) ↔ IsOther (address_question target.now) search.now.frames.items search.now.path.last }
{
    if is_open(search.frames.as_slice(), target) {
        return true;
    }
    asks_address(&search.path.last, target)
}

/// Whether a server without an address may be looked up: not too many questions are open, it does not lie in the zone, and its
/// address is not asked for already.
fn may_seek(search: &Search, target: &Name) -> bool
    ensures { IsTrue result ↔ MayBeSought search.now target.now }
{
    let zone = &search.hunt().servers.get().zone;
    search.frames.len() < MOST_DEPTH && !target.at_or_below(zone) && !is_sought(search, target)
}

fn addr_at(addrs: &[Addr], place: usize) -> Option<Addr>
    ensures { MatchOption result (length addrs.now ≤ place) (IsAt addrs.now place) }
{
    if place < addrs.len() {
        Some(addrs[place])
    } else {
        None
    }
}

fn name_at(names: &[Name], place: usize) -> Option<&Name>
    ensures { MatchOption result (length names.now ≤ place) (λ name. IsAt names.now place name.now) }
{
    if place < names.len() {
        Some(&names[place])
    } else {
        None
    }
}

/// The next server without an address.
fn next_missing(hunt: &Hunt) -> Option<&Name>
    ensures { MatchOption result (IsNoneMissing hunt.now) (λ name. IsNextMissing hunt.now name.now) }
{
    name_at(hunt.servers.get().missing.as_slice(), hunt.sought)
}

/// The next move for the innermost question: its servers are asked in turn, then those without an address are looked up.
fn choose(search: &Search) -> Result<NextMove, NoMemory>
    ensures { IfOk result (λ next. IsNextStep search.now next) }
{
    let hunt = search.hunt();
    if let Some(server) = addr_at(&hunt.addrs, hunt.asked) {
        return Ok(NextMove::Ask(server));
    }
    match next_missing(hunt) {
        Some(name) => {
            if may_seek(search, name) {
                let target = name.clone()?;
                Ok(NextMove::Seek(target))
            } else {
                Ok(NextMove::Pass)
            }
        }
        None => Ok(NextMove::Close),
    }
}

/// Whether no nested question is open.
fn is_outermost(search: &Search) -> bool
    ensures outermost { IsTrue result → search.now.frames.items ≡ [] }
    ensures inner { result ≡ false → 0 < length search.now.frames.items }
{
    search.frames.is_empty()
}

/// Continues a search: asks the next server of the innermost question, or looks it up. If none is left, continues with the
/// question behind it.
pub(crate) fn go_on<R: Rng>(
    alloc: Global,
    ids: &mut R,
    moment: u64,
    search: Search,
) -> Result<Advance, NoMemory>
    ensures asks { SendsToNext search result }
    ensures goes { GoesOnSearching search moment (drawing (R.stream ids.old) (R.stream ids.new)) result }
{
    let mut current = search;
    'going: loop {
        match choose(&current)? {
            NextMove::Ask(server) => return ask(alloc, ids, current, server),
            NextMove::Seek(target) => return seek(alloc, moment, current, target, Stage::Address),
            NextMove::Pass => current = supply(alloc, current, &[])?,
            NextMove::Close => {
                if is_outermost(&current) {
                    return Ok(failed(alloc));
                }
                current = close(alloc, current, &[])?;
            }
        }
    }
}
