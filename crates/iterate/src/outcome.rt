//! The outcome of a query.

ghost use Rattle.std.specs.Prelude.{◌≡◌, ◌<◌, IfOk};
ghost use Rattle.iterate.specs.Going.{ActsOnOutcome, AsksAgain, GoesOnByOutcome, HasUnasked};
ghost use Rattle.iterate.specs.Going.{IsOrderlyOnceStruck, IsSearchOnceStruck, JudgesOutcome};
ghost use Rattle.iterate.specs.Hunting.{AsksOver, one_vain};
ghost use Rattle.iterate.specs.Room.{allowed_for, allowed_in};
ghost use Rattle.iterate.specs.Phase.{drawing};
ghost use Rattle.iterate.specs.Searching.{hunt_of};

use crate::admitting::admit;
use crate::finishing::failed;
use crate::limits::MOST_SENDS;
use crate::phase::Advance;
use crate::search::{Hunt, Nested, Search, go_on};
use crate::sending::send;
use crate::want::{Allowance, Input};
use dns_name::{Name, NoMemory};
use dns_query::{Over, Says, Verdict, judge};
use dns_text::{Addr, Question};
use dns_wire::one_meaning;
use rand_core::Rng;
use std::alloc::Global;

/// The verdict on the outcome of a query: this question, this identifier, a server of this zone.
fn judged(
    alloc: Global,
    port: u16,
    over: Over,
    zone: &Name,
    id: u16,
    question: &Question,
    input: &Input,
) -> Result<Verdict, NoMemory>
    ensures { JudgesOutcome port over zone.now id question.now input.now result }
{
    match input {
        Input::Came { octets, .. } => {
            judge(alloc, port, over, zone, id, question, octets.as_slice())
        }
        _ => Ok(Verdict::Struck),
    }
}

/// How many finds of a response that says this may be handed to the book.
fn allowed_for(says: &Says, allowance: Allowance) -> usize
    ensures { result ≡ allowed_for says.now allowance }
{
    match says {
        Says::Denies { .. } => allowance.of_denial,
        _ => allowance.finds,
    }
}

/// How many finds of what came may be handed to the book, if it is a response that says this.
fn allowed_in(input: &Input, says: &Says) -> usize
    ensures { result ≡ allowed_in input.now says.now }
{
    match input {
        Input::Came { allowance, .. } => allowed_for(says, *allowance),
        _ => 0,
    }
}

/// These servers, with one more of them asked in vain.
fn asked_once_more(hunt: Hunt) -> Hunt
    ensures { HasUnasked hunt → result ≡ one_vain hunt }
{
    let Hunt {
        servers,
        addrs,
        asked,
        sought,
    } = hunt;
    let asked = if asked < addrs.len() {
        asked + 1
    } else {
        asked
    };
    Hunt {
        servers,
        addrs,
        asked,
        sought,
    }
}

/// Strikes the server that was asked last.
fn strike(search: Search) -> Result<Search, NoMemory>
    ensures path { IfOk result (λ after. after.path ≡ search.path) }
    ensures vain { HasUnasked (hunt_of search) → IfOk result (λ after. hunt_of after ≡ one_vain (hunt_of search)) }
    ensures further { IsSearchOnceStruck search result }
    ensures orderly { IsOrderlyOnceStruck search result }
{
    let Search {
        path,
        base,
        mut frames,
    } = search;
    if frames.is_empty() {
        return Ok(Search {
            path,
            base: asked_once_more(base),
            frames,
        });
    }
    let Nested { target, hunt } = frames.remove(0);
    frames.insert(
        0,
        Nested {
            target,
            hunt: asked_once_more(hunt),
        },
    )?;
    Ok(Search { path, base, frames })
}

/// Asks the same server again over TCP (RFC 2181, section 9).
fn again<R: Rng>(
    alloc: Global,
    ids: &mut R,
    search: Search,
    server: Addr,
) -> Result<Advance, NoMemory>
    ensures tcp { search.path.sent < MOST_SENDS → IfOk result (λ next. AsksOver server Over.Tcp next.want) }
    ensures goes { AsksAgain search server (drawing (R.stream ids.old) (R.stream ids.new)) result }
{
    if search.path.sent >= MOST_SENDS {
        return Ok(failed(alloc));
    }
    send(alloc, ids, search, server, Over::Tcp)
}

/// Continues with the outcome of a query: a response, or none.
pub(crate) fn came<R: Rng>(
    alloc: Global,
    port: u16,
    moment: u64,
    ids: &mut R,
    search: Search,
    server: Addr,
    id: u16,
    over: Over,
    input: &Input,
) -> Result<Advance, NoMemory>
    ensures acts { ActsOnOutcome port search server id over input.now result }
    ensures goes { GoesOnByOutcome port search server id over input.now moment (drawing (R.stream ids.old) (R.stream ids.new)) result }
{
    one_meaning();
    let question = search.question()?;
    let zone = &search.hunt().servers.get().zone;
    match judged(alloc, port, over, zone, id, &question, input)? {
        Verdict::Struck => go_on(alloc, ids, moment, strike(search.counted())?),
        Verdict::Cut => again(alloc, ids, search.counted(), server),
        Verdict::Heard(heard) => {
            let allowed = allowed_in(input, &heard.says);
            let search = Box::new(alloc, search.counted())?;
            let heard = Box::new(alloc, heard)?;
            admit(alloc, port, moment, ids, search, heard, allowed)
        }
    }
}
