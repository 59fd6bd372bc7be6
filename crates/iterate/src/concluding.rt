//! The answer, denial or referral of a response, acted on.

ghost use Rattle.std.specs.Prelude.{◌≡◌, ◌<◌, [], ℕ, IfOk, length};
ghost use Rattle.dns_query.specs.Query.{address_question};
ghost use Rattle.iterate.specs.Following.{FollowsHarvest};
ghost use Rattle.iterate.specs.Going.{Concludes, FollowsReferral, FollowsDenial, SmallerOnceHeard};
ghost use Rattle.iterate.specs.Going.{TakesAnswer, TakesReferral, TellsAddresses};
ghost use Rattle.iterate.specs.Hunting.{Supplies};
ghost use Rattle.iterate.specs.Known.{servers_referred};
ghost use Rattle.iterate.specs.Phase.{drawing};

use crate::addresses::addresses;
use crate::finishing::denied;
use crate::following::{follow_answer, harvested};
use crate::innermost::address_question;
use crate::phase::Advance;
use crate::search::{Search, close, go_on, refer_base, refer_frame};
use dns_name::{Name, NoMemory};
use dns_query::{Heard, Referral, Says};
use dns_text::{Addr, Shared};
use harvest::Harvest;
use history::{Origin, Servers};
use rand_core::Rng;
use std::alloc::Global;

/// The servers to which a response refers.
fn servers_of(alloc: Global, referral: Referral) -> Result<Shared<Servers>, NoMemory>
    ensures { IfOk result (λ servers. servers ≡ servers_referred referral) }
{
    let Referral {
        zone,
        addrs,
        missing,
    } = referral;
    Shared::new(
        alloc,
        Servers {
            zone,
            source: Origin::Cache,
            addrs,
            missing,
        },
    )
}

/// The addresses of a server in a harvest. A name that is an alias has none.
fn addresses_harvested(
    alloc: Global,
    port: u16,
    target: &Name,
    harvest: &Harvest,
) -> Result<Vec<Addr>, NoMemory>
    ensures each { TellsAddresses port harvest.now target.now result }
    ensures all { IfOk result (λ addrs. Supplies port harvest.now (address_question target.now) addrs.items) }
{
    match harvested(harvest, &address_question(target)?)? {
        Some(told) => addresses(alloc, port, &told),
        None => Ok(Vec::new(alloc)),
    }
}

/// Acts on a response to the question itself.
fn conclude_last<R: Rng>(
    alloc: Global,
    moment: u64,
    ids: &mut R,
    search: Search,
    heard: Heard,
) -> Result<Advance, NoMemory>
    requires { search.frames.items ≡ [] }
    ensures answers { heard.says ≡ Says.Answers → IfOk result (λ next. FollowsHarvest heard.harvest search.path moment next.want) }
    ensures denies { FollowsDenial search heard result }
    ensures refers { FollowsReferral search heard result }
    ensures goes { (port : ℕ) → Concludes search heard port moment (drawing (R.stream ids.old) (R.stream ids.new)) result }
{
    let Heard { harvest, says } = heard;
    match says {
        Says::Answers => {
            let harvest = Box::new(alloc, harvest)?;
            follow_answer(alloc, search.path, harvest, moment)
        }
        Says::Denies { rcode, negative } => Ok(denied(search.path, rcode, negative)),
        Says::Refers(referral) => {
            let servers = servers_of(alloc, referral)?;
            go_on(alloc, ids, moment, refer_base(alloc, search, servers)?)
        }
    }
}

/// The search behind a response to a question for the address of a server. An answer gives its addresses, a denial none, and a
/// referral names the next servers to ask.
fn search_behind(alloc: Global, port: u16, search: Search, heard: Heard) -> Result<Search, NoMemory>
    requires { 0 < length search.frames.items }
    ensures answers { TakesAnswer port search heard result }
    ensures refers { TakesReferral search heard result }
    ensures path { IfOk result (λ after. after.path ≡ search.path) }
    ensures smaller { SmallerOnceHeard port search heard result }
{
    let Heard { harvest, says } = heard;
    match says {
        Says::Answers => {
            let addrs = addresses_harvested(alloc, port, &search.frames[0].target, &harvest)?;
            close(alloc, search, &addrs)
        }
        Says::Denies { .. } => close(alloc, search, &[]),
        Says::Refers(referral) => {
            let servers = servers_of(alloc, referral)?;
            refer_frame(alloc, search, servers)
        }
    }
}

/// Acts on a response to a question for the address of a server.
fn conclude_frame<R: Rng>(
    alloc: Global,
    port: u16,
    moment: u64,
    ids: &mut R,
    search: Search,
    heard: Heard,
) -> Result<Advance, NoMemory>
    requires { 0 < length search.frames.items }
    ensures refers { FollowsReferral search heard result }
    ensures goes { Concludes search heard port moment (drawing (R.stream ids.old) (R.stream ids.new)) result }
{
    let after = search_behind(alloc, port, search, heard)?;
    go_on(alloc, ids, moment, after)
}

/// Acts on a response (RFC 1034, section 5.3.3, step 4). It follows a set or an alias, ends the question at a denial, and asks
/// the servers that a referral names. An answer to a question for the address of a server gives its addresses.
pub(crate) fn conclude<R: Rng>(
    alloc: Global,
    port: u16,
    moment: u64,
    ids: &mut R,
    search: Search,
    heard: Heard,
) -> Result<Advance, NoMemory>
    ensures { Concludes search heard port moment (drawing (R.stream ids.old) (R.stream ids.new)) result }
{
    if search.frames.is_empty() {
        return conclude_last(alloc, moment, ids, search, heard);
    }
    conclude_frame(alloc, port, moment, ids, search, heard)
}
