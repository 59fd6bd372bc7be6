//! The finds of a harvest that are handed to a cache.

ghost use Rattle.std.specs.Prelude.{◌≡◌, ◌++◌, IfOk, OnOk, filter, length, map};
ghost use Rattle.std.specs.List.{filter_map};
ghost use Rattle.dns_name.specs.Order.{name_eq};
ghost use Rattle.ranked.specs.Body.{data_of};
ghost use Rattle.ranked.specs.Find.{has_kind};
ghost use Rattle.neg_rule.specs.Alias.{target_of};
ghost use Rattle.neg_rule.specs.Negative.{said_by};
ghost use Rattle.harvest.specs.Chosen.{chosen_of, is_first, is_small, servers_in, servers_of, with_few};

use dns_name::{Name, NoMemory};
use dns_text::Data;
use dns_text::types::NS;
use ranked::{Body, Find, Scope, SharedFind};
use std::alloc::Global;

/// The most finds of one message that are handed to a cache. A message of 64 KiB can name 2,600 owners, and whoever controls a
/// zone could fill a cache with them. It is more than a referral with 13 servers and two addresses each has.
pub const MOST_CHOSEN: usize = 64;

/// The octets of memory that the data of such a find take at most. 64 addresses take 6,144, four keys of 4,096 bits 2,600, and 50 TXT
/// records of 80 octets 10,450. A message of 64 KiB may have 4,000 MX records that point to one long name, which count as 1.6 MB.
pub const MOST_MEMORY: usize = 16_384;

/// The most servers of a message whose data come before other additional data. Two addresses of each fill `MOST_CHOSEN`.
pub const MOST_SERVERS: usize = 32;

/// Whether a find of this scope is about a type.
fn has_kind(scope: Scope, kind: u16) -> bool
    ensures { result ≡ has_kind scope kind }
{
    match scope {
        Scope::One(own) => own == kind,
        Scope::Whole => true,
    }
}

/// The data of a find; a negative answer has none.
fn data_in(body: &Body) -> &[Data]
    ensures { result.now ≡ data_of body.now }
{
    match body {
        Body::Set(data) => data.as_slice(),
        Body::NoData(_) | Body::NoName(_) => &[],
    }
}

/// Whether a find may be cached.
fn is_small(find: &Find) -> bool
    ensures { result ≡ is_small (said_by find.now) }
{
    find.memory() <= MOST_MEMORY
}

/// The finds that may be cached.
fn small_of(alloc: Global, finds: &[SharedFind]) -> Result<Vec<SharedFind>, NoMemory>
    ensures { IfOk result (λ small. map said_by small.items ≡ filter is_small (map said_by finds.now)) }
{
    let mut small = Vec::with_capacity(alloc, finds.len())?;
    for find in finds {
        if is_small(find.find()) {
            small.push(find.share()?)?;
        }
    }
    Ok(small)
}

/// Adds the names in data.
fn push_names(found: &[Data], out: &mut Vec<Name>) -> Result<(), NoMemory>
    ensures { OnOk result (out.new.items ≡ out.old.items ++ filter_map target_of found.now) }
{
    for datum in found {
        if let Data::One(name) = datum {
            out.push(name.clone()?)?;
        }
    }
    Ok(())
}

/// Adds the servers that a find names.
fn push_servers(find: &Find, out: &mut Vec<Name>) -> Result<(), NoMemory>
    ensures { OnOk result (out.new.items ≡ out.old.items ++ servers_of (said_by find.now)) }
{
    if !has_kind(find.scope, NS) {
        return Ok(());
    }
    push_names(data_in(&find.body), out)
}

/// The servers that finds name, the first ones.
fn servers_in(alloc: Global, finds: &[SharedFind]) -> Result<Vec<Name>, NoMemory>
    ensures { IfOk result (λ servers. servers.items ≡ servers_in (map said_by finds.now)) }
{
    let mut servers = Vec::new(alloc);
    for find in finds {
        push_servers(find.find(), &mut servers)?;
    }
    servers.truncate(MOST_SERVERS);
    Ok(servers)
}

/// Whether a find is more than additional data.
fn is_first(servers: &[Name], find: &Find) -> bool
    ensures { result ≡ is_first servers.now (said_by find.now) }
{
    find.rank.level() > 1 || has_kind(find.scope, NS) || servers.contains(&find.owner)
}

/// How many finds come first.
fn count_first(servers: &[Name], finds: &[SharedFind]) -> usize
    ensures { result ≡ length (filter (is_first servers.now) (map said_by finds.now)) }
{
    let mut count = 0;
    for find in finds {
        if is_first(servers, find.find()) {
            count += 1;
        }
    }
    count
}

/// The finds that come first, and so many of the others.
fn with_few(
    alloc: Global,
    servers: &[Name],
    places: usize,
    finds: &[SharedFind],
) -> Result<Vec<SharedFind>, NoMemory>
    ensures { IfOk result (λ some. map said_by some.items ≡ with_few (is_first servers.now) places (map said_by finds.now)) }
{
    let mut some = Vec::new(alloc);
    let mut left = places;
    for find in finds {
        if is_first(servers, find.find()) {
            some.push(find.share()?)?;
        } else if left > 0 {
            left -= 1;
            some.push(find.share()?)?;
        }
    }
    Ok(some)
}

/// The finds that are handed to a cache.
#[tactic(auto, using(crate::proofs::ChosenLaws::whole_chosen, crate::proofs::ChosenLaws::made_chosen))]
pub(crate) fn chosen_of(alloc: Global, finds: &[SharedFind]) -> Result<Vec<SharedFind>, NoMemory>
    ensures { IfOk result (λ chosen. map said_by chosen.items ≡ chosen_of (map said_by finds.now)) }
{
    let small = small_of(alloc, finds)?;
    if small.len() <= MOST_CHOSEN {
        return Ok(small);
    }
    let servers = servers_in(alloc, finds)?;
    let places = MOST_CHOSEN.saturating_sub(count_first(&servers, &small));
    let mut chosen = with_few(alloc, &servers, places, &small)?;
    chosen.truncate(MOST_CHOSEN);
    Ok(chosen)
}
