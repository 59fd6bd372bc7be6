//! What is cached about a made-up name: sets, an alias, or a negative answer.

ghost use Rattle.std.specs.Prelude.{◌<◌};

use crate::draws::{below, draws_of};
use crate::names::push_name;
use anyhow::anyhow;
use dns_name::Name;
use dns_text::types::{A, AAAA, CNAME, MX, SOA, SRV, TXT};
use dns_text::{Data, Items, Record, Shared, read_data, read_record};
use rand_core::Rng;
use rand_pcg::Pcg32;
use ranked::{Find, Rank, SharedFind};
use std::alloc::Global;

/// The rank of what is cached beside negative answers: it came in reply to a question for it.
const RANK: Rank = Rank::AuthoritativeAnswer;

/// What a name has.
#[derive(Clone, Copy, PartialEq, Eq)]
pub enum Class {
    NoName,
    NoData,
    Alias,
    Sets,
}

/// What a name has, by its number: one in six a negative answer, one in ten an alias.
pub fn class_of(seed: u32, number: u32) -> Class {
    let mut rng = draws_of(seed, 3, number);
    match below(&mut rng, 24) {
        0 | 1 => Class::NoName,
        2 | 3 => Class::NoData,
        4 | 5 => Class::Alias,
        _ => Class::Sets,
    }
}

/// The type of a question: most are for addresses.
pub fn kind_of(rng: &mut Pcg32) -> u16 {
    match below(rng, 32) {
        0..=5 => AAAA,
        6 => MX,
        7 => TXT,
        _ => A,
    }
}

/// The name of a number. Its text replaces what a buffer holds.
pub fn name_of(alloc: Global, text: &mut Vec<u8>, seed: u32, number: u32) -> anyhow::Result<Name> {
    text.clear();
    push_name(text, seed, number)?;
    Ok(Name::from_text(alloc, text.as_slice())?)
}

/// The names up to a number.
pub fn names_up_to(alloc: Global, seed: u32, count: u32) -> anyhow::Result<Vec<Name>> {
    let mut names = Vec::new(alloc);
    let mut text = Vec::new(alloc);
    for number in 0..count {
        names.push(name_of(alloc, &mut text, seed, number)?)?;
    }
    Ok(names)
}

/// A set of one or two data, which may be alike.
fn set_of(
    alloc: Global,
    owner: Name,
    kind: u16,
    rank: Rank,
    ttl: u32,
    one: Data,
    other: Data,
) -> anyhow::Result<SharedFind> {
    if !one.has_form(kind) || !other.has_form(kind) {
        drop(owner);
        drop(one);
        drop(other);
        return Err(anyhow!("data of another type"));
    }
    let data = Items::new(vec![in alloc; one, other]?);
    match Find::new(owner, kind, rank, ttl, data) {
        Some(found) => Ok(SharedFind::new(alloc, found)?),
        None => Err(anyhow!("no find")),
    }
}

/// The SOA record of every negative answer.
pub fn soa_record(alloc: Global) -> anyhow::Result<Record> {
    Ok(read_record(
        alloc,
        b"example 300 SOA ns.example hostmaster.example 7 3600 900 604800 300",
    )?)
}

/// A negative answer with an SOA record: there is no such name, or it has no data of a type.
pub fn denial(
    alloc: Global,
    owner: Name,
    kind: Option<u16>,
    ttl: u32,
    soa: &Record,
) -> anyhow::Result<SharedFind> {
    if soa.kind != SOA || !soa.body.has_form(SOA) {
        drop(owner);
        return Err(anyhow!("it is no SOA record"));
    }
    let soa = Shared::new(alloc, soa.copy(alloc)?)?;
    let found = match kind {
        Some(kind) => Find::no_data(owner, kind, ttl, soa),
        None => Find::no_name(owner, ttl, soa),
    };
    match found {
        Some(found) => Ok(SharedFind::new(alloc, found)?),
        None => Err(anyhow!("no find")),
    }
}

/// An address.
fn address(drawn: u32) -> Data {
    let [a, b, c, _] = drawn.to_be_bytes();
    Data::A([192, a, b, c])
}

/// A set of one or two addresses.
pub fn addresses(
    alloc: Global,
    rng: &mut Pcg32,
    owner: Name,
    rank: Rank,
    ttl: u32,
) -> anyhow::Result<SharedFind> {
    let one = rng.next_u32();
    let drawn = rng.next_u32();
    let other = if rng.next_u32() % 2 == 0 { one } else { drawn };
    set_of(alloc, owner, A, rank, ttl, address(one), address(other))
}

/// An IPv6 address.
fn ipv6_address(drawn: u32) -> Data {
    let [a, b, c, d] = drawn.to_be_bytes();
    Data::Aaaa([0x20, 1, 0xd, 0xb8, 0, 0, 0, 0, 0, 0, 0, 0, a, b, c, d])
}

/// A set of two IPv6 addresses.
pub fn ipv6_addresses(
    alloc: Global,
    rng: &mut Pcg32,
    owner: Name,
    rank: Rank,
    ttl: u32,
) -> anyhow::Result<SharedFind> {
    let one = ipv6_address(rng.next_u32());
    let other = ipv6_address(rng.next_u32());
    set_of(alloc, owner, AAAA, rank, ttl, one, other)
}

/// The type that a name with sets has beside addresses, by its number: a third have one, most of these IPv6 addresses.
pub fn rarer_kind(seed: u32, number: u32) -> Option<u16> {
    let mut rng = draws_of(seed, 13, number);
    match below(&mut rng, 24) {
        0 => Some(MX),
        1 => Some(TXT),
        2 => Some(SRV),
        3..=7 => Some(AAAA),
        _ => None,
    }
}

/// A set of such a type.
fn rarer(
    alloc: Global,
    drawn: u32,
    owner: Name,
    kind: u16,
    ttl: u32,
) -> anyhow::Result<SharedFind> {
    let number = drawn % 65_536;
    let text = match kind {
        MX => format!(in alloc; "10 mail{number}.example")?,
        TXT => format!(in alloc; "\"v=spf1 include:_spf{number}.example -all\"")?,
        SRV => format!(in alloc; "1 {number} 5060 sip.example")?,
        _ => format!(in alloc; "2001:db8::{number:x}")?,
    };
    let one = read_data(alloc, kind, text.as_str().as_bytes())?;
    let other = one.copy(alloc)?;
    set_of(alloc, owner, kind, RANK, ttl, one, other)
}

/// The number of the name that an alias leads to: the next one that has sets, of so many names.
fn target_of(seed: u32, number: u32, count: u32) -> u32
    requires { 0 < count }
{
    for step in 1..64u32 {
        let next = number.wrapping_add(step) % count;
        if class_of(seed, next) == Class::Sets {
            return next;
        }
    }
    number
}

/// An alias.
fn alias(alloc: Global, owner: Name, target: Name, ttl: u32) -> anyhow::Result<SharedFind> {
    let one = Data::One(target);
    let other = one.copy(alloc)?;
    set_of(alloc, owner, CNAME, RANK, ttl, one, other)
}

/// A copy of a name by its number.
pub fn copy_of(names: &[Name], number: u32) -> anyhow::Result<Name> {
    match names.get(number as usize) {
        Some(name) => Ok(name.clone()?),
        None => Err(anyhow!("there is no such name")),
    }
}

/// What is cached about a name by its number. There are so many names.
pub fn finds_of(
    alloc: Global,
    seed: u32,
    number: u32,
    count: u32,
    names: &[Name],
    soa: &Record,
    ttl: u32,
) -> anyhow::Result<Vec<SharedFind>>
    requires { 0 < count }
{
    let mut rng = draws_of(seed, 4, number);
    let mut finds = Vec::new(alloc);
    let owner = copy_of(names, number)?;
    match class_of(seed, number) {
        Class::NoName => finds.push(denial(alloc, owner, None, ttl, soa)?)?,
        Class::NoData => finds.push(denial(alloc, owner, Some(A), ttl, soa)?)?,
        Class::Alias => {
            let target = copy_of(names, target_of(seed, number, count))?;
            finds.push(alias(alloc, owner, target, ttl)?)?;
        }
        Class::Sets => {
            if let Some(kind) = rarer_kind(seed, number) {
                let drawn = rng.next_u32();
                finds.push(rarer(alloc, drawn, owner.clone()?, kind, ttl)?)?;
            }
            finds.push(addresses(alloc, &mut rng, owner, RANK, ttl)?)?;
        }
    }
    Ok(finds)
}
