//! Lists of addresses joined, each address once.

ghost use Rattle.std.specs.Prelude.{◌≡◌, ◌⊎◌, ◌↔◌, not, IsTrue, IfOk, OnOk, length, take};
ghost use Rattle.std.specs.List.{Contains};
ghost use Rattle.dns_text.specs.declared.addr.Addr.{Addr};
ghost use Rattle.iterate.specs.Joining.{has_addr, AreAmong, Joins, Notes};
ghost use Rattle.iterate.specs.Searching.{AreDistinct};

use dns_name::NoMemory;
use dns_text::{Addr, Ip};
use std::alloc::Global;
use std::collections::BTreeSet;

/// Up to this many new addresses are compared with each known one; more are looked up in an ordered set.
const MOST_COMPARED: usize = 32;

// ---- a few

fn is_same(addr: &Addr, other: &Addr) -> bool
    ensures { IsTrue result ↔ (addr.now ≡ other.now) }
{
    addr == other
}

fn is_listed(addrs: &[Addr], addr: &Addr) -> bool
    ensures { IsTrue result ↔ Contains addrs.now addr.now }
{
    for known in addrs {
        if is_same(known, addr) {
            return true;
        }
    }
    false
}

/// These addresses, and this one if it is not among them.
fn with_addr(addrs: Vec<Addr>, addr: &Addr) -> Result<Vec<Addr>, NoMemory>
    ensures first { IfOk result (λ v. take (length addrs.items) v.items ≡ addrs.items) }
    ensures has { IfOk result (λ v. Contains v.items addr.now) }
    ensures only { IfOk result (λ v. (other : Addr) → Contains v.items other → Contains addrs.items other ⊎ (addr.now ≡ other)) }
    ensures distinct { AreDistinct addrs.items → IfOk result (λ v. AreDistinct v.items) }
{
    let mut addrs = addrs;
    if is_listed(&addrs, addr) {
        return Ok(addrs);
    }
    addrs.push(*addr)?;
    Ok(addrs)
}

/// These addresses, then the few others that are new.
fn join_few(known: Vec<Addr>, others: &[Addr]) -> Result<Vec<Addr>, NoMemory>
    ensures { IfOk result (λ v. Joins known.items others.now v.items) }
{
    let mut addrs = known;
    for addr in others {
        addrs = with_addr(addrs, addr)?;
    }
    Ok(addrs)
}

// ---- many

/// Addresses in order, each as its port and its octets.
#[derive(Drop)]
struct AddrSet {
    v4: BTreeSet<(u16, [u8; 4])>,
    v6: BTreeSet<(u16, [u8; 16])>,
}

/// Adds an address, and returns whether it is new.
fn note(seen: &mut AddrSet, addr: &Addr) -> Result<bool, NoMemory>
    ensures told { IfOk result (λ added. added ≡ not (has_addr seen.old addr.now)) }
    ensures adds { OnOk result (Notes seen.old seen.new addr.now) }
{
    match addr.ip {
        Ip::V4(octets) => Ok(seen.v4.insert((addr.port, octets))?),
        Ip::V6(octets) => Ok(seen.v6.insert((addr.port, octets))?),
    }
}

/// The set of these addresses.
fn set_of(alloc: Global, addrs: &[Addr]) -> Result<AddrSet, NoMemory>
    ensures { IfOk result (λ seen. AreAmong seen addrs.now) }
{
    let mut seen = AddrSet {
        v4: BTreeSet::new(alloc),
        v6: BTreeSet::new(alloc),
    };
    for addr in addrs {
        note(&mut seen, addr)?;
    }
    Ok(seen)
}

/// These addresses, and this one if it is not in the set of them.
fn with_noted(addrs: Vec<Addr>, seen: &mut AddrSet, addr: &Addr) -> Result<Vec<Addr>, NoMemory>
    requires { AreAmong seen.old addrs.items }
    ensures first { IfOk result (λ v. take (length addrs.items) v.items ≡ addrs.items) }
    ensures has { IfOk result (λ v. Contains v.items addr.now) }
    ensures only { IfOk result (λ v. (other : Addr) → Contains v.items other → Contains addrs.items other ⊎ (addr.now ≡ other)) }
    ensures distinct { AreDistinct addrs.items → IfOk result (λ v. AreDistinct v.items) }
    ensures seen { IfOk result (λ v. AreAmong seen.new v.items) }
{
    let mut addrs = addrs;
    let added = note(seen, addr)?;
    if !added {
        return Ok(addrs);
    }
    addrs.push(*addr)?;
    Ok(addrs)
}

/// These addresses, then the many others that are new.
fn join_many(alloc: Global, known: Vec<Addr>, others: &[Addr]) -> Result<Vec<Addr>, NoMemory>
    ensures { IfOk result (λ v. Joins known.items others.now v.items) }
{
    let mut seen = set_of(alloc, &known)?;
    let mut addrs = known;
    for addr in others {
        addrs = with_noted(addrs, &mut seen, addr)?;
    }
    Ok(addrs)
}

/// These addresses, then the others that are new.
pub(crate) fn join_addrs(
    alloc: Global,
    known: Vec<Addr>,
    others: &[Addr],
) -> Result<Vec<Addr>, NoMemory>
    ensures { IfOk result (λ v. Joins known.items others.now v.items) }
{
    if others.len() <= MOST_COMPARED {
        join_few(known, others)
    } else {
        join_many(alloc, known, others)
    }
}
