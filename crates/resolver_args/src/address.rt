//! Addresses that words of the command line write.

ghost use Rattle.std.specs.Prelude.{◌≡◌, ◌⊎◌, IsTrue, ◌↔◌, IsSome, IfOk, IfErr, Some, None, map, Any};
ghost use Rattle.dns_text.specs.Addr.{addr_in};
ghost use Rattle.resolver_args.specs.declared.fault.ArgsFault.TheVariants.{NoMemory};
ghost use Rattle.resolver_args.specs.Blame.{ip_part, IsNoAddr, BlamesWord};
ghost use Rattle.resolver_args.specs.Given.{AreAddrs};
ghost use Rattle.resolver_args.specs.Says.{RefusedFor};

use crate::fault::{ArgsFault, BadArgument};
use dns_text::{Addr, read_addr};
use std::alloc::{AllocError, Global};

/// The part of a word before its first `@`.
fn before_at(word: &[u8]) -> &[u8]
    ensures { result.now ≡ ip_part word.now }
{
    for (i, octet) in word.iter().enumerate() {
        if *octet == b'@' {
            return &word[..i];
        }
    }
    word
}

/// Why a word of this argument is no address.
fn blamed(alloc: Global, name: &'static str, word: &str) -> Result<BadArgument, AllocError>
    ensures { IfOk result (IsNoAddr name.now word.now) }
{
    let shown = String::from_str(alloc, word)?;
    match read_addr(before_at(word.as_bytes())) {
        Ok(_) => Ok(BadArgument::NotPort { name, word: shown }),
        Err(_) => Ok(BadArgument::NotIp { name, word: shown }),
    }
}

/// The address that a word of this argument writes.
pub(crate) fn addr_of(alloc: Global, name: &'static str, word: &str) -> Result<Addr, ArgsFault>
    ensures given { IfOk result (λ addr. addr_in word.now ≡ Some addr) }
    ensures fault { IfErr result (λ fault. (fault ≡ NoMemory) ⊎ ((addr_in word.now ≡ None) × BlamesWord name.now word.now fault)) }
{
    match read_addr(word.as_bytes()) {
        Ok(addr) => Ok(addr),
        Err(_) => Err(ArgsFault::BadArguments(blamed(alloc, name, word)?)),
    }
}

/// The addresses that the words of this argument write.
pub(crate) fn addrs_of(
    alloc: Global,
    name: &'static str,
    words: &[&str],
) -> Result<Vec<Addr>, ArgsFault>
    ensures addrs { IfOk result (λ addrs. AreAddrs (map (λ word. word.now) words.now) addrs.items) }
    ensures fault { IfErr result (RefusedFor (Any (λ word. addr_in word.now ≡ None) words.now)) }
{
    let mut addrs = Vec::new(alloc);
    for word in words {
        let addr = addr_of(alloc, name, word)?;
        if addrs.push(addr).is_err() {
            return Err(ArgsFault::NoMemory);
        }
    }
    Ok(addrs)
}
