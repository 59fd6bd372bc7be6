//! Ranges of addresses that words of the command line write.

ghost use Rattle.std.specs.Prelude.{◌≡◌, ◌⊎◌, ◌<◌, ◌≤◌, IfOk, IfErr, Some, None, map, Any, option_map};
ghost use Rattle.dns_text.specs.Word.{cut_at};
ghost use Rattle.resolver_args.specs.declared.fault.ArgsFault.TheVariants.{NoMemory};
ghost use Rattle.resolver_args.specs.Blame.{BlamesRange};
ghost use Rattle.resolver_args.specs.Given.{AreRead};
ghost use Rattle.resolver_args.specs.Ranges.{ip_alone, most_bits, range_in};
ghost use Rattle.resolver_args.specs.Says.{RefusedFor};

use crate::fault::{ArgsFault, BadArgument};
use dns_text::{Ip, read_addr, read_number};
use std::alloc::Global;
use system::AddressRange;

/// The octets before the first such octet, and the octets after it.
fn cut_at(octet: u8, text: &[u8]) -> Option<(&[u8], &[u8])>
    ensures { option_map (λ parts. (parts.0.now, parts.1.now)) result ≡ cut_at octet text.now }
{
    for (i, b) in text.iter().enumerate() {
        if *b == octet {
            return Some((&text[..i], &text[i + 1..]));
        }
    }
    None
}

/// The IP address of a text that names no port.
#[tactic(auto, unfolding(crate::specs::Ranges::ip_alone))]
fn ip_alone(text: &[u8]) -> Option<Ip>
    ensures { result ≡ ip_alone text.now }
{
    match cut_at(b'@', text) {
        Some(_) => None,
        None => match read_addr(text) {
            Ok(addr) => Some(addr.ip),
            Err(_) => None,
        },
    }
}

/// The number of bits of an address.
fn most_bits(ip: &Ip) -> u8
    ensures { result ≡ most_bits ip.now }
{
    match ip {
        Ip::V4(_) => 32,
        Ip::V6(_) => 128,
    }
}

/// The range that a word writes.
#[tactic(auto, unfolding(crate::specs::Ranges::range_in))]
fn read_range(word: &[u8]) -> Option<AddressRange>
    ensures { result ≡ range_in word.now }
{
    match cut_at(b'/', word) {
        Some((address, bits)) => {
            let ip = ip_alone(address)?;
            let bits = read_number(bits, u64::from(most_bits(&ip)))?;
            Some(AddressRange {
                ip,
                bits: bits as u8,
            })
        }
        None => {
            let ip = ip_alone(word)?;
            let bits = most_bits(&ip);
            Some(AddressRange { ip, bits })
        }
    }
}

/// The range that a word of this option writes.
fn range_of(alloc: Global, name: &'static str, word: &str) -> Result<AddressRange, ArgsFault>
    ensures given { IfOk result (λ range. range_in word.now ≡ Some range) }
    ensures fault { IfErr result (λ fault. (fault ≡ NoMemory) ⊎ ((range_in word.now ≡ None) × BlamesRange name.now word.now fault)) }
{
    match read_range(word.as_bytes()) {
        Some(range) => Ok(range),
        None => {
            let word = String::from_str(alloc, word)?;
            Err(ArgsFault::BadArguments(BadArgument::NotRange { name, word }))
        }
    }
}

/// The ranges that the words of this option write.
pub(crate) fn ranges_of(
    alloc: Global,
    name: &'static str,
    words: &[&str],
) -> Result<Vec<AddressRange>, ArgsFault>
    ensures ranges { IfOk result (λ ranges. AreRead range_in (map (λ word. word.now) words.now) ranges.items) }
    ensures fault { IfErr result (RefusedFor (Any (λ word. range_in word.now ≡ None) words.now)) }
{
    let mut ranges = Vec::new(alloc);
    for word in words {
        let range = range_of(alloc, name, word)?;
        if ranges.push(range).is_err() {
            return Err(ArgsFault::NoMemory);
        }
    }
    Ok(ranges)
}
