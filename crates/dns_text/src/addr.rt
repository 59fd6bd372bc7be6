//! Addresses of servers as text, such as `192.0.2.1@53`.

ghost use Rattle.std.specs.Prelude.{◌≡◌, ◌<◌, ◌++◌, IfOk, OnOk, Some};
ghost use Rattle.dns_text.specs.declared.fault.TextFault.TheVariants.{BadData};
ghost use Rattle.dns_name.specs.Results.{or_fault};
ghost use Rattle.dns_text.specs.Addr.{ip_in, port_in, addr_in, ip_text, addr_text, IpReads};

use crate::fault::TextFault;
use crate::ipv4::{push_ipv4, read_ipv4};
use crate::ipv6::{push_ipv6, read_ipv6};
use crate::number::{MOST_16, push_number, read_number};
use crate::word::cut_at;
use dns_name::NoMemory;
use std::alloc::Global;

/// The port of a server whose text names none.
pub(crate) const DEFAULT_PORT: u16 = 53;

/// An IPv4 or IPv6 address: its octets, the first first.
#[derive(Clone, Copy, PartialEq, Eq)]
pub enum Ip {
    V4([u8; 4]),
    V6([u8; 16]),
}

/// The address and port where a server listens.
#[derive(Clone, Copy, PartialEq, Eq)]
pub struct Addr {
    pub ip: Ip,
    pub port: u16,
}

/// The IP address that a word stands for.
fn read_ip(word: &[u8]) -> Option<Ip>
    ensures { result ≡ ip_in word.now }
{
    match read_ipv4(word) {
        Some(octets) => Some(Ip::V4(octets)),
        None => Some(Ip::V6(read_ipv6(word)?)),
    }
}

/// The port that a word stands for, which is not 0.
fn read_port(word: &[u8]) -> Option<u16>
    ensures { result ≡ port_in word.now }
{
    match read_number(word, MOST_16)? {
        0 => None,
        port => Some(port as u16),
    }
}

/// The address of a text `ip@port`, or of a text `ip`, for port 53. The only fault is `BadData`, for port 0 too.
#[tactic(auto, unfolding(crate::specs::Addr::addr_in))]
pub fn read_addr(text: &[u8]) -> Result<Addr, TextFault>
    ensures { result ≡ or_fault BadData (addr_in text.now) }
{
    let (word, port) = match cut_at(b'@', text) {
        None => (text, DEFAULT_PORT),
        Some((word, rest)) => (word, read_port(rest).ok_or(TextFault::BadData)?),
    };
    let ip = read_ip(word).ok_or(TextFault::BadData)?;
    Ok(Addr { ip, port })
}

/// Writes an IP address.
fn push_ip(ip: &Ip, out: &mut Vec<u8>) -> Result<(), NoMemory>
    ensures text { OnOk result (out.new.items ≡ out.old.items ++ ip_text ip.now) }
    ensures reads { IpReads ip.now }
{
    match ip {
        Ip::V4(octets) => push_ipv4(octets, out),
        Ip::V6(octets) => push_ipv6(octets, out),
    }
}

/// Writes an address with its port after what `out` holds. If memory runs out, a part of the text may have been written.
pub fn push_addr(addr: &Addr, out: &mut Vec<u8>) -> Result<(), NoMemory>
    ensures text { OnOk result (out.new.items ≡ out.old.items ++ addr_text addr.now) }
    ensures again { OnOk result (0 < addr.now.port → addr_in (addr_text addr.now) ≡ Some addr.now) }
{
    push_ip(&addr.ip, out)?;
    out.push(b'@')?;
    push_number(u64::from(addr.port), out)
}

/// The text of an address, as `push_addr` writes it.
pub fn write_addr(alloc: Global, addr: &Addr) -> Result<Vec<u8>, NoMemory>
    ensures text { IfOk result (λ v. v.items ≡ addr_text addr.now) }
    ensures again { IfOk result (λ v. 0 < addr.now.port → addr_in v.items ≡ Some addr.now) }
{
    let mut out = Vec::new(alloc);
    push_addr(addr, &mut out)?;
    Ok(out)
}
