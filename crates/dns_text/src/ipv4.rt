//! IPv4 addresses as text.

ghost use Rattle.std.specs.Prelude.{length, ◌≡◌, ◌<◌, ◌++◌, ℕ, slice_index, OnOk};
ghost use Rattle.dns_text.specs.Ipv4.{octet_in, ipv4_in, dotted_text, ipv4_text};

use crate::number::{MOST_8, push_number, read_short_number};
use crate::word::cut_at;
use dns_name::NoMemory;

/// The octet that a word stands for: 0 to 255, without leading zeros.
fn read_octet(word: &[u8]) -> Option<u8>
    ensures { result ≡ octet_in word.now }
{
    let n = read_short_number(word, MOST_8)?;
    Some(n as u8)
}

/// The octets of an IPv4 address (RFC 1035, section 3.4.1).
#[tactic(auto, unfolding(crate::specs::Ipv4::ipv4_in))]
pub(crate) fn read_ipv4(text: &[u8]) -> Option<[u8; 4]>
    ensures { result ≡ ipv4_in text.now }
{
    let (a, rest) = cut_at(b'.', text)?;
    let (b, rest) = cut_at(b'.', rest)?;
    let (c, d) = cut_at(b'.', rest)?;
    Some([
        read_octet(a)?,
        read_octet(b)?,
        read_octet(c)?,
        read_octet(d)?,
    ])
}

/// Writes a number and the dot after it.
fn push_dotted(n: u8, out: &mut Vec<u8>) -> Result<(), NoMemory>
    ensures { OnOk result (out.new.items ≡ out.old.items ++ dotted_text n) }
{
    push_number(u64::from(n), out)?;
    out.push(b'.')?;
    Ok(())
}

/// Writes an IPv4 address.
pub(crate) fn push_ipv4(octets: &[u8; 4], out: &mut Vec<u8>) -> Result<(), NoMemory>
    ensures text { OnOk result (out.new.items ≡ out.old.items ++ ipv4_text octets.now) }
    ensures octets { (i : ℕ) → slice_index octets.now i < 256 }
    ensures length { length octets.now ≡ 4 }
{
    let [a, b, c, d] = *octets;
    push_dotted(a, out)?;
    push_dotted(b, out)?;
    push_dotted(c, out)?;
    push_number(u64::from(d), out)
}
