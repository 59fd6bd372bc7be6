//! A range of IP addresses (RFC 4632, section 3.1).

ghost use Rattle.std.specs.Prelude.{◌≡◌, ◌≤◌, ◌<◌, ◌^◌, ◌↔◌, IsTrue, length};
ghost use Rattle.system.specs.Ranges.{Agree, AreMapped, IsInRange, bit_at, bits_in, octets_of};

use dns_text::Ip;

/// The octets in an IPv4-mapped IPv6 address before its IPv4 address (RFC 4291, section 2.5.5.2).
const MAPPED_FRONT: [u8; 12] = [0, 0, 0, 0, 0, 0, 0, 0, 0, 0, 255, 255];

/// The number of bits of `MAPPED_FRONT`.
const MAPPED_BITS: usize = 96;

/// The addresses whose first `bits` bits are those of `ip`.
///
/// An IPv4-mapped IPv6 address is the IPv4 address in it. So `::ffff:192.0.2.0` with 120 bits is `192.0.2.0` with 24, and a range of
/// IPv6 addresses holds no IPv4 address. More bits than the address has mean the address alone.
#[derive(Clone, Copy, PartialEq, Eq)]
pub struct AddressRange {
    pub ip: Ip,
    pub bits: u8,
}

/// The octets of an address as one of IPv6.
fn octets_of(ip: &Ip) -> [u8; 16]
    ensures { result ≡ octets_of ip.now }
{
    match ip {
        Ip::V4(octets) => {
            let [a, b, c, d] = *octets;
            [0, 0, 0, 0, 0, 0, 0, 0, 0, 0, 255, 255, a, b, c, d]
        }
        Ip::V6(octets) => *octets,
    }
}

/// The bit of octets at a place.
fn bit_at(octets: &[u8], place: usize) -> u8
    ensures { result ≡ bit_at octets.now place }
{
    match octets.get(place / 8) {
        Some(octet) => (*octet >> (7 - place % 8)) % 2,
        None => 0,
    }
}

/// Whether so many first bits are the same.
fn agree(bits: usize, octets: &[u8], others: &[u8]) -> bool
    ensures { IsTrue result ↔ Agree bits octets.now others.now }
{
    for place in 0..bits {
        if bit_at(octets, place) != bit_at(others, place) {
            return false;
        }
    }
    true
}

/// Whether the octets of an address are those of an IPv4 address.
fn are_mapped(octets: &[u8; 16]) -> bool
    ensures { IsTrue result ↔ AreMapped octets.now }
{
    &octets[..12] == MAPPED_FRONT.as_slice()
}

impl AddressRange {
    /// The number of bits that count in an address as one of IPv6.
    fn bit_count(&self) -> usize
        ensures { result ≡ bits_in self.now.ip self.now.bits }
    {
        match self.ip {
            Ip::V4(_) => MAPPED_BITS + usize::from(self.bits),
            Ip::V6(_) => usize::from(self.bits),
        }
    }

    /// Whether an address lies in the range.
    pub fn holds(&self, ip: &Ip) -> bool
        ensures { IsTrue result ↔ IsInRange self.now ip.now }
    {
        let octets = octets_of(ip);
        let bits = self.bit_count();
        if bits < MAPPED_BITS && are_mapped(&octets) {
            return false;
        }
        agree(bits, &octets_of(&self.ip), &octets)
    }
}
