//! IPv6 addresses as text.

ghost use Rattle.std.specs.Prelude.{◌≡◌, ◌<◌, ◌≤◌, ◌++◌, ◌+◌, ◌*◌, ℕ, option_map, length, replicate, slice_index, MatchOption, IfSome, OnOk, List, Some, [], ◌∷◌};
ghost use Rattle.std.specs.Char.{digit_char};
ghost use Rattle.std.specs.List.{slice_split};
ghost use Rattle.std.specs.Net.Text.{hex, groups_text};
ghost use Rattle.std.specs.Net.Addr.{segments_of};
ghost use Rattle.dns_text.specs.Ipv6.{hex_in, four_in, group_in, with_group, with_word, octets_after, is_colon, groups_in, behind_colon, behind_gap, IsOneGroup, BeginsWithGroup, head_after, with_zeros, address_of, ipv6_in, IsIpv6Text, ipv6_text};

use crate::word::cut_at;
use arrayvec::ArrayVec;
use dns_name::NoMemory;

/// The octets of an address, or of some groups of one.
type GroupOctets = ArrayVec<u8, 16>;

/// The number of a hexadecimal digit.
fn read_hex(digit: u8) -> Option<u16>
    ensures value { result ≡ hex_in digit }
    ensures bound { IfSome result (λ n. n < 16) }
{
    let n = char::from(digit).to_digit(16)?;
    Some(n as u16)
}

/// The number of four hexadecimal digits.
fn read_four(a: u8, b: u8, c: u8, d: u8) -> Option<u16>
    ensures { result ≡ four_in a b c d }
{
    let a = read_hex(a)?;
    let b = read_hex(b)?;
    let c = read_hex(c)?;
    let d = read_hex(d)?;
    Some(((a * 16 + b) * 16 + c) * 16 + d)
}

/// The number of a group: one to four hexadecimal digits.
#[tactic(auto, unfolding(crate::specs::Ipv6::group_in))]
fn read_group(word: &[u8]) -> Option<u16>
    ensures { result ≡ group_in word.now }
{
    match word {
        [d] => read_four(b'0', b'0', b'0', *d),
        [c, d] => read_four(b'0', b'0', *c, *d),
        [b, c, d] => read_four(b'0', *b, *c, *d),
        [a, b, c, d] => read_four(*a, *b, *c, *d),
        _ => None,
    }
}

/// Adds the octets of a group, if there is room for them.
fn add_group(group: u16, octets: &mut GroupOctets) -> Option<()>
    ensures { option_map (λ _. octets.new.items) result ≡ with_group octets.old.items group }
{
    if octets.len() > 14 {
        return None;
    }
    octets.push((group / 256) as u8);
    octets.push((group % 256) as u8);
    Some(())
}

/// Adds the octets of a group's word, if it is a group and there is room for them.
fn add_word(word: &[u8], octets: &mut GroupOctets) -> Option<()>
    ensures { option_map (λ _. octets.new.items) result ≡ with_word octets.old.items word.now }
{
    add_group(read_group(word)?, octets)
}

/// The first group of a text and the rest after its colon; none if it is the only group.
fn cut_at_colon(text: &[u8]) -> Option<(&[u8], &[u8])>
    ensures cut { MatchOption result (IsOneGroup text.now) (λ r. BeginsWithGroup text.now r.0.now r.1.now) }
    ensures less { IfSome result (λ r. length r.1.now < length text.now) }
{
    cut_at(b':', text)
}

/// The octets of groups with a colon between each two.
#[tactic(auto, unfolding(crate::specs::Ipv6::octets_after))]
fn read_some_groups(text: &[u8]) -> Option<GroupOctets>
    ensures { option_map (λ v. v.items) result ≡ octets_after [] (slice_split is_colon text.now) }
{
    let mut octets: GroupOctets = ArrayVec::new();
    let mut rest = text;
    while let Some((word, after)) = cut_at_colon(rest) {
        add_word(word, &mut octets)?;
        rest = after;
    }
    add_word(rest, &mut octets)?;
    Some(octets)
}

/// The octets of groups with a colon between each two, or of no group.
#[tactic(auto, unfolding(crate::specs::Ipv6::groups_in))]
fn read_groups(text: &[u8]) -> Option<GroupOctets>
    ensures { option_map (λ v. v.items) result ≡ groups_in text.now }
{
    match text {
        [] => Some(ArrayVec::new()),
        _ => read_some_groups(text),
    }
}

/// The text after a colon at its front.
fn behind_colon(text: &[u8]) -> Option<&[u8]>
    ensures { option_map (λ back. back.now) result ≡ behind_colon text.now }
{
    match text {
        [b':', back @ ..] => Some(back),
        _ => None,
    }
}

/// The text after a `::` at its front.
fn behind_gap(text: &[u8]) -> Option<&[u8]>
    ensures { option_map (λ back. back.now) result ≡ behind_gap text.now }
{
    match text {
        [b':', b':', back @ ..] => Some(back),
        _ => None,
    }
}

/// The octets of one group or more up to the first `::`, and the text after it, if there is one.
fn read_head(text: &[u8]) -> Option<(GroupOctets, Option<&[u8]>)>
    ensures { option_map (λ r. (r.0.items, option_map (λ back. back.now) r.1)) result ≡ head_after [] text.now }
{
    let mut octets: GroupOctets = ArrayVec::new();
    let mut rest = text;
    while let Some((word, after)) = cut_at(b':', rest) {
        add_word(word, &mut octets)?;
        if let Some(back) = behind_colon(after) {
            return Some((octets, Some(back)));
        }
        rest = after;
    }
    add_word(rest, &mut octets)?;
    Some((octets, None))
}

/// Zeros. A function of its own, so that no proof goal spells them out.
fn zeros(n: usize) -> &'static [u8]
    requires { n ≤ 16 }
    ensures { result.now ≡ replicate n 0 }
{
    &[0; 16][..n]
}

/// The address of these octets around `::`, which stands for one group of zero or more.
fn fill_gap(mut octets: GroupOctets, tail: &[u8]) -> Option<[u8; 16]>
    ensures { result ≡ with_zeros octets.items tail.now }
{
    let known = octets.len() + tail.len();
    if known > 14 {
        return None;
    }
    octets.try_extend_from_slice(zeros(16 - known)).ok()?;
    octets.try_extend_from_slice(tail).ok()?;
    octets.into_inner().ok()
}

/// The address of the groups before `::`, if the text has one, and of the groups after it.
fn address_of(head: GroupOctets, back: Option<&[u8]>) -> Option<[u8; 16]>
    ensures { result ≡ address_of head.items (option_map (λ back. back.now) back.entry) }
{
    match back {
        None => head.into_inner().ok(),
        Some(back) => {
            let tail = read_groups(back)?;
            fill_gap(head, tail.as_slice())
        }
    }
}

/// The octets of an address.
fn parse_ipv6(text: &[u8]) -> Option<[u8; 16]>
    ensures { result ≡ ipv6_in text.now }
{
    match behind_gap(text) {
        Some(back) => address_of(ArrayVec::new(), Some(back)),
        None => {
            let (head, back) = read_head(text)?;
            address_of(head, back)
        }
    }
}

/// The octets of an IPv6 address (RFC 4291, section 2.2, without its third form, which ends as an IPv4 address).
pub(crate) fn read_ipv6(text: &[u8]) -> Option<[u8; 16]>
    ensures exact { result ≡ ipv6_in text.now }
    ensures stands { IfSome result (IsIpv6Text text.now) }
    ensures every { (octets : List ℕ) → IsIpv6Text text.now octets → result ≡ Some octets }
{
    parse_ipv6(text)
}

/// A hexadecimal digit, a small letter from ten on.
fn hex_digit(n: u16) -> u8
    requires { n < 16 }
    ensures { result ≡ digit_char n }
{
    if n < 10 {
        b'0' + n as u8
    } else {
        b'a' - 10 + n as u8
    }
}

/// Writes a group without leading zeros.
#[tactic(auto, unfolding(std::specs::Net::Text::hex))]
fn push_group(high: u8, low: u8, out: &mut Vec<u8>) -> Result<(), NoMemory>
    ensures { OnOk result (out.new.items ≡ out.old.items ++ hex (high * 256 + low)) }
{
    let n = u16::from(high) * 256 + u16::from(low);
    let digits = [
        hex_digit(n / 4096),
        hex_digit(n / 256 % 16),
        hex_digit(n / 16 % 16),
        hex_digit(n % 16),
    ];
    if n >= 4096 {
        out.extend_from_slice(&digits)
    } else if n >= 256 {
        out.extend_from_slice(&digits[1..])
    } else if n >= 16 {
        out.extend_from_slice(&digits[2..])
    } else {
        out.extend_from_slice(&digits[3..])
    }
}

/// Writes an IPv6 address as eight groups, with no `::`.
pub(crate) fn push_ipv6(octets: &[u8; 16], out: &mut Vec<u8>) -> Result<(), NoMemory>
    ensures text { OnOk result (out.new.items ≡ out.old.items ++ ipv6_text octets.now) }
    ensures octets { (i : ℕ) → slice_index octets.now i < 256 }
    ensures length { length octets.now ≡ 16 }
{
    push_group(octets[0], octets[1], out)?;
    let mut rest = &octets[2..];
    while let [high, low, more @ ..] = rest {
        out.push(b':')?;
        push_group(*high, *low, out)?;
        rest = more;
    }
    Ok(())
}
