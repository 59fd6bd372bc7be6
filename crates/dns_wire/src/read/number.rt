//! Numbers, the high octet first.

ghost use Rattle.std.specs.Prelude.{◌≡◌, ◌≤◌, ◌+◌, length};
ghost use Rattle.dns_wire.specs.Read.Number.{u16_at, u32_at};

#[tactic(auto, unfolding(crate::specs::Read::Number::u16_at))]
pub(crate) fn u16_at(message: &[u8], at: usize) -> u16
    requires { at + 2 ≤ length message.now }
    ensures { result ≡ u16_at message.now at }
{
    let (_, rest) = message.split_at(at);
    let (octets, _) = rest.split_at(2);
    u16::from_be_bytes([octets[0], octets[1]])
}

#[tactic(auto, unfolding(crate::specs::Read::Number::u32_at))]
pub(crate) fn u32_at(message: &[u8], at: usize) -> u32
    requires { at + 4 ≤ length message.now }
    ensures { result ≡ u32_at message.now at }
{
    let (_, rest) = message.split_at(at);
    let (octets, _) = rest.split_at(4);
    u32::from_be_bytes([octets[0], octets[1], octets[2], octets[3]])
}
