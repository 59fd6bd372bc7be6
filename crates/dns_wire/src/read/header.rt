//! The header of a message.

ghost use Rattle.std.specs.Prelude.{◌≡◌, ◌≤◌, length};
ghost use Rattle.dns_wire.specs.Read.Header.{head_of, head_in};

use crate::limits::HEADER_OCTETS;
use crate::message::Head;
use crate::opcode::Opcode;
use crate::rcode::Rcode;
use crate::read::number::u16_at;
use crate::reserved::Reserved;

fn head_of(id: u16, flags: u16) -> Head
    ensures { result ≡ head_of id flags }
{
    Head {
        id,
        qr: flags / 32768 % 2 == 1,
        opcode: Opcode::in_flags(flags),
        aa: flags / 1024 % 2 == 1,
        tc: flags / 512 % 2 == 1,
        rd: flags / 256 % 2 == 1,
        ra: flags / 128 % 2 == 1,
        z: Reserved::in_flags(flags),
        rcode: Rcode::in_flags(flags),
    }
}

pub(crate) fn head_in(message: &[u8]) -> Head
    requires { HEADER_OCTETS ≤ length message.now }
    ensures { result ≡ head_in message.now }
{
    head_of(u16_at(message, 0), u16_at(message, 2))
}
