//! Numbers as octets, the high octet first, after what `out` holds.

ghost use Rattle.std.specs.Prelude.{◌≡◌, ◌++◌, ◌<◌, ◌^◌, ◌+◌, OnOk};
ghost use Rattle.dns_wire.specs.Write.Number.{u16_octets, u32_octets};

use std::alloc::AllocError;

pub(crate) fn push_u16(out: &mut Vec<u8>, n: u16) -> Result<(), AllocError>
    ensures octets { OnOk result (out.new.items ≡ out.old.items ++ u16_octets n) }
    ensures range { n < 2 ^ 16 }
{
    out.extend_from_slice(&n.to_be_bytes())
}

pub(crate) fn push_u32(out: &mut Vec<u8>, n: u32) -> Result<(), AllocError>
    ensures octets { OnOk result (out.new.items ≡ out.old.items ++ u32_octets n) }
    ensures range { n < 2 ^ 32 }
{
    out.extend_from_slice(&n.to_be_bytes())
}
