//! Names as octets, each after what `out` holds.

ghost use Rattle.std.specs.Prelude.{◌≡◌, ◌++◌, ◌<◌, ◌+◌, OnOk};
ghost use Rattle.std.specs.Option.{option_copied};
ghost use Rattle.dns_name.specs.Labels.{IsName};
ghost use Rattle.dns_wire.specs.Write.Name.{name_octets, owner_octets};

use crate::limits::{POINTER_MARK, QUESTION_PLACE};
use dns_name::Name;
use std::alloc::AllocError;

/// A name, whole.
pub(crate) fn push_name(out: &mut Vec<u8>, name: &Name) -> Result<(), AllocError>
    ensures octets { OnOk result (out.new.items ≡ out.old.items ++ name_octets name.now) }
    ensures name { IsName name.now }
{
    let _len = name.wire_len();
    name.push_spelled(out)?;
    out.push(0)?;
    Ok(())
}

/// An owner in a message whose first question has this name.
pub(crate) fn push_owner(
    out: &mut Vec<u8>,
    first: Option<&Name>,
    owner: &Name,
) -> Result<(), AllocError>
    ensures octets { OnOk result (out.new.items ≡ out.old.items ++ owner_octets (option_copied first.entry) owner.now) }
    ensures name { IsName owner.now }
{
    let _len = owner.wire_len();
    match first {
        Some(first) if *first == *owner => out.extend_from_slice(&[POINTER_MARK, QUESTION_PLACE]),
        _ => push_name(out, owner),
    }
}
