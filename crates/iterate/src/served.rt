//! The name whose servers are asked about a question.

ghost use Rattle.std.specs.Prelude.{◌≡◌, IfOk, unwrap_or};
ghost use Rattle.dns_name.specs.Labels.{parent_of};
ghost use Rattle.iterate.specs.Served.{served_name};

use dns_name::{Name, NoMemory};
use dns_text::Question;
use std::alloc::Global;

/// The digest of a key of the zone below: data of the zone that delegates (RFC 4034, section 5).
pub(crate) const DS: u16 = 43;

/// The name above this one. The root is its own.
fn name_above(alloc: Global, name: &Name) -> Result<Name, NoMemory>
    ensures { IfOk result (λ above. above ≡ unwrap_or (parent_of name.now) name.now) }
{
    match name.parent(alloc)? {
        Some(above) => Ok(above),
        None => Ok(name.clone()?),
    }
}

/// The name whose servers are asked about a question: that of the question, and for DS the one above it (RFC 4035, section 3.1.4.1).
pub(crate) fn served_name(alloc: Global, question: &Question) -> Result<Name, NoMemory>
    ensures { IfOk result (λ name. name ≡ served_name question.now) }
{
    if question.kind == DS {
        return name_above(alloc, &question.owner);
    }
    Ok(question.owner.clone()?)
}
