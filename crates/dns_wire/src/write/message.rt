//! The sections of a message as octets, after what `out` holds.

ghost use Rattle.std.specs.Prelude.{◌≡◌, ◌++◌, ◌≤◌, ◌<◌, ◌+◌, length, OnOk};
ghost use Rattle.std.specs.List.{AllByRecursion};
ghost use Rattle.std.specs.Option.{option_copied};
ghost use Rattle.dns_wire.specs.Lent.{in_order};
ghost use Rattle.dns_wire.specs.WellFormed.{HasItsForm, IsRecord, AreFormed, AreRecords};
ghost use Rattle.dns_wire.specs.Write.Record.{records_octets, section_octets};
ghost use Rattle.dns_wire.specs.Write.Size.{records_len};
ghost use Rattle.dns_wire.specs.Write.Message.{sections_octets};

use crate::lent::{Section, Sections};
use crate::limits::MOST_OCTETS;
use crate::write::record::push_part;
use dns_name::Name;
use std::alloc::AllocError;

/// A section of a message whose first question has this name, if it has a question.
fn push_section<S: Section>(
    out: &mut Vec<u8>,
    first: Option<&Name>,
    section: &S,
) -> Result<(), AllocError>
    requires forms { AllByRecursion HasItsForm (in_order (S.parts section.now)) }
    requires short { length (records_octets (option_copied first) (in_order (S.parts section.now))) ≤ MOST_OCTETS }
    ensures octets { OnOk result (out.new.items ≡ out.old.items ++ section_octets (option_copied first.entry) (S.parts section.now)) }
    ensures fits { OnOk result (AllByRecursion IsRecord (in_order (S.parts section.now))) }
{
    for part in 0..section.part_count() {
        push_part(out, first, section, part)?;
    }
    Ok(())
}

/// The sections after the questions. The first question, if there is one, has this name.
pub(crate) fn push_sections<A: Section, B: Section, C: Section>(
    out: &mut Vec<u8>,
    first: Option<&Name>,
    sections: &Sections<'_, A, B, C>,
) -> Result<(), AllocError>
    requires forms { AreFormed sections.now }
    requires short { records_len (option_copied first) sections.now ≤ MOST_OCTETS }
    ensures octets { OnOk result (out.new.items ≡ out.old.items ++ sections_octets (option_copied first.entry) sections.now) }
    ensures fits { OnOk result (AreRecords sections.now) }
{
    push_section(out, first, sections.answer)?;
    push_section(out, first, sections.authority)?;
    push_section(out, first, sections.additional)
}
