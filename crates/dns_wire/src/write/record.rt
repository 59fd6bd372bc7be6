//! Records as octets, each after what `out` holds. If memory runs out, a part of them may have been written.

ghost use Rattle.std.specs.Prelude.{◌≡◌, ◌++◌, ◌≤◌, ◌<◌, ◌^◌, length, OnOk};
ghost use Rattle.std.specs.List.{AllByRecursion};
ghost use Rattle.std.specs.Option.{option_copied};
ghost use Rattle.dns_name.specs.Labels.{IsName};
ghost use Rattle.dns_wire.specs.Lent.{part_at};
ghost use Rattle.dns_wire.specs.WellFormed.{HasItsForm, IsRecord};
ghost use Rattle.dns_wire.specs.Write.Rdata.{data_octets};
ghost use Rattle.dns_wire.specs.Write.Record.{behind_owner_octets, record_octets, records_octets, fields_octets, part_octets};

use crate::lent::{LentRecord, Section, record_in};
use crate::limits::MOST_OCTETS;
use crate::write::name::push_owner;
use crate::write::rdata::push_data;
use crate::write::size::data_len;
use dns_name::Name;
use std::alloc::AllocError;

/// The fields of a record between its owner and its data, in one piece.
fn push_fields(
    out: &mut Vec<u8>,
    kind: u16,
    class: u16,
    ttl: u32,
    len: u16,
) -> Result<(), AllocError>
    ensures octets { OnOk result (out.new.items ≡ out.old.items ++ fields_octets kind class ttl len) }
    ensures range { (kind < 2 ^ 16) × (class < 2 ^ 16) × (ttl < 2 ^ 32) }
{
    let [kind_high, kind_low] = kind.to_be_bytes();
    let [class_high, class_low] = class.to_be_bytes();
    let [a, b, c, d] = ttl.to_be_bytes();
    let [len_high, len_low] = len.to_be_bytes();
    out.extend_from_slice(&[
        kind_high, kind_low, class_high, class_low, a, b, c, d, len_high, len_low,
    ])
}

/// The fields of a record after its owner.
fn push_behind_owner(out: &mut Vec<u8>, entry: &LentRecord<'_>) -> Result<(), AllocError>
    requires form { HasItsForm entry.now }
    requires short { length (data_octets entry.now.item.body) ≤ MOST_OCTETS }
    ensures octets { OnOk result (out.new.items ≡ out.old.items ++ behind_owner_octets entry.now) }
    ensures fits { OnOk result (IsName entry.now.item.owner → IsRecord entry.now) }
{
    let len = data_len(entry.body).unwrap();
    push_fields(
        out,
        entry.kind,
        entry.class,
        entry.ttl.seconds(),
        len as u16,
    )?;
    push_data(out, entry.body)
}

/// A record in a message whose first question has this name.
fn push_record(
    out: &mut Vec<u8>,
    first: Option<&Name>,
    entry: &LentRecord<'_>,
) -> Result<(), AllocError>
    requires form { HasItsForm entry.now }
    requires short { length (data_octets entry.now.item.body) ≤ MOST_OCTETS }
    ensures octets { OnOk result (out.new.items ≡ out.old.items ++ record_octets (option_copied first.entry) entry.now) }
    ensures fits { OnOk result (IsRecord entry.now) }
{
    push_owner(out, first, entry.owner)?;
    push_behind_owner(out, entry)
}

/// A part of a section.
pub(crate) fn push_part<S: Section>(
    out: &mut Vec<u8>,
    first: Option<&Name>,
    section: &S,
    part: usize,
) -> Result<(), AllocError>
    requires forms { AllByRecursion HasItsForm (part_at (S.parts section.now) part) }
    requires short { length (records_octets (option_copied first) (part_at (S.parts section.now) part)) ≤ MOST_OCTETS }
    ensures octets { OnOk result (out.new.items ≡ out.old.items ++ part_octets (option_copied first.entry) (S.parts section.now) part) }
    ensures fits { OnOk result (AllByRecursion IsRecord (part_at (S.parts section.now) part)) }
{
    for place in 0..section.record_count(part) {
        push_record(out, first, &record_in(section, part, place))?;
    }
    Ok(())
}
