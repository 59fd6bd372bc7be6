//! The text of the answers of local data and local zones.

ghost use Rattle.std.specs.Prelude.{◌≡◌, ◌++◌, IsTrue, IfOk, OnOk, OnErr, codes, flat_map};
ghost use Rattle.streams.specs.Split.{with_end};
ghost use Rattle.streams.specs.Text.{octets_in};
ghost use Rattle.dns_text.specs.Data.{data_text};
ghost use Rattle.command_text.specs.Text.{records_text, local_text, has_data};

use dns_text::{Items, NoMemory, push_data, push_type};
use itoa::Buffer;
use local_zone::{Local, LocalRecord, SeenRecord};
use std::alloc::Global;
use streams::Text;

/// Writes the data after the first of a set.
fn push_other_data(others: &[SeenRecord], out: &mut Vec<u8>) -> Result<(), NoMemory>
    ensures { OnOk result (out.new.items ≡ out.old.items ++ flat_map (λ r. codes " | " ++ data_text r.body) others.now) }
{
    for other in others {
        out.extend_from_slice(b" | ")?;
        push_data(other.body(), out)?;
    }
    Ok(())
}

/// Writes `TTL OWNER TYPE DATA`.
fn push_set(records: &[SeenRecord], out: &mut Vec<u8>) -> Result<(), NoMemory>
    ensures { OnOk result (out.new.items ≡ out.old.items ++ records_text records.now) }
{
    match records {
        [] => Ok(()),
        [first, others @ ..] => {
            let mut digits = Buffer::new();
            out.extend_from_slice(digits.format(u64::from(first.ttl().seconds())).as_bytes())?;
            out.push(b' ')?;
            first.owner().push_text(out)?;
            out.push(b' ')?;
            push_type(first.kind(), out)?;
            out.push(b' ')?;
            push_data(first.body(), out)?;
            push_other_data(others, out)
        }
    }
}

fn data_line(alloc: Global, records: &Items<SeenRecord>) -> Result<Vec<u8>, NoMemory>
    ensures { IfOk result (λ text. text.items ≡ with_end (codes "local " ++ records_text records.now)) }
{
    let mut out = Vec::new(alloc);
    out.extend_from_slice(b"local ")?;
    push_set(records.as_slice(), &mut out)?;
    out.push(b'\n')?;
    Ok(out)
}

/// The line of a local answer. Only that of data takes memory.
pub(crate) fn answer_line(
    alloc: Global,
    answer: &Local<Items<SeenRecord>, LocalRecord>,
) -> Result<Text, NoMemory>
    ensures text { IfOk result (λ text. octets_in text ≡ with_end (local_text answer.now)) }
    ensures memory { OnErr result (IsTrue (has_data answer.now)) }
{
    match answer {
        Local::Data(records) => Ok(Text::Made(data_line(alloc, records)?)),
        Local::NoData(_) => Ok(Text::Fixed(b"local nodata\n")),
        Local::NoName(_) => Ok(Text::Fixed(b"local noname\n")),
        Local::Refuse => Ok(Text::Fixed(b"local refuse\n")),
        Local::Drop => Ok(Text::Fixed(b"local drop\n")),
        Local::Pass => Ok(Text::Fixed(b"unknown\n")),
    }
}
