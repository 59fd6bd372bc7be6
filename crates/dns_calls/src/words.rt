//! A message in words: its header, questions and records, each after a bar.

use dns_name::NoMemory;
use dns_text::{Question, Record, push_data, push_type};
use dns_wire::{CLASS_IN, Classed, Head, Message};
use std::alloc::Global;

/// Writes a class by name, or by number as in `CLASS3` (RFC 3597, section 5).
fn push_class(alloc: Global, class: u16, out: &mut Vec<u8>) -> Result<(), NoMemory> {
    if class == CLASS_IN {
        return out.extend_from_slice(b"IN");
    }
    out.extend_from_slice(format!(in alloc; "CLASS{class}")?.as_bytes())
}

/// The fields of a header by the names of RFC 1035, section 4.1.1.
fn head_words(alloc: Global, head: &Head) -> Result<Vec<u8>, NoMemory> {
    let id = head.id;
    let [qr, aa, tc, rd, ra] = [head.qr, head.aa, head.tc, head.rd, head.ra].map(u8::from);
    let opcode = head.opcode.number();
    let z = head.z.number();
    let rcode = head.rcode.number();
    let text = format!(in alloc;
        "ID {id} QR {qr} OPCODE {opcode} AA {aa} TC {tc} RD {rd} RA {ra} Z {z} RCODE {rcode}"
    )?;
    Ok(text.into_bytes())
}

/// Writes `NAME CLASS TYPE`.
pub fn push_question(
    alloc: Global,
    question: &Question,
    class: u16,
    out: &mut Vec<u8>,
) -> Result<(), NoMemory> {
    question.owner.push_text(out)?;
    out.push(b' ')?;
    push_class(alloc, class, out)?;
    out.push(b' ')?;
    push_type(question.kind, out)
}

/// Writes `NAME TTL CLASS TYPE DATA`.
pub fn push_record(
    alloc: Global,
    record: &Record,
    class: u16,
    out: &mut Vec<u8>,
) -> Result<(), NoMemory> {
    let ttl = record.ttl.seconds();
    record.owner.push_text(out)?;
    out.extend_from_slice(format!(in alloc; " {ttl} ")?.as_bytes())?;
    push_class(alloc, class, out)?;
    out.push(b' ')?;
    push_type(record.kind, out)?;
    out.push(b' ')?;
    push_data(&record.body, out)
}

/// Writes each record of a section after a bar and the section's name.
fn push_section(
    alloc: Global,
    section: &[u8],
    records: &[Classed<Record>],
    out: &mut Vec<u8>,
) -> Result<(), NoMemory> {
    for record in records {
        out.extend_from_slice(section)?;
        push_record(alloc, &record.item, record.class, out)?;
    }
    Ok(())
}

/// The whole message.
pub fn message_words(alloc: Global, message: &Message) -> Result<Vec<u8>, NoMemory> {
    let mut out = head_words(alloc, &message.head)?;
    for question in message.questions.as_slice() {
        out.extend_from_slice(b" | question ")?;
        push_question(alloc, &question.item, question.class, &mut out)?;
    }
    push_section(alloc, b" | answer ", message.answer.as_slice(), &mut out)?;
    push_section(
        alloc,
        b" | authority ",
        message.authority.as_slice(),
        &mut out,
    )?;
    push_section(
        alloc,
        b" | additional ",
        message.additional.as_slice(),
        &mut out,
    )?;
    Ok(out)
}
