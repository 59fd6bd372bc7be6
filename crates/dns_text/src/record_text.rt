//! Records as text.

ghost use Rattle.std.specs.Prelude.{◌≡◌, ◌++◌, ◌<◌, ◌≤◌, ◌^◌, option_map, IfOk, IfSome, OnOk, Ok, false};
ghost use Rattle.dns_name.specs.Results.{result_map};
ghost use Rattle.dns_text.specs.Fault.{Gives};
ghost use Rattle.dns_text.specs.declared.record.Record.{Record};
ghost use Rattle.dns_text.specs.Kind.{is_excluded};
ghost use Rattle.dns_text.specs.Data.{HasForm};
ghost use Rattle.dns_text.specs.Record.{first_now, is_class, ttl_at, after_class, with_ttl, ttl_and_class, IsRecordText, record_in, record_text};

use crate::data::{push_data, read_data};
use crate::fault::TextFault;
use crate::field::{push_name, read_name};
use crate::kind::{push_type, read_type};
use crate::laws::text_law;
use crate::number::{is_digits, push_number, read_number};
use crate::record::Record;
use crate::ttl::{MOST_TTL, Ttl};
use crate::word::next_word;
use dns_name::NoMemory;
use std::alloc::Global;

/// The TTL of a record whose text has none: an hour, in seconds.
pub(crate) const DEFAULT_TTL: u32 = 3600;

/// The first word of a text and the text after it, if there is a word.
type First<'a> = Option<(&'a [u8], &'a [u8])>;

/// The TTL, if the first word is digits, and the first word after it.
fn read_ttl(first: First<'_>) -> Result<(Option<u32>, First<'_>), TextFault>
    ensures value { result_map (λ r. (r.0, first_now r.1)) result ≡ ttl_at (first_now first.entry) }
    ensures range { IfOk result (λ r. IfSome r.0 (λ ttl. ttl < 2 ^ 31)) }
{
    let Some((word, rest)) = first else {
        return Ok((None, None));
    };
    if !is_digits(word) {
        return Ok((None, first));
    }
    let ttl = read_number(word, MOST_TTL).ok_or(TextFault::BadTtl)?;
    Ok((Some(ttl as u32), next_word(rest)))
}

/// The first word after the class, if the first word is the class; else the first word.
fn skip_class(first: First<'_>) -> First<'_>
    ensures { first_now result ≡ after_class (first_now first.entry) }
{
    match first {
        Some(([b'I' | b'i', b'N' | b'n'], rest)) => next_word(rest),
        _ => first,
    }
}

/// The TTL of a record, and the first word after TTL and class. Both may be left out, and they may be in either order.
#[tactic(auto, unfolding(crate::specs::Record::ttl_and_class))]
fn read_ttl_and_class(first: First<'_>) -> Result<(u32, First<'_>), TextFault>
    ensures value { result_map (λ r. (r.0, first_now r.1)) result ≡ ttl_and_class (first_now first.entry) }
    ensures range { IfOk result (λ r. r.0 < 2 ^ 31) }
{
    let (before, first) = read_ttl(first)?;
    let first = skip_class(first);
    match before {
        Some(ttl) => Ok((ttl, first)),
        None => {
            let (behind, first) = read_ttl(first)?;
            Ok((behind.unwrap_or(DEFAULT_TTL), first))
        }
    }
}

/// The record of a line, part by part.
#[tactic(auto, unfolding(crate::specs::Record::record_in))]
fn parse_record(alloc: Global, text: &[u8]) -> Result<Record, TextFault>
    ensures value { Gives result (record_in text.now) }
    ensures form { IfOk result (λ r. HasForm r.kind r.body) }
{
    let (word, rest) = next_word(text).ok_or(TextFault::BadName)?;
    let owner = read_name(alloc, word)?.ok_or(TextFault::BadName)?;
    let (ttl, first) = read_ttl_and_class(next_word(rest))?;
    let (word, rest) = first.ok_or(TextFault::BadType)?;
    let kind = read_type(word)?;
    let body = read_data(alloc, kind, rest)?;
    Ok(Record {
        owner,
        kind,
        ttl: Ttl::new(ttl),
        body,
    })
}

/// The record of a line `NAME [TTL] [IN] TYPE DATA` (RFC 1035, section 5.1), or else its first fault from the left. A
/// missing part is a fault of that part.
pub fn read_record(alloc: Global, text: &[u8]) -> Result<Record, TextFault>
    ensures value { Gives result (record_in text.now) }
    ensures stands { IfOk result (IsRecordText text.now) }
    ensures every { (r : Record) → IsRecordText text.now r → Gives result (Ok r) }
    ensures form { IfOk result (λ r. HasForm r.kind r.body) }
{
    text_law();
    parse_record(alloc, text)
}

/// Writes a record after what `out` holds, as `NAME TTL TYPE DATA`. If memory runs out, a part of the text may have been written.
pub fn push_record(r: &Record, out: &mut Vec<u8>) -> Result<(), NoMemory>
    requires { HasForm r.now.kind r.now.body }
    ensures text { OnOk result (out.new.items ≡ out.old.items ++ record_text r.now) }
    ensures again { OnOk result (is_excluded r.now.kind ≡ false → record_in (record_text r.now) ≡ Ok r.now) }
{
    push_name(&r.owner, out)?;
    out.push(b' ')?;
    push_number(u64::from(r.ttl.seconds()), out)?;
    out.push(b' ')?;
    push_type(r.kind, out)?;
    out.push(b' ')?;
    push_data(&r.body, out)
}

/// The text of a record, as `push_record` writes it.
pub fn write_record(alloc: Global, r: &Record) -> Result<Vec<u8>, NoMemory>
    requires { HasForm r.now.kind r.now.body }
    ensures text { IfOk result (λ v. v.items ≡ record_text r.now) }
    ensures again { IfOk result (λ v. is_excluded r.now.kind ≡ false → record_in v.items ≡ Ok r.now) }
    ensures stands { IfOk result (λ v. is_excluded r.now.kind ≡ false → IsRecordText v.items r.now) }
{
    text_law();
    let mut out = Vec::new(alloc);
    push_record(r, &mut out)?;
    Ok(out)
}
