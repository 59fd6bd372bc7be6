//! The table of record types: number, name and form of data.

ghost use Rattle.std.specs.Prelude.{map, ◌≡◌, ◌++◌, ◌<◌, option_map, IfOk, IfSome, OnOk, Some, false};
ghost use Rattle.std.specs.Str.{str_eq_ignore_ascii_case};
ghost use Rattle.dns_text.specs.Kind.{types, by_number, by_name, type_number, is_excluded, form_of, type_in, type_text};
ghost use Rattle.dns_name.specs.Results.{or_fault};
ghost use Rattle.dns_text.specs.declared.fault.TextFault.TheVariants.{BadType};

use crate::fault::TextFault;
use crate::number::{MOST_16, push_number, read_short_number};
use crate::types;
use std::alloc::{AllocError, Global};

/// The form of a type's data.
#[derive(Clone, Copy, PartialEq, Eq)]
pub enum Form {
    /// An IPv4 address.
    A,
    /// An IPv6 address.
    Aaaa,
    /// One name.
    Name,
    /// A preference and a name.
    Mx,
    /// Two names and five numbers.
    Soa,
    /// Strings, one or more.
    Txt,
    /// Three numbers and a name.
    Srv,
    /// Octets without further form (RFC 3597).
    Opaque,
}

/// A row of the table: a type that has a name.
struct KindRow {
    number: u16,
    name: &'static [u8],
    form: Form,
}

/// The types that have a name.
static TYPES: [KindRow; 11] = [
    KindRow {
        number: types::A,
        name: b"A",
        form: Form::A,
    },
    KindRow {
        number: types::NS,
        name: b"NS",
        form: Form::Name,
    },
    KindRow {
        number: types::CNAME,
        name: b"CNAME",
        form: Form::Name,
    },
    KindRow {
        number: types::SOA,
        name: b"SOA",
        form: Form::Soa,
    },
    KindRow {
        number: types::PTR,
        name: b"PTR",
        form: Form::Name,
    },
    KindRow {
        number: types::MX,
        name: b"MX",
        form: Form::Mx,
    },
    KindRow {
        number: types::TXT,
        name: b"TXT",
        form: Form::Txt,
    },
    KindRow {
        number: types::AAAA,
        name: b"AAAA",
        form: Form::Aaaa,
    },
    KindRow {
        number: types::SRV,
        name: b"SRV",
        form: Form::Srv,
    },
    KindRow {
        number: types::NAPTR,
        name: b"NAPTR",
        form: Form::Opaque,
    },
    KindRow {
        number: types::DNAME,
        name: b"DNAME",
        form: Form::Opaque,
    },
];

/// The table. A function of its own, so that no proof goal spells it out.
fn table() -> &'static [KindRow]
    ensures { map (λ t. (t.number, t.name.now, t.form)) result.now ≡ types }
{
    &TYPES
}

impl KindRow {
    /// Whether this is the type's name, without regard to case.
    fn is_named(&self, word: &[u8]) -> bool
        ensures { result ≡ str_eq_ignore_ascii_case self.now.name.now word.now }
    {
        self.name.eq_ignore_ascii_case(word)
    }
}

/// The row of a type.
#[tactic(auto, unfolding(crate::specs::Kind::by_number))]
fn by_number(kind: u16) -> Option<&'static KindRow>
    ensures { option_map (λ t. (t.now.number, t.now.name.now, t.now.form)) result ≡ by_number kind types }
{
    for t in table() {
        if t.number == kind {
            return Some(t);
        }
    }
    None
}

/// The row of a name, without regard to case.
#[tactic(auto, unfolding(crate::specs::Kind::by_name))]
fn by_name(word: &[u8]) -> Option<&'static KindRow>
    ensures { option_map (λ t. (t.now.number, t.now.name.now, t.now.form)) result ≡ by_name word.now types }
{
    for t in table() {
        if t.is_named(word) {
            return Some(t);
        }
    }
    None
}

/// The form of a type's data; opaque if the type has no form of its own.
pub fn form_of(kind: u16) -> Form
    ensures { result ≡ form_of kind }
{
    match by_number(kind) {
        Some(t) => t.form,
        None => Form::Opaque,
    }
}

/// The number of a type that is written as `TYPEn` (RFC 3597, section 5).
fn type_number(word: &[u8]) -> Option<u16>
    ensures { result ≡ type_number word.now }
{
    match word {
        [t, y, p, e, digits @ ..] => {
            if !b"TYPE".eq_ignore_ascii_case(&[*t, *y, *p, *e]) {
                return None;
            }
            let n = read_short_number(digits, MOST_16)?;
            Some(n as u16)
        }
        _ => None,
    }
}

/// Whether records may not have this type: an obsolete type of mail, a type of questions alone, or OPT.
pub fn is_excluded(kind: u16) -> bool
    ensures { result ≡ is_excluded kind }
{
    matches!(
        kind,
        types::MD
            | types::MF
            | types::MB
            | types::MG
            | types::MR
            | types::MINFO
            | types::OPT
            | types::IXFR..=types::ANY
    )
}

/// The type of a name or of a number as in `TYPE65280`, without regard to case. The only fault is `BadType`.
#[tactic(auto, unfolding(crate::specs::Kind::type_in))]
pub fn read_type(word: &[u8]) -> Result<u16, TextFault>
    ensures { result ≡ or_fault BadType (type_in word.now) }
{
    let kind = match by_name(word) {
        Some(t) => t.number,
        None => type_number(word).ok_or(TextFault::BadType)?,
    };
    if is_excluded(kind) {
        return Err(TextFault::BadType);
    }
    Ok(kind)
}

/// Appends the name of a type, or its number as in `TYPE65280`.
pub fn push_type(kind: u16, out: &mut Vec<u8>) -> Result<(), AllocError>
    ensures { OnOk result (out.new.items ≡ out.old.items ++ type_text kind) }
{
    match by_number(kind) {
        Some(t) => out.extend_from_slice(t.name),
        None => {
            out.extend_from_slice(b"TYPE")?;
            push_number(u64::from(kind), out)
        }
    }
}

/// The name of a type, or its number as in `TYPE65280`.
pub fn write_type(alloc: Global, kind: u16) -> Result<Vec<u8>, AllocError>
    ensures text { IfOk result (λ v. v.items ≡ type_text kind) }
    ensures again { IfOk result (λ v. is_excluded kind ≡ false → type_in v.items ≡ Some kind) }
{
    let mut out = Vec::new(alloc);
    push_type(kind, &mut out)?;
    Ok(out)
}
