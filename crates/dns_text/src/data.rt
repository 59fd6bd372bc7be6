//! The data of records as text, in the form of each type.

ghost use Rattle.std.specs.Prelude.{◌≡◌, ◌<◌, ◌^◌, ◌++◌, slice_index, ℕ, length, option_map, IfOk, OnOk, Some, Ok};
ghost use Rattle.dns_name.specs.Labels.{IsName};
ghost use Rattle.dns_name.specs.Results.{or_fault};
ghost use Rattle.dns_text.specs.Fault.{Gives};
ghost use Rattle.dns_text.specs.declared.fault.TextFault.TheVariants.{BadData};
ghost use Rattle.dns_text.specs.declared.record.Data.{Data};
ghost use Rattle.dns_text.specs.Kind.{form_of};
ghost use Rattle.dns_text.specs.Data.{mx_in, soa_in, srv_in, blank_number, names_text, soa_numbers_text, mx_text, srv_text, data_in, data_text, IsDataText, IsOfForm, HasForm};

use crate::fault::TextFault;
use crate::field::{last_name, last_number, next_name, next_number, push_name};
use crate::ipv4::{push_ipv4, read_ipv4};
use crate::ipv6::{push_ipv6, read_ipv6};
use crate::items::Octets;
use crate::kind::{Form, form_of};
use crate::laws::text_law;
use crate::number::{MOST_16, MOST_32, push_number};
use crate::opaque::{push_octets, read_octets};
use crate::record::Data;
use crate::string::{push_strings, read_strings};
use crate::word::only_word;
use dns_name::{Name, NoMemory};
use std::alloc::Global;

/// A mail exchange's preference and name.
#[tactic(auto, unfolding(crate::specs::Data::mx_in))]
fn read_mx(alloc: Global, text: &[u8]) -> Result<Data, TextFault>
    ensures value { Gives result (or_fault BadData (mx_in text.now)) }
    ensures form { IfOk result (λ d. IsOfForm Form.Mx d) }
{
    let (preference, rest) = next_number(text, MOST_16).ok_or(TextFault::BadData)?;
    let exchange = last_name(alloc, rest)?.ok_or(TextFault::BadData)?;
    Ok(Data::Mx {
        preference: preference as u16,
        exchange,
    })
}

/// A zone's primary server, mailbox and numbers.
#[tactic(auto, unfolding(crate::specs::Data::soa_in))]
fn read_soa(alloc: Global, text: &[u8]) -> Result<Data, TextFault>
    ensures value { Gives result (or_fault BadData (soa_in text.now)) }
    ensures form { IfOk result (λ d. IsOfForm Form.Soa d) }
{
    let (primary, rest) = next_name(alloc, text)?.ok_or(TextFault::BadData)?;
    let (mailbox, rest) = next_name(alloc, rest)?.ok_or(TextFault::BadData)?;
    let (serial, rest) = next_number(rest, MOST_32).ok_or(TextFault::BadData)?;
    let (refresh, rest) = next_number(rest, MOST_32).ok_or(TextFault::BadData)?;
    let (retry, rest) = next_number(rest, MOST_32).ok_or(TextFault::BadData)?;
    let (expire, rest) = next_number(rest, MOST_32).ok_or(TextFault::BadData)?;
    let minimum = last_number(rest, MOST_32).ok_or(TextFault::BadData)?;
    Ok(Data::Soa {
        primary,
        mailbox,
        serial: serial as u32,
        refresh: refresh as u32,
        retry: retry as u32,
        expire: expire as u32,
        minimum: minimum as u32,
    })
}

/// A service's priority, weight, port and name.
#[tactic(auto, unfolding(crate::specs::Data::srv_in))]
fn read_srv(alloc: Global, text: &[u8]) -> Result<Data, TextFault>
    ensures value { Gives result (or_fault BadData (srv_in text.now)) }
    ensures form { IfOk result (λ d. IsOfForm Form.Srv d) }
{
    let (priority, rest) = next_number(text, MOST_16).ok_or(TextFault::BadData)?;
    let (weight, rest) = next_number(rest, MOST_16).ok_or(TextFault::BadData)?;
    let (port, rest) = next_number(rest, MOST_16).ok_or(TextFault::BadData)?;
    let target = last_name(alloc, rest)?.ok_or(TextFault::BadData)?;
    Ok(Data::Srv {
        priority: priority as u16,
        weight: weight as u16,
        port: port as u16,
        target,
    })
}

/// The data of this type, in its form.
#[tactic(auto, unfolding(crate::specs::Data::data_as))]
fn parse_data(alloc: Global, kind: u16, text: &[u8]) -> Result<Data, TextFault>
    ensures value { Gives result (or_fault BadData (data_in kind text.now)) }
    ensures form { IfOk result (λ d. HasForm kind d) }
{
    match form_of(kind) {
        Form::A => {
            let word = only_word(text).ok_or(TextFault::BadData)?;
            Ok(Data::A(read_ipv4(word).ok_or(TextFault::BadData)?))
        }
        Form::Aaaa => {
            let word = only_word(text).ok_or(TextFault::BadData)?;
            Ok(Data::Aaaa(read_ipv6(word).ok_or(TextFault::BadData)?))
        }
        Form::Name => {
            let name = last_name(alloc, text)?.ok_or(TextFault::BadData)?;
            Ok(Data::One(name))
        }
        Form::Mx => read_mx(alloc, text),
        Form::Soa => read_soa(alloc, text),
        Form::Srv => read_srv(alloc, text),
        Form::Opaque => {
            let octets = read_octets(alloc, text)?;
            Ok(Data::Opaque(Octets::new(octets)))
        }
        Form::Txt => {
            let strings = read_strings(alloc, text)?;
            Ok(Data::Txt(strings))
        }
    }
}

/// The data of this type that a whole text stands for. The only faults are `BadData` and `NoMemory`.
pub fn read_data(alloc: Global, kind: u16, text: &[u8]) -> Result<Data, TextFault>
    ensures value { Gives result (or_fault BadData (data_in kind text.now)) }
    ensures stands { IfOk result (IsDataText kind text.now) }
    ensures every { (body : Data) → IsDataText kind text.now body → Gives result (Ok body) }
    ensures form { IfOk result (λ d. HasForm kind d) }
{
    text_law();
    parse_data(alloc, kind, text)
}

/// Writes a number after a blank.
fn push_blank_number(n: u64, out: &mut Vec<u8>) -> Result<(), NoMemory>
    ensures { OnOk result (out.new.items ≡ out.old.items ++ blank_number n) }
{
    out.push(b' ')?;
    push_number(n, out)
}

/// Writes two names.
fn push_names(first: &Name, second: &Name, out: &mut Vec<u8>) -> Result<(), NoMemory>
    ensures text { OnOk result (out.new.items ≡ out.old.items ++ names_text first.now second.now) }
    ensures names { OnOk result (IsName first.now × IsName second.now) }
{
    push_name(first, out)?;
    out.push(b' ')?;
    push_name(second, out)
}

/// Writes the numbers of SOA data, each after a blank.
fn push_soa_numbers(
    serial: u32,
    refresh: u32,
    retry: u32,
    expire: u32,
    minimum: u32,
    out: &mut Vec<u8>,
) -> Result<(), NoMemory>
    ensures text { OnOk result (out.new.items ≡ out.old.items ++ soa_numbers_text serial refresh retry expire minimum) }
    ensures bounds { (serial < 2 ^ 32) × (refresh < 2 ^ 32) × (retry < 2 ^ 32) × (expire < 2 ^ 32) × (minimum < 2 ^ 32) }
{
    push_blank_number(u64::from(serial), out)?;
    push_blank_number(u64::from(refresh), out)?;
    push_blank_number(u64::from(retry), out)?;
    push_blank_number(u64::from(expire), out)?;
    push_blank_number(u64::from(minimum), out)
}

/// Writes a mail exchange.
fn push_mx(preference: u16, exchange: &Name, out: &mut Vec<u8>) -> Result<(), NoMemory>
    ensures text { OnOk result (out.new.items ≡ out.old.items ++ mx_text preference exchange.now) }
    ensures fits { OnOk result ((preference < 2 ^ 16) × IsName exchange.now) }
{
    push_number(u64::from(preference), out)?;
    out.push(b' ')?;
    push_name(exchange, out)
}

/// Writes the place of a service.
fn push_srv(
    priority: u16,
    weight: u16,
    port: u16,
    target: &Name,
    out: &mut Vec<u8>,
) -> Result<(), NoMemory>
    ensures text { OnOk result (out.new.items ≡ out.old.items ++ srv_text priority weight port target.now) }
    ensures fits { OnOk result ((priority < 2 ^ 16) × (weight < 2 ^ 16) × (port < 2 ^ 16) × IsName target.now) }
{
    push_number(u64::from(priority), out)?;
    push_blank_number(u64::from(weight), out)?;
    push_blank_number(u64::from(port), out)?;
    out.push(b' ')?;
    push_name(target, out)
}

/// Writes data after what `out` holds. If memory runs out, a part of the text may have been written.
#[tactic(auto, unfolding(crate::specs::Data::data_text))]
pub fn push_data(body: &Data, out: &mut Vec<u8>) -> Result<(), NoMemory>
    ensures text { OnOk result (out.new.items ≡ out.old.items ++ data_text body.now) }
    ensures again { OnOk result ((kind : ℕ) → HasForm kind body.now → data_in kind (data_text body.now) ≡ Some body.now) }
{
    match body {
        Data::A(octets) => push_ipv4(octets, out),
        Data::Aaaa(octets) => push_ipv6(octets, out),
        Data::One(name) => push_name(name, out),
        Data::Mx {
            preference,
            exchange,
        } => push_mx(*preference, exchange, out),
        Data::Soa {
            primary,
            mailbox,
            serial,
            refresh,
            retry,
            expire,
            minimum,
        } => {
            push_names(primary, mailbox, out)?;
            push_soa_numbers(*serial, *refresh, *retry, *expire, *minimum, out)
        }
        Data::Srv {
            priority,
            weight,
            port,
            target,
        } => push_srv(*priority, *weight, *port, target, out),
        Data::Opaque(octets) => push_octets(octets.as_slice(), out),
        Data::Txt(strings) => push_strings(strings, out),
    }
}
