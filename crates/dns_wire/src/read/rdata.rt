//! RDATA in the form of its type. Each function here reads the front of a message that ends with the RDATA, or, for a
//! name, the message and that end.

ghost use Rattle.std.specs.Prelude.{◌≡◌, ◌≤◌, ◌+◌, length, take, drop, IfOk};
ghost use Rattle.dns_wire.specs.Read.Rdata.{form_in, data_name_read, ipv4_read, ipv6_read, one_read, mx_read, soa_read, txt_read, srv_read, data_read};
ghost use Rattle.dns_wire.specs.Fault.{Gives};

use crate::fault::WireFault;
use crate::message::CLASS_IN;
use crate::read::chains::Wire;
use crate::read::name::name_in;
use crate::read::number::{u16_at, u32_at};
use dns_name::Name;
use dns_text::{Data, Form, Octets, Strings, form_of};
use std::alloc::{AllocError, Global};

/// The form of a type in a class.
pub(crate) fn form_in(class: u16, kind: u16) -> Form
    ensures { result ≡ form_in class kind }
{
    if class == CLASS_IN {
        form_of(kind)
    } else {
        Form::Opaque
    }
}

/// A name in the RDATA, which begins at a place. The name's own octets must end within the RDATA.
#[tactic(auto, unfolding(crate::specs::Read::Rdata::data_name_read))]
fn data_name_at(
    alloc: Global,
    message: &Wire<'_>,
    end: usize,
    at: usize,
    place: usize,
) -> Result<(Name, usize), WireFault>
    requires within { place ≤ end }
    requires end { end ≤ length message.now }
    ensures exact { Gives result (data_name_read message.now (take end message.now) at place) }
    ensures within { IfOk result (λ r. r.1 ≤ end) }
{
    name_in(alloc, message, end, WireFault::BadData { at }, place)
}

fn ipv4_at(front: &[u8], at: usize) -> Result<Data, WireFault>
    requires { at ≤ length front.now }
    ensures { Gives result (ipv4_read front.now at) }
{
    let (_, octets) = front.split_at(at);
    match octets {
        [a, b, c, d] => Ok(Data::A([*a, *b, *c, *d])),
        _ => Err(WireFault::BadData { at }),
    }
}

// A function of its own, so that no goal spells the zeros out.
fn blank() -> [u8; 16]
    ensures { length result ≡ 16 }
{
    [0; 16]
}

fn ipv6_at(front: &[u8], at: usize) -> Result<Data, WireFault>
    requires { at ≤ length front.now }
    ensures { Gives result (ipv6_read front.now at) }
{
    let (_, octets) = front.split_at(at);
    if octets.len() != 16 {
        return Err(WireFault::BadData { at });
    }
    let mut address = blank();
    address.copy_from_slice(octets);
    Ok(Data::Aaaa(address))
}

fn one_at(alloc: Global, message: &Wire<'_>, end: usize, at: usize) -> Result<Data, WireFault>
    requires within { at ≤ end }
    requires end { end ≤ length message.now }
    ensures { Gives result (one_read message.now (take end message.now) at) }
{
    let (front, _) = message.as_slice().split_at(end);
    let (name, after) = data_name_at(alloc, message, end, at, at)?;
    if after != front.len() {
        return Err(WireFault::BadData { at });
    }
    Ok(Data::One(name))
}

fn mx_at(alloc: Global, message: &Wire<'_>, end: usize, at: usize) -> Result<Data, WireFault>
    requires within { at ≤ end }
    requires end { end ≤ length message.now }
    ensures { Gives result (mx_read message.now (take end message.now) at) }
{
    let (front, _) = message.as_slice().split_at(end);
    if front.len() < at + 2 {
        return Err(WireFault::BadData { at });
    }
    let preference = u16_at(front, at);
    let (exchange, after) = data_name_at(alloc, message, end, at, at + 2)?;
    if after != front.len() {
        return Err(WireFault::BadData { at });
    }
    Ok(Data::Mx {
        preference,
        exchange,
    })
}

fn soa_at(alloc: Global, message: &Wire<'_>, end: usize, at: usize) -> Result<Data, WireFault>
    requires within { at ≤ end }
    requires end { end ≤ length message.now }
    ensures { Gives result (soa_read message.now (take end message.now) at) }
{
    let (front, _) = message.as_slice().split_at(end);
    let (primary, second) = data_name_at(alloc, message, end, at, at)?;
    let (mailbox, numbers) = data_name_at(alloc, message, end, at, second)?;
    if numbers + 20 != front.len() {
        return Err(WireFault::BadData { at });
    }
    Ok(Data::Soa {
        primary,
        mailbox,
        serial: u32_at(front, numbers),
        refresh: u32_at(front, numbers + 4),
        retry: u32_at(front, numbers + 8),
        expire: u32_at(front, numbers + 12),
        minimum: u32_at(front, numbers + 16),
    })
}

fn srv_at(alloc: Global, message: &Wire<'_>, end: usize, at: usize) -> Result<Data, WireFault>
    requires within { at ≤ end }
    requires end { end ≤ length message.now }
    ensures { Gives result (srv_read message.now (take end message.now) at) }
{
    let (front, _) = message.as_slice().split_at(end);
    if front.len() < at + 6 {
        return Err(WireFault::BadData { at });
    }
    let priority = u16_at(front, at);
    let weight = u16_at(front, at + 2);
    let port = u16_at(front, at + 4);
    let (target, after) = data_name_at(alloc, message, end, at, at + 6)?;
    if after != front.len() {
        return Err(WireFault::BadData { at });
    }
    Ok(Data::Srv {
        priority,
        weight,
        port,
        target,
    })
}

/// The octets from a place on.
fn octets_from(alloc: Global, front: &[u8], at: usize) -> Result<Octets, AllocError>
    requires { at ≤ length front.now }
    ensures { IfOk result (λ octets. octets ≡ drop at front.now) }
{
    let (_, octets) = front.split_at(at);
    let octets = Vec::from_slice(alloc, octets)?;
    Ok(Octets::new(octets))
}

/// One or more strings, each preceded by its length.
fn txt_at(alloc: Global, front: &[u8], at: usize) -> Result<Data, WireFault>
    requires { at ≤ length front.now }
    ensures { Gives result (txt_read front.now at) }
{
    let (_, octets) = front.split_at(at);
    if octets.is_empty() {
        return Err(WireFault::BadData { at });
    }
    match Strings::from_octets(alloc, octets)? {
        Some(strings) => Ok(Data::Txt(strings)),
        None => Err(WireFault::BadData { at }),
    }
}

/// The data of a form that begins at one place of a message and ends at another.
#[tactic(auto, unfolding(crate::specs::Read::Rdata::data_read))]
pub(crate) fn data_at(
    alloc: Global,
    message: &Wire<'_>,
    end: usize,
    at: usize,
    form: Form,
) -> Result<Data, WireFault>
    requires within { at ≤ end }
    requires end { end ≤ length message.now }
    ensures { Gives result (data_read message.now (take end message.now) at form) }
{
    let (front, _) = message.as_slice().split_at(end);
    match form {
        Form::A => ipv4_at(front, at),
        Form::Aaaa => ipv6_at(front, at),
        Form::Name => one_at(alloc, message, end, at),
        Form::Mx => mx_at(alloc, message, end, at),
        Form::Soa => soa_at(alloc, message, end, at),
        Form::Txt => txt_at(alloc, front, at),
        Form::Srv => srv_at(alloc, message, end, at),
        Form::Opaque => Ok(Data::Opaque(octets_from(alloc, front, at)?)),
    }
}
