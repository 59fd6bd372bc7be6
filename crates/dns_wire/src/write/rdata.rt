//! RDATA as octets, after what `out` holds. If memory runs out, a part of them may have been written.

ghost use Rattle.std.specs.Prelude.{◌≡◌, ◌++◌, OnOk};
ghost use Rattle.std.specs.List.{flat_map, AllByRecursion};
ghost use Rattle.dns_name.specs.Labels.{with_length};
ghost use Rattle.dns_text.specs.Data.{IsSized};
ghost use Rattle.dns_text.specs.String.{AreOctets};
ghost use Rattle.dns_wire.specs.WellFormed.{IsData};
ghost use Rattle.dns_wire.specs.Write.Rdata.{data_octets, soa_octets_timed};

use crate::write::name::push_name;
use crate::write::number::{push_u16, push_u32};
use dns_name::Name;
use dns_text::{Data, Strings};
use std::alloc::AllocError;

fn push_octets(out: &mut Vec<u8>, octets: &[u8]) -> Result<(), AllocError>
    ensures octets { OnOk result (out.new.items ≡ out.old.items ++ octets.now) }
    ensures fits { AreOctets octets.now }
{
    out.extend_from_slice(octets)
}

/// Strings, each preceded by its length.
fn push_strings(out: &mut Vec<u8>, strings: &Strings) -> Result<(), AllocError>
    ensures octets { OnOk result (out.new.items ≡ out.old.items ++ flat_map with_length strings.now) }
    ensures fits { AllByRecursion AreOctets strings.now }
{
    push_octets(out, strings.octets())
}

/// SOA data: primary server and mailbox, serial, and refresh, retry, expire and minimum.
fn push_soa(
    out: &mut Vec<u8>,
    names: (&Name, &Name),
    serial: u32,
    times: (u32, u32, u32, u32),
) -> Result<(), AllocError>
    ensures fits { OnOk result (IsData (Data.Soa names.entry.0.now names.entry.1.now serial times.0 times.1 times.2 times.3)) }
    ensures octets { OnOk result (out.new.items ≡ out.old.items ++ soa_octets_timed names.entry.0.now names.entry.1.now serial times) }
{
    push_name(out, names.0)?;
    push_name(out, names.1)?;
    push_u32(out, serial)?;
    push_u32(out, times.0)?;
    push_u32(out, times.1)?;
    push_u32(out, times.2)?;
    push_u32(out, times.3)
}

/// RDATA.
#[tactic(auto, unfolding(crate::specs::Write::Rdata::data_octets))]
pub(crate) fn push_data(out: &mut Vec<u8>, body: &Data) -> Result<(), AllocError>
    requires { IsSized body.now }
    ensures octets { OnOk result (out.new.items ≡ out.old.items ++ data_octets body.now) }
    ensures fits { OnOk result (IsData body.now) }
{
    match body {
        Data::A(octets) => push_octets(out, octets),
        Data::Aaaa(octets) => push_octets(out, octets),
        Data::One(name) => push_name(out, name),
        Data::Mx {
            preference,
            exchange,
        } => {
            push_u16(out, *preference)?;
            push_name(out, exchange)
        }
        Data::Soa {
            primary,
            mailbox,
            serial,
            refresh,
            retry,
            expire,
            minimum,
        } => {
            let times = (*refresh, *retry, *expire, *minimum);
            push_soa(out, (primary, mailbox), *serial, times)
        }
        Data::Txt(strings) => push_strings(out, strings),
        Data::Srv {
            priority,
            weight,
            port,
            target,
        } => {
            push_u16(out, *priority)?;
            push_u16(out, *weight)?;
            push_u16(out, *port)?;
            push_name(out, target)
        }
        Data::Opaque(octets) => push_octets(out, octets.as_slice()),
    }
}
