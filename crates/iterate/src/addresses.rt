//! The addresses in a set.

ghost use Rattle.std.specs.Prelude.{◌≡◌, ◌++◌, IfOk, OnOk};
ghost use Rattle.std.specs.List.{AllByRecursion, Contains, flat_map};
ghost use Rattle.dns_text.specs.declared.addr.Addr.{Addr};
ghost use Rattle.ranked.specs.Body.{data_of};
ghost use Rattle.iterate.specs.Hunting.{v4_of, v4_in, v4_told};
ghost use Rattle.iterate.specs.Told.{IsAddressIn};

use crate::answer::AnswerSet;
use dns_name::NoMemory;
use dns_text::{Addr, Data, Ip};
use local_zone::SeenRecord;
use ranked::Body;
use std::alloc::Global;

fn push_v4(port: u16, datum: &Data, out: &mut Vec<Addr>) -> Result<(), NoMemory>
    ensures { OnOk result (out.new.items ≡ out.old.items ++ v4_of port datum.now) }
{
    match datum {
        Data::A(octets) => {
            out.push(Addr {
                ip: Ip::V4(*octets),
                port,
            })?;
            Ok(())
        }
        _ => Ok(()),
    }
}

/// The IPv4 addresses among data, in order.
fn v4_in_data(alloc: Global, port: u16, given: &[Data]) -> Result<Vec<Addr>, NoMemory>
    ensures { IfOk result (λ v. v.items ≡ v4_in port given.now) }
{
    let mut addrs = Vec::new(alloc);
    for datum in given {
        push_v4(port, datum, &mut addrs)?;
    }
    Ok(addrs)
}

/// The IPv4 addresses among the data of a find, in order.
fn v4_in_body(alloc: Global, port: u16, body: &Body) -> Result<Vec<Addr>, NoMemory>
    ensures { IfOk result (λ v. v.items ≡ v4_in port (data_of body.now)) }
{
    match body {
        Body::Set(data) => v4_in_data(alloc, port, data.as_slice()),
        _ => Ok(Vec::new(alloc)),
    }
}

/// The IPv4 addresses among the data of local records, in order.
fn v4_in_records(alloc: Global, port: u16, records: &[SeenRecord]) -> Result<Vec<Addr>, NoMemory>
    ensures { IfOk result (λ v. v.items ≡ flat_map (λ r. v4_of port r.body) records.now) }
{
    let mut addrs = Vec::new(alloc);
    for r in records {
        push_v4(port, r.body(), &mut addrs)?;
    }
    Ok(addrs)
}

fn v4_told(alloc: Global, port: u16, told: &AnswerSet) -> Result<Vec<Addr>, NoMemory>
    ensures { IfOk result (λ v. v.items ≡ v4_told port told.now) }
{
    match told {
        AnswerSet::Find { find, .. } => v4_in_body(alloc, port, &find.find().body),
        AnswerSet::Local(records) => v4_in_records(alloc, port, records.get().as_slice()),
        AnswerSet::Passing(set) => v4_in_data(alloc, port, set.get().data.as_slice()),
    }
}

/// The IPv4 addresses of a set, each with the port that servers listen at.
pub(crate) fn addresses(alloc: Global, port: u16, told: &AnswerSet) -> Result<Vec<Addr>, NoMemory>
    ensures each { IfOk result (λ v. AllByRecursion (IsAddressIn port told.now) v.items) }
    ensures all { IfOk result (λ v. (addr : Addr) → IsAddressIn port told.now addr → Contains v.items addr) }
{
    let addrs = v4_told(alloc, port, told)?;
    Ok(addrs)
}
