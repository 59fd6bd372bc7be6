//! Copies of data and records.

ghost use Rattle.std.specs.Prelude.{◌≡◌, IfOk};

use crate::items::Octets;
use crate::record::{Data, Record};
use dns_name::Name;
use std::alloc::{AllocError, Global};

/// A copy of octets.
fn copy_octets(alloc: Global, octets: &Octets) -> Result<Octets, AllocError>
    ensures { IfOk result (λ copy. copy ≡ octets.now) }
{
    Ok(Octets::new(Vec::from_slice(alloc, octets.as_slice())?))
}

/// MX data with a copy of the name.
fn copy_mx(preference: u16, exchange: &Name) -> Result<Data, AllocError>
    ensures { IfOk result (λ copy. copy ≡ Data.Mx preference exchange.now) }
{
    Ok(Data::Mx {
        preference,
        exchange: exchange.clone()?,
    })
}

/// SRV data with a copy of the name.
fn copy_srv(priority: u16, weight: u16, port: u16, target: &Name) -> Result<Data, AllocError>
    ensures { IfOk result (λ copy. copy ≡ Data.Srv priority weight port target.now) }
{
    Ok(Data::Srv {
        priority,
        weight,
        port,
        target: target.clone()?,
    })
}

impl Data {
    /// A copy of the data. Strings and octets take memory; names share theirs.
    pub fn copy(&self, alloc: Global) -> Result<Data, AllocError>
        ensures { IfOk result (λ x. x ≡ self.now) }
    {
        match self {
            Data::A(octets) => Ok(Data::A(*octets)),
            Data::Aaaa(octets) => Ok(Data::Aaaa(*octets)),
            Data::One(name) => Ok(Data::One(name.clone()?)),
            Data::Mx {
                preference,
                exchange,
            } => copy_mx(*preference, exchange),
            Data::Soa {
                primary,
                mailbox,
                serial,
                refresh,
                retry,
                expire,
                minimum,
            } => Ok(Data::Soa {
                primary: primary.clone()?,
                mailbox: mailbox.clone()?,
                serial: *serial,
                refresh: *refresh,
                retry: *retry,
                expire: *expire,
                minimum: *minimum,
            }),
            Data::Txt(strings) => Ok(Data::Txt(strings.copy(alloc)?)),
            Data::Srv {
                priority,
                weight,
                port,
                target,
            } => copy_srv(*priority, *weight, *port, target),
            Data::Opaque(octets) => Ok(Data::Opaque(copy_octets(alloc, octets)?)),
        }
    }
}

impl Record {
    /// A copy of the record. Strings and octets take memory; names share theirs.
    pub fn copy(&self, alloc: Global) -> Result<Record, AllocError>
        ensures { IfOk result (λ x. x ≡ self.now) }
    {
        Ok(Record {
            owner: self.owner.clone()?,
            kind: self.kind,
            ttl: self.ttl,
            body: self.body.copy(alloc)?,
        })
    }
}
