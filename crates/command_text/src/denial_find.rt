//! The negative answer that a `nodata` or `noname` line admits.

ghost use Rattle.command_text.specs.Denial.{IsDenialOf};

use dns_name::Name;
use dns_text::{Record, Shared};
use ranked::{Find, Scope};
use std::marker::Model;

/// A negative answer that a line admits. Its TTL is not 0, and its record is an SOA record.
#[derive(Drop)]
pub struct Denial {
    pub(crate) owner: Name,
    pub(crate) scope: Scope,
    pub(crate) ttl: u32,
    pub(crate) soa: Shared<Record>,
}

impl Model for Denial {
    ghost use Rattle.command_text.specs.Denial.{Denied, IsSound};

    ghost Value = { Denied };

    ghost view = { λ d. record { owner = d.owner; scope = d.scope; ttl = d.ttl; soa = d.soa } };

    ghost invariant = { λ d. IsSound (record { owner = d.owner; scope = d.scope; ttl = d.ttl; soa = d.soa }) };
}

impl Denial {
    /// The find. A TTL above an hour is cut to an hour.
    pub fn into_find(self) -> Find
        ensures { IsDenialOf self result }
    {
        let Denial {
            owner,
            scope,
            ttl,
            soa,
        } = self;
        match scope {
            Scope::One(kind) => Find::no_data(owner, kind, ttl, soa).unwrap(),
            Scope::Whole => Find::no_name(owner, ttl, soa).unwrap(),
        }
    }
}
