//! The find that an `admit` line admits.

ghost use Rattle.std.specs.Prelude.{◌≡◌};
ghost use Rattle.command_text.specs.Admission.{IsFindOf};

use dns_name::Name;
use dns_text::{Data, Items};
use ranked::{Find, Rank};
use std::marker::Model;

/// A set that a line admits. Its TTL is not 0, it has a datum, and each datum has the form of its type.
#[derive(Drop)]
pub struct Admission {
    pub(crate) rank: Rank,
    pub(crate) owner: Name,
    pub(crate) ttl: u32,
    pub(crate) kind: u16,
    pub(crate) body: Items<Data>,
}

impl Model for Admission {
    ghost use Rattle.command_text.specs.Admission.{Given, IsSound};

    ghost Value = { Given };

    ghost view = { λ a. record { rank = a.rank; owner = a.owner; ttl = a.ttl; kind = a.kind; body = a.body } };

    ghost invariant = { λ a. IsSound (record { rank = a.rank; owner = a.owner; ttl = a.ttl; kind = a.kind; body = a.body }) };
}

impl Admission {
    /// The find: each datum once, and a TTL above a day is cut to a day.
    pub fn into_find(self) -> Find
        ensures { IsFindOf self result }
    {
        let Admission {
            rank,
            owner,
            ttl,
            kind,
            body,
        } = self;
        Find::new(owner, kind, rank, ttl, body).unwrap()
    }
}
