//! Queries to send.

ghost use Rattle.std.specs.Prelude.{◌<◌, IfOk};
ghost use Rattle.iterate.specs.Going.{AsksFirst, SendsTo};
ghost use Rattle.iterate.specs.Hunting.{AsksOver};
ghost use Rattle.iterate.specs.Phase.{drawing};

use crate::finishing::failed;
use crate::limits::MOST_SENDS;
use crate::phase::{Advance, Phase};
use crate::search::Search;
use crate::want::Want;
use dns_name::NoMemory;
use dns_query::{Over, query};
use dns_text::{Addr, Shared};
use rand_core::Rng;
use std::alloc::Global;

/// Asks the next server of the innermost question, with a random identifier.
pub(crate) fn send<R: Rng>(
    alloc: Global,
    ids: &mut R,
    search: Search,
    server: Addr,
    over: Over,
) -> Result<Advance, NoMemory>
    ensures query { IfOk result (λ next. AsksOver server over next.want) }
    ensures goes { SendsTo search server over (drawing (R.stream ids.old) (R.stream ids.new)) result }
{
    let id = (ids.next_u32() % 65536) as u16;
    let bytes = query(alloc, id, &search.question()?)?;
    Ok(Advance {
        phase: Phase::Sent {
            search: Box::new(alloc, search)?,
            server,
            id,
            over,
        },
        want: Want::Send {
            server,
            over,
            bytes: Shared::new(alloc, bytes)?,
        },
    })
}

/// Asks the next server of the innermost question over UDP, unless too many queries were sent.
pub(crate) fn ask<R: Rng>(
    alloc: Global,
    ids: &mut R,
    search: Search,
    server: Addr,
) -> Result<Advance, NoMemory>
    ensures query { search.path.sent < MOST_SENDS → IfOk result (λ next. AsksOver server Over.Udp next.want) }
    ensures goes { AsksFirst search server (drawing (R.stream ids.old) (R.stream ids.new)) result }
{
    if search.path.sent >= MOST_SENDS {
        return Ok(failed(alloc));
    }
    send(alloc, ids, search, server, Over::Udp)
}
