//! Records.

ghost use Rattle.std.specs.Prelude.{◌≡◌, ◌≤◌, ◌+◌, length, IfOk};
ghost use Rattle.dns_wire.specs.Fault.{Gives};
ghost use Rattle.dns_wire.specs.Read.Record.{frame_read, record_read, ttl_of};

use crate::fault::WireFault;
use crate::message::Classed;
use crate::read::chains::Wire;
use crate::read::name::owner_at;
use crate::read::number::{u16_at, u32_at};
use crate::read::rdata::{data_at, form_in};
use crate::read::section::SectionItem;
use dns_text::{Form, Record, Ttl};
use std::alloc::Global;

/// The TTL of this number; 0 if its top bit is set (RFC 2181, section 8).
fn ttl_of(ttl: u32) -> Ttl
    ensures { result ≡ ttl_of ttl }
{
    Ttl::from_seconds(ttl).unwrap_or(Ttl::ZERO)
}

/// Where the RDATA of a record is in its message, and its form.
#[derive(Clone, Copy)]
pub(crate) struct Frame {
    pub begin: usize,
    pub end: usize,
    pub form: Form,
}

/// The frame of the RDATA of a record whose fields of fixed length begin at a place.
pub(crate) fn frame_at(message: &[u8], at: usize) -> Result<Frame, WireFault>
    requires { at ≤ length message.now }
    ensures exact { result ≡ frame_read message.now at }
    ensures begin { IfOk result (λ frame. (frame.begin ≡ at + 10) × (frame.begin ≤ frame.end)) }
    ensures within { IfOk result (λ frame. frame.end ≤ length message.now) }
{
    let begin = at + 10;
    if message.len() < begin {
        return Err(WireFault::Short);
    }
    let end = begin + u16_at(message, at + 8) as usize;
    if message.len() < end {
        return Err(WireFault::Short);
    }
    let form = form_in(u16_at(message, at + 2), u16_at(message, at));
    Ok(Frame { begin, end, form })
}

/// A record with its class, and the place after it.
#[tactic(auto, unfolding(crate::specs::Read::Record::record_read))]
fn record_at(
    alloc: Global,
    message: &Wire<'_>,
    at: usize,
) -> Result<(Classed<Record>, usize), WireFault>
    requires { at ≤ length message.now }
    ensures exact { Gives result (record_read message.now at) }
    ensures within { IfOk result (λ r. r.1 ≤ length message.now) }
{
    let (owner, at) = owner_at(alloc, message, at)?;
    let octets = message.as_slice();
    let frame = frame_at(octets, at)?;
    let body = data_at(alloc, message, frame.end, frame.begin, frame.form)?;
    let item = Record {
        owner,
        kind: u16_at(octets, at),
        ttl: ttl_of(u32_at(octets, at + 4)),
        body,
    };
    let class = u16_at(octets, at + 2);
    Ok((Classed { item, class }, frame.end))
}

impl SectionItem for Classed<Record> {
    ghost read = { record_read };

    fn read_at(
        alloc: Global,
        message: &Wire<'_>,
        at: usize,
    ) -> Result<(Classed<Record>, usize), WireFault> {
        record_at(alloc, message, at)
    }
}
