//! Queries of each kind, many times.

ghost use Rattle.std.specs.Prelude.{◌≡◌};

use crate::books::filled_book;
use crate::front::desk::StillDesk;
use anyhow::anyhow;
use clock::Clock;
use dns_query::Over;
use dns_text::{Addr, Octets};
use dns_wire::{Asked, read_question};
use history::Desk;
use iterate::Hunt;
use plain_workers::{Exchange, Tools, serve_query};
use rand_pcg::Pcg32;
use std::alloc::Global;
use system::DeviceFault;

/// Name servers of which none answers.
#[derive(Drop)]
struct NoServers {
    failures: u64,
}

impl Exchange for NoServers {
    ghost asks = { λ _ _ _ _ _ _ _. Unit {0} };

    ghost failures = { λ x. x.failures };

    fn ask(
        &mut self,
        _server: &Addr,
        _hunt: Option<&Hunt>,
        _over: Over,
        _query: &[u8],
    ) -> Result<Octets, DeviceFault> {
        self.failures = self.failures.saturating_add(1);
        Err(DeviceFault::Device)
    }
}

/// A clock that does not move.
#[derive(Drop)]
struct StillClock {
    moment: u64,
}

impl Clock for StillClock {
    ghost ticks = { λ old moment new. (moment ≡ old.moment) × (new ≡ old) };

    fn now(&mut self) -> u64 {
        self.moment
    }
}

/// A query for the address of `www.example.to.`, `.net.` or `.org.`.
const HELD: &[u8] = b"\x12\x34\x01\0\0\x01\0\0\0\0\0\0\x03www\x07example\x02to\0\0\x01\0\x01";

const LOCAL: &[u8] = b"\x12\x34\x01\0\0\x01\0\0\0\0\0\0\x03www\x07example\x03net\0\0\x01\0\x01";

const REFUSED: &[u8] = b"\x12\x34\x01\0\0\x01\0\0\0\0\0\0\x03www\x07example\x03org\0\0\x01\0\x01";

/// So many queries of these octets, and how many octets the replies have.
fn serve(alloc: Global, query: &[u8], count: u32) -> anyhow::Result<u32> {
    let book = filled_book(alloc)?;
    serve_at(alloc, StillDesk { book }, query, count)
}

fn serve_at<D: Desk + Drop>(
    alloc: Global,
    mut desk: D,
    query: &[u8],
    count: u32,
) -> anyhow::Result<u32> {
    let mut tools = Tools {
        exchange: NoServers { failures: 0 },
        clock: StillClock { moment: 0 },
        ids: Pcg32::new(1, 1),
        server_port: 53,
    };
    let mut sum = 0u32;
    for _ in 0..count {
        if let Some(reply) = serve_query(alloc, &mut desk, &mut tools, Over::Udp, query)? {
            sum = sum.wrapping_add(reply.len() as u32);
        }
    }
    Ok(sum)
}

/// So many readings of a question alone, and how many there were.
fn read(alloc: Global, query: &[u8], count: u32) -> anyhow::Result<u32> {
    let mut sum = 0u32;
    for _ in 0..count {
        if let Asked::Good(_) = read_question(alloc, query)? {
            sum = sum.wrapping_add(1);
        }
    }
    Ok(sum)
}

/// So many queries, and how many octets the replies have; or so many questions, and how many.
pub fn serve_many(alloc: Global, call: &str, count: u32) -> anyhow::Result<u32> {
    match call {
        "question" => read(alloc, HELD, count),
        "held" => serve(alloc, HELD, count),
        "local" => serve(alloc, LOCAL, count),
        "refused" => serve(alloc, REFUSED, count),
        _ => Err(anyhow!("there is no such call")),
    }
}
