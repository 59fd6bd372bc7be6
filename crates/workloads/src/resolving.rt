//! Questions that are resolved over an internet in memory, many at a time.

use crate::draws::{below, draws_of, skewed};
use crate::finds::kind_of;
use crate::internet::{push_host, push_zone};
use crate::worker::Worker;
use flight::Numbered;
use rand_pcg::Pcg32;
use std::alloc::{AllocError, Global};

/// How many exchanges are under way before the first of them gets its response.
const IN_FLIGHT: usize = 300;

/// Replaces what a buffer holds by the name of a host, as a query has it. One name in a hundred has a top zone that is not there.
fn write_host(out: &mut Vec<u8>, rng: &mut Pcg32, zones: u32) -> Result<(), AllocError> {
    out.clear();
    if below(rng, 4) == 0 {
        out.extend_from_slice(b"\x03www")?;
    }
    push_host(out, below(rng, 4_096))?;
    if below(rng, 100) == 0 || zones == 0 {
        return out.extend_from_slice(b"\x07invalid");
    }
    push_zone(out, skewed(rng, zones))
}

/// Listens until fewer exchanges than so many are under way.
fn listen_down_to<D: Numbered + Drop>(worker: &mut Worker<D>, most: usize) {
    for _ in 0..1_000_000u32 {
        if worker.outstanding() < most || !worker.listen() {
            return;
        }
    }
}

/// Resolves so many questions.
pub fn resolve<D: Numbered + Drop>(
    alloc: Global,
    worker: &mut Worker<D>,
    seed: u32,
    zones: u32,
    count: u32,
) -> anyhow::Result<()> {
    let mut rng = draws_of(seed, 8, 0);
    let mut name = Vec::new(alloc);
    for turn in 0..count {
        worker.set_moment(u64::from(turn / 1_024));
        write_host(&mut name, &mut rng, zones)?;
        let kind = kind_of(&mut rng);
        worker.ask(&mut rng, name.as_slice(), kind)?;
        listen_down_to(worker, IN_FLIGHT);
    }
    listen_down_to(worker, 1);
    Ok(())
}
