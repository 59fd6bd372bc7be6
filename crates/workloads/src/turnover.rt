//! New names for a full cache: it sweeps what has ended, and forgets the name that ends first.

use crate::draws::{below, draws_of};
use crate::finds::{addresses, denial, kind_of, name_of, soa_record};
use crate::noted::Noted;
use dns_name::Name;
use dns_text::{Items, Question, Record};
use history::{Book, Settings};
use rand_pcg::Pcg32;
use ranked::{Rank, SharedFind};
use std::alloc::Global;
use undo_book::ShelfBook;

/// The TTLs of most data, in seconds.
const TTLS: [u32; 8] = [30, 60, 60, 300, 300, 3_600, 3_600, 86_400];

/// How many new names come in a second.
const EACH_SECOND: u32 = 100;

/// A find of a new name. One in five is the denial of a name that a stranger made up, and all of these have one TTL.
fn next_find(
    alloc: Global,
    rng: &mut Pcg32,
    owner: Name,
    soa: &Record,
) -> anyhow::Result<SharedFind> {
    if below(rng, 5) == 0 {
        return denial(alloc, owner, None, 900, soa);
    }
    let ttl = TTLS[below(rng, 8) as usize];
    addresses(alloc, rng, owner, Rank::AuthoritativeAnswer, ttl)
}

/// Takes so many finds of new names, and so many more as there is room for.
fn take_many<B: Book>(
    alloc: Global,
    book: B,
    seed: u32,
    room: u32,
    count: u32,
) -> anyhow::Result<u64> {
    let mut noted = Noted::new(alloc, book);
    let mut rng = draws_of(seed, 9, 0);
    let mut text = Vec::new(alloc);
    let soa = soa_record(alloc)?;
    for number in 0..room.saturating_add(count) {
        let moment = u64::from(number / EACH_SECOND);
        let owner = name_of(alloc, &mut text, seed, number)?;
        let find = next_find(alloc, &mut rng, owner.clone()?, &soa)?;
        let question = Question {
            owner,
            kind: kind_of(&mut rng),
        };
        noted.look(&question, moment)?;
        noted.take(moment, &find)?;
    }
    Ok(noted.digest.sum())
}

/// Gives new names to a cache of so many cells, and returns the digest of what happened.
pub fn turn_over(alloc: Global, seed: u32, room: u32, count: u32) -> anyhow::Result<u64> {
    let settings = Settings {
        journal: 64,
        cells: room as usize,
        hints: Items::new(Vec::new(alloc)),
        server_port: 53,
    };
    take_many(alloc, ShelfBook::new(alloc, settings)?, seed, room, count)
}
