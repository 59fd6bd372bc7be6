//! The jobs that a user of the resolver waits for, on input that a seed determines. `workloads WORD SEED SIZE COUNT` does one of them
//! and prints a digest of all its results. `workloads` alone does each of them, small.
//!
//! | Word | Size | Count | What it does |
//! |---|---|---|---|
//! | `answers` | cached names | questions | answers questions from the cache, from octets to octets, also with flushes that can be undone |
//! | `resolving` | zones | questions | resolves questions over an internet in memory, from the root down |
//! | `turnover` | cells | new names | gives new names to a full cache, which sweeps and forgets |
//! | `sweeping` | cells | steps | sweeps some names at a time between lookups, admissions, flushes, undos and redos |
//! | `block_list` | local records | questions | loads a block list by lines, answers questions around it, and changes it |
//! | `script` | names | lines | obeys the lines of a script |
//! | `messages` | records of the largest message | messages | reads and writes messages, awkward ones among them |
#![tactic(auto)]

mod draws; // numbers that a seed determines
mod digest; // a number that depends on all results
mod names; // made-up names
mod spelled; // names as octets, one after another
mod queries; // queries as octets
mod finds; // what is cached about a name
mod internet; // an internet in memory
mod outside; // clients and name servers of a worker without sockets
mod worker; // a worker without sockets
mod shared; // a worker at a shared book
mod streams_in_memory; // readers and writers over memory
mod noted; // a book whose replies go into a digest
mod answers; // answers from the cache
mod resolving; // resolution
mod turnover; // new names for a full cache
mod sweeping; // sweeps beside flushes
mod block_list; // local zones and records
mod script; // the lines of a script
mod messages; // messages from octets and as octets

use anyhow::anyhow;
use messages::messages;
use script::obey_script;
use shared::{Job, shared_job};
use std::alloc::Global;
use std::env;
use std::sync::Wait;
use sweeping::sweep_by_turns;
use turnover::turn_over;

/// Every word, with a small size and a small count.
const WORDS: [(&str, u32, u32); 7] = [
    ("answers", 200, 400),
    ("resolving", 40, 200),
    ("turnover", 100, 300),
    ("sweeping", 600, 3_000),
    ("block_list", 320, 400),
    ("script", 100, 400),
    ("messages", 100, 60),
];

/// Does one job, and returns the digest of its results.
fn work<R: Wait>(
    rt: &R,
    alloc: Global,
    word: &str,
    seed: u32,
    size: u32,
    count: u32,
) -> anyhow::Result<u64> {
    match word {
        "answers" => shared_job(rt, alloc, Job::Answers, seed, size, count),
        "resolving" => shared_job(rt, alloc, Job::Resolving, seed, size, count),
        "block_list" => shared_job(rt, alloc, Job::BlockList, seed, size, count),
        "turnover" => turn_over(alloc, seed, size, count),
        "sweeping" => sweep_by_turns(alloc, seed, size, count),
        "script" => obey_script(alloc, seed, size, count),
        "messages" => messages(alloc, seed, size, count),
        _ => Err(anyhow!("there is no such word")),
    }
}

fn work_on_all<R: Print + Wait>(rt: &R, alloc: Global) -> anyhow::Result<()> {
    for (word, size, count) in WORDS {
        println!(rt; "{word} {}", work(rt, alloc, word, 1, size, count)?)?;
    }
    Ok(())
}

fn main(rt: HostRuntime) -> anyhow::Result<()> {
    let words: Vec<String> = env::args(&rt)?.collect(rt.alloc())?;
    match words.as_slice() {
        [_, word, seed, size, count] => {
            let seed: u32 = seed.as_str().parse()?;
            let size: u32 = size.as_str().parse()?;
            let count: u32 = count.as_str().parse()?;
            let digest = work(&rt, rt.alloc(), word.as_str(), seed, size, count)?;
            println!(rt; "{digest}")?;
            Ok(())
        }
        _ => work_on_all(&rt, rt.alloc()),
    }
}
