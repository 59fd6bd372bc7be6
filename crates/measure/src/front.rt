//! Queries that the first look answers.

// A desk that keeps nothing.
pub mod desk;
// Queries of each kind, many times.
pub mod queries;

use crate::calls::run_calls;
use crate::front::queries::serve_many;
use std::alloc::Global;

/// Every call, in the order in which it is shown.
const CALLS: [&str; 4] = ["question", "held", "local", "refused"];

/// Makes calls, and prints how many octets the replies have.
pub fn measure_front<R: Print>(rt: &R, alloc: Global, words: &[String]) -> anyhow::Result<()> {
    run_calls(
        rt,
        words,
        &CALLS,
        64,
        |call, count| serve_many(alloc, call, count),
    )
}
