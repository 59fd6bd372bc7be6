//! Looks at a set that is held.

// What a book is asked.
pub mod events;
// Looks of each kind, many times.
pub mod looks;

use crate::book::looks::look_many;
use crate::calls::run_calls;
use std::alloc::Global;
use std::sync::Wait;

/// Every call, in the order in which it is shown.
const CALLS: [&str; 3] = ["alone", "shared", "recorded"];

/// Makes calls, and prints how many saw the set.
pub fn measure_book<R: Print + Wait>(
    rt: &R,
    alloc: Global,
    words: &[String],
) -> anyhow::Result<()> {
    run_calls(
        rt,
        words,
        &CALLS,
        64,
        |call, count| look_many(rt, alloc, call, count),
    )
}
