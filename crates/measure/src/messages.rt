//! Calls on names and messages.

// The messages that are measured.
pub mod octets;
// One call, many times.
pub mod calls;

use crate::calls::run_calls;
use crate::messages::calls::make_many;
use std::alloc::Global;

/// Every call, in the order in which it is shown.
const CALLS: [&str; 12] = [
    "decode_query",
    "decode_reply",
    "decode_long",
    "encode_query",
    "encode_reply",
    "encode_long",
    "encode_lent",
    "read_question",
    "from_text",
    "to_text",
    "at_or_below",
    "compare",
];

/// Makes calls, and prints a sum over their results.
pub fn measure_messages<R: Print>(rt: &R, alloc: Global, words: &[String]) -> anyhow::Result<()> {
    run_calls(
        rt,
        words,
        &CALLS,
        1_000,
        |call, count| make_many(alloc, call, count),
    )
}
