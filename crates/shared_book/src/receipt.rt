//! The receipt of a call.

use history::{Event, Reply};

/// One call that got a reply. The window has an equal one until it moves on past it.
#[derive(Drop, PartialEq)]
pub struct Receipt {
    /// Its place among all calls, from 1.
    pub number: u64,
    pub caller: u64,
    pub event: Event,
    pub reply: Reply,
}
