//! A set of a harvest.

use dns_text::Shared;
use harvest::PassingSet;
use ranked::SharedFind;

/// A set of a harvest.
#[derive(Clone, Copy)]
pub enum Believed<'a> {
    /// A set that may be cached.
    Find(&'a SharedFind),
    /// A set with a TTL of 0.
    Passing(&'a Shared<PassingSet>),
}
