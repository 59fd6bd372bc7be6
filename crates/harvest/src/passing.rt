//! A set with a TTL of 0.

ghost use Rattle.std.specs.Prelude.{◌≤◌, length};
ghost use Rattle.std.specs.List.{AllByRecursion, AllByRecursion-prop};
ghost use Rattle.dns_text.specs.Data.{HasForm, HasForm-prop};

use dns_name::Name;
use dns_text::{Data, Items};
use ranked::Rank;

/// A set with a TTL of 0, which may be passed on once but not cached (RFC 1035, section 3.2.1).
#[derive(Drop, PartialEq)]
pub struct PassingSet {
    pub owner: Name,
    pub kind: u16,
    pub rank: Rank,
    /// One datum or more, without duplicates.
    pub data: Items<Data>,
    pub ghost found: { 1 ≤ length «data» },
    pub ghost formed: { AllByRecursion (HasForm kind) «data» } by { AllByRecursion-prop (HasForm kind) (HasForm-prop kind) «data» },
}
