//! Laws of the definitions, which callers may cite.

ghost use Rattle.std.specs.Prelude.{◌≡◌};
ghost use Rattle.neg_rule.specs.Alias.{FindsLast};
ghost use Rattle.neg_rule.specs.Negative.{DeniesWithinZone};

use crate::alias::MOST_RESPONSE_ALIASES;

/// The last name is the one to which CNAME records lead, in `MOST_RESPONSE_ALIASES` steps at most, and which has no CNAME record itself.
pub fn last_law()
    ensures { FindsLast }
{}

/// The SOA record of a negative answer is owned at or below the zone asked, and at or above the name denied.
pub fn denial_law()
    ensures { DeniesWithinZone }
{}

/// At most 16 CNAME records of one response are followed.
pub fn limits_law()
    ensures { MOST_RESPONSE_ALIASES ≡ 16 }
{}
