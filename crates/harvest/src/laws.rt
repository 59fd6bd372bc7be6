//! Laws of the definitions, which callers may cite.

ghost use Rattle.std.specs.Prelude.{◌≡◌};
ghost use Rattle.harvest.specs.Chosen.{ChosenAreFew, ChosenAreSmall, ChosenInOrder, ChosenTakeLittle, FewAreChosen, FirstAreChosen};
ghost use Rattle.harvest.specs.Harvest.{FindsWithinZone, PassingWithinZone};

use crate::choosing::{MOST_CHOSEN, MOST_MEMORY, MOST_SERVERS};
use neg_rule::denial_law;

/// A harvest has nothing about a name outside the zone asked.
pub fn zone_law()
    ensures finds { FindsWithinZone }
    ensures passing { PassingWithinZone }
{
    denial_law();
}

/// What is handed to a cache is among the finds, in their order. It is little, and all of it where the finds are few. Data for which
/// a lookup needs no other come before other additional data.
pub fn chosen_law()
    ensures order { ChosenInOrder }
    ensures few { ChosenAreFew }
    ensures small { ChosenAreSmall }
    ensures little { ChosenTakeLittle }
    ensures all { FewAreChosen }
    ensures first { FirstAreChosen }
{}

/// The limits of what is handed to a cache: 64 finds of a message, 16,384 octets for the data of each, and 32 servers whose data come first.
pub fn limits_law()
    ensures finds { MOST_CHOSEN ≡ 64 }
    ensures memory { MOST_MEMORY ≡ 16384 }
    ensures servers { MOST_SERVERS ≡ 32 }
{}
