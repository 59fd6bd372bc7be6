//! The law of gaps: records that are taken out come back in their places.

ghost use Rattle.std.specs.Prelude.{◌≡◌, Bool, List, filter};
ghost use Rattle.dns_text.specs.declared.record.Record.{Record};
ghost use Rattle.local_zone.specs.Gaps.{at_gaps, gaps_where, records_of, AreWithin, GapsLeaveOthers, TakenGoBack};

/// The records at the gaps of a test are those that pass it. The others stay. Records that are taken out go back to their places.
pub fn gaps_law()
    ensures at { (p : Record → Bool) (records : List Record) → records_of (at_gaps (gaps_where p 0 records) records) ≡ filter p records }
    ensures rest { GapsLeaveOthers }
    ensures within { (p : Record → Bool) (records : List Record) → AreWithin (gaps_where p 0 records) records }
    ensures back { TakenGoBack }
{}
