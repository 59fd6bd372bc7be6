//! The law of counts: the number of records at or below a name says which names exist.

ghost use Rattle.local_zone.specs.Count.{CountSaysIfBelow, CountSaysIfDataBelow};

/// The count of a name says whether it, or a name below it, has a record that lies in its zone. It also says whether a
/// redirect zone of this name would have data below it. So one lookup in an index of counts can answer both questions.
pub fn counts_law()
    ensures below { CountSaysIfBelow }
    ensures redirect { CountSaysIfDataBelow }
{}
