//! Equal neighbours among the versions of a column. Later admissions change them alike, so one entry is enough for both.

ghost use Rattle.std.specs.Prelude.{◌≡◌, ℕ};
ghost use Rattle.cell_store.specs.Column.{DropsEntries};
ghost use Rattle.cell_store.specs.Version.{place_at, IsFromStart};
ghost use Rattle.cell_store.specs.Few.{contents, AreRanked, DoDiffer};
ghost use Rattle.cell_store.specs.Merge.{holds_same, same_held, started};

use crate::entry::{ColumnEntry, Entries};
use crate::version::Slot;
use ranked::Admitted;

impl ColumnEntry {
    // Whether another entry has the same content.
    fn holds_same(&self, other: &ColumnEntry) -> bool
        ensures { result ≡ holds_same self.now other.now }
    {
        let own = self.place();
        let others = other.place();
        own.left == others.left && same_held(&own.cell.held, &others.cell.held)
    }

    // Moves the start to a version, if it was later.
    fn start_by(&mut self, number: u64)
        ensures { self.new ≡ started number self.old }
    {
        if number < self.start() {
            self.start_at(number);
        }
    }
}

fn same_held(a: &Option<Admitted<Slot>>, b: &Option<Admitted<Slot>>) -> bool
    ensures { result ≡ same_held a.now b.now }
{
    match a {
        None => match b {
            None => true,
            Some(_) => false,
        },
        Some(x) => match b {
            None => false,
            Some(y) => {
                x.rank.level() == y.rank.level()
                    && x.ttl == y.ttl
                    && x.since == y.since
                    && x.body == y.body
            }
        },
    }
}

// Removes each entry that has the content of the entry before it, and moves the start of that one if it was later.
pub(crate) fn merge(versions: &mut Entries)
    ensures places { (v : ℕ) → place_at versions.new.items v ≡ place_at versions.old.items v }
    ensures drops { DropsEntries versions.old.items versions.new.items }
    ensures starts { IsFromStart versions.old.items → IsFromStart versions.new.items }
    ensures differ { AreRanked versions.old.items → DoDiffer (contents versions.new.items) }
{
    let mut place = 1;
    while place < versions.len() {
        if versions[place - 1].holds_same(&versions[place]) {
            let later = versions.remove(place);
            versions[place - 1].start_by(later.start());
        } else {
            place += 1;
        }
    }
}
