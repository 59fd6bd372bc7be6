//! Names whose versions may have different content. For the others it does not matter which flushes are kept.

ghost use Rattle.std.specs.Prelude.{◌≡◌, false};
ghost use Rattle.std.specs.List.{list_any, AllByRecursion};
ghost use Rattle.cell_store.specs.Mixed.{has_mixed, is_mixed, IsEven, IsLikeFirst};

use crate::owner::{KindColumn, OwnerCells};

// Whether some column has more than one entry.
fn any_mixed(kinds: &[KindColumn]) -> bool
    ensures value { result ≡ list_any (λ own. is_mixed own.column) kinds.now }
    ensures even { result ≡ false → AllByRecursion (λ own. IsEven own.column) kinds.now }
{
    for own in kinds {
        if own.column.is_mixed() {
            return true;
        }
    }
    false
}

impl OwnerCells {
    /// Whether some column has more than one entry.
    pub fn is_mixed(&self) -> bool
        ensures value { result ≡ has_mixed self.now }
        ensures alike { result ≡ false → IsLikeFirst self.now }
    {
        any_mixed(&self.kinds)
    }
}
