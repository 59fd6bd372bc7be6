//! A reply or a view with its copy for the window.

ghost use Rattle.std.specs.Prelude.{◌≡◌};

use history::{Reply, Seen};

/// A reply, and an equal one for the window.
#[derive(Drop)]
pub(crate) struct Told {
    pub reply: Reply,
    pub kept: Reply,
    pub ghost alike: { kept ≡ reply },
}

/// What a lookup is about to see, and the same for the window.
#[derive(Drop)]
pub(crate) struct Ahead {
    pub seen: Seen,
    pub kept: Seen,
    pub ghost alike: { kept ≡ seen },
}
