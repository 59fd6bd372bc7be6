//! The other servers of a list.

ghost use Rattle.std.specs.Prelude.{◌≡◌};
ghost use Rattle.std.specs.Option.{option_copied};
ghost use Rattle.outside.specs.Pauses.{others_in};

use dns_text::Addr;
use iterate::Hunt;

/// The addresses of a task's list that it has not asked yet, without the one that it asks now.
pub fn others_of(hunt: Option<&Hunt>) -> &[Addr]
    ensures { result.now ≡ others_in (option_copied hunt.entry) }
{
    let Some(hunt) = hunt else {
        return &[];
    };
    let addrs = hunt.addrs.as_slice();
    if hunt.asked >= addrs.len() {
        return &[];
    }
    &addrs[hunt.asked + 1..]
}
