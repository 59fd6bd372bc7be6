//! A desk that is behind.

ghost use Rattle.std.specs.Prelude.{◌≡◌, Err};
ghost use Rattle.history.specs.declared.desk.DeskFault.TheVariants.{Behind};
ghost use Rattle.history.specs.Event.{moment_of};

use history::{Desk, DeskFault, Event, Reply};

/// A desk that is always behind, at as many calls as the moment says.
#[derive(Drop)]
pub struct Late;

impl Desk for Late {
    ghost calls = { λ _ event answer _. answer ≡ Err (Behind (moment_of event)) };

    fn call(&mut self, event: Event) -> Result<Reply, DeskFault> {
        let at = event.moment();
        Err(DeskFault::Behind { at })
    }
}
