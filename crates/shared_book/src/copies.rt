//! Copies of an event: one for the window, and one for the book, which keeps what it takes.

ghost use Rattle.std.specs.Prelude.{◌≡◌, true, IfOk, IsOk};
ghost use Rattle.history.specs.Event.{is_plain};

use dns_name::NoMemory;
use history::Event;

/// Two equal events. They take no memory, since copies share what is long; they fail if too many share it.
pub(crate) fn copies(event: &Event) -> Result<(Event, Event), NoMemory>
    ensures plain { is_plain event.now ≡ true → IsOk result }
    ensures first { IfOk result (λ copies. copies.0 ≡ event.now) }
    ensures second { IfOk result (λ copies. copies.1 ≡ event.now) }
{
    let one = event.copy()?;
    match event.copy() {
        Ok(other) => Ok((one, other)),
        Err(fault) => {
            drop(one);
            Err(fault)
        }
    }
}

/// Three equal events, in the same way: one for a receipt beside those.
pub(crate) fn three_copies(event: &Event) -> Result<(Event, Event, Event), NoMemory>
    ensures plain { is_plain event.now ≡ true → IsOk result }
    ensures first { IfOk result (λ copies. copies.0 ≡ event.now) }
    ensures second { IfOk result (λ copies. copies.1 ≡ event.now) }
    ensures third { IfOk result (λ copies. copies.2 ≡ event.now) }
{
    let own = event.copy()?;
    match copies(event) {
        Ok((kept, copy)) => Ok((own, kept, copy)),
        Err(fault) => {
            drop(own);
            Err(fault)
        }
    }
}
