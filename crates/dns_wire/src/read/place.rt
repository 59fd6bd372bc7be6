//! The label, pointer or end of a name at a place of a message.

ghost use Rattle.std.specs.Prelude.{◌≡◌};
ghost use Rattle.dns_wire.specs.Read.Place.{next_at};

use crate::limits::{LABEL_END, POINTER_MARK};

/// The part of a name that begins at one place of a message.
#[derive(Clone, Copy)]
pub enum Next {
    /// The zero octet that ends a name.
    Finish,
    /// A label of this many octets.
    Label(usize),
    /// A pointer to this place.
    Pointer(usize),
    /// A reserved octet, which begins nothing.
    Reserved,
    /// The end of the octets that may be read.
    Cut,
}

pub(crate) fn next_at(message: &[u8], at: usize) -> Next
    ensures { result ≡ next_at message.now at }
{
    match message.get(at) {
        None => Next::Cut,
        Some(0) => Next::Finish,
        Some(n) => {
            if *n < LABEL_END {
                return Next::Label(*n as usize);
            }
            if *n < POINTER_MARK {
                return Next::Reserved;
            }
            match message.get(at + 1) {
                None => Next::Cut,
                Some(low) => Next::Pointer(
                    (*n as usize - POINTER_MARK as usize) * 256 + *low as usize,
                ),
            }
        }
    }
}
