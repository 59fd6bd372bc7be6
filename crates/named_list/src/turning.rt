//! The step of a list to the other side of a change.

ghost use Rattle.std.specs.Prelude.{◌≡◌, ◌<◌, ◌≤◌, ℕ, true, false, OnErr, OnOk, length, insert, remove, slice_get};
ghost use Rattle.dns_name.specs.Labels.{octets_of};
ghost use Rattle.indexmap.specs.IndexMap.{values};
ghost use Rattle.named_list.specs.Keyed.{AreKeyed};
ghost use Rattle.named_list.specs.Named.{AreNamed};
ghost use Rattle.named_list.specs.Turn.{other_of, puts_in, with_at, HasPlace, IsWayBack, LeadsOn};
ghost use Rattle.named_list.specs.declared.turn.Turn.TheVariants as Turn;

use crate::keyed::Keyed;
use crate::named::Named;
use crate::turn::Turn;
use dns_name::{Name, NoMemory};
use dns_text::Shared;
use indexmap::IndexMap;
use std::alloc::AllocError;
use std::mem;

/// Takes the thing at a place out.
fn take_at<T: Named>(things: &mut IndexMap<Name, Shared<T>>, place: usize) -> Turn<T>
    requires keyed { AreKeyed T.named (λ k. octets_of k) things.old.entries }
    requires within { place < length (values things.old) }
    ensures list { values things.new ≡ remove (values things.old) place }
    ensures again { IsWayBack T.named result (values things.new) (values things.old) }
    ensures keyed { AreKeyed T.named (λ k. octets_of k) things.new.entries }
    ensures turn { result ≡ with_at place (slice_get (values things.old) place) }
{
    let (key, thing) = things.shift_remove_index(place).unwrap();
    Turn::With {
        place,
        thing: Keyed { key, thing },
    }
}

/// Puts a thing in at a place. If there is no memory, `turn` still leads to the other side.
fn put_at<T: Named>(
    things: &mut IndexMap<Name, Shared<T>>,
    place: usize,
    thing: Keyed<T>,
    turn: &mut Turn<T>,
) -> Result<(), NoMemory>
    requires keyed { AreKeyed T.named (λ k. octets_of k) things.old.entries }
    requires fits { place ≤ length (values things.old) }
    requires sound { AreNamed T.named (insert (values things.old) place thing) }
    ensures ok { OnOk result (values things.new ≡ insert (values things.old) place thing) }
    ensures again { OnOk result (turn.new ≡ Turn.Without place) }
    ensures keyed { AreKeyed T.named (λ k. octets_of k) things.new.entries }
    ensures err { OnErr result ((values things.new ≡ values things.old) × (turn.new ≡ Turn.With place thing)) }
{
    let Keyed { key, thing } = thing;
    match things.shift_insert(place, key, thing) {
        Ok(_) => {
            *turn = Turn::Without { place };
            Ok(())
        }
        Err(refused) => {
            let (key, thing) = refused.value;
            *turn = Turn::With {
                place,
                thing: Keyed { key, thing },
            };
            Err(AllocError)
        }
    }
}

/// Goes to the other side of a change, which has one more thing, and leaves the way back in `turn`.
pub(crate) fn put_in<T: Named>(
    things: &mut IndexMap<Name, Shared<T>>,
    turn: &mut Turn<T>,
) -> Result<(), NoMemory>
    requires keyed { AreKeyed T.named (λ k. octets_of k) things.old.entries }
    requires leads { LeadsOn T.named turn.old (values things.old) }
    requires puts { puts_in turn.old ≡ true }
    ensures ok { OnOk result (values things.new ≡ other_of turn.old (values things.old)) }
    ensures again { OnOk result (IsWayBack T.named turn.new (values things.new) (values things.old)) }
    ensures keyed { AreKeyed T.named (λ k. octets_of k) things.new.entries }
    ensures err { OnErr result ((values things.new ≡ values things.old) × (turn.new ≡ turn.old)) }
    ensures without { OnOk result ((place : ℕ) × ((thing : T) × ((turn.old ≡ Turn.With place thing) × (turn.new ≡ Turn.Without place)))) }
{
    match mem::replace(turn, Turn::Nothing) {
        Turn::With { place, thing } => put_at(things, place, thing, turn),
        Turn::Nothing => Ok(()),
        Turn::Other { .. } => Ok(()),
        Turn::Without { .. } => Ok(()),
    }
}

/// Goes to the other side of a change, which has no more things. It takes no memory.
pub(crate) fn turn_out<T: Named>(things: &mut IndexMap<Name, Shared<T>>, turn: &mut Turn<T>)
    requires keyed { AreKeyed T.named (λ k. octets_of k) things.old.entries }
    requires fits { HasPlace T.named turn.old (values things.old) }
    requires puts { puts_in turn.old ≡ false }
    ensures list { values things.new ≡ other_of turn.old (values things.old) }
    ensures again { IsWayBack T.named turn.new (values things.new) (values things.old) }
    ensures keyed { AreKeyed T.named (λ k. octets_of k) things.new.entries }
    ensures taken { (place : ℕ) → turn.old ≡ Turn.Without place → turn.new ≡ with_at place (slice_get (values things.old) place) }
{
    match mem::replace(turn, Turn::Nothing) {
        Turn::Nothing => {}
        Turn::Other { place, thing } => {
            let other = mem::replace(&mut things[place], thing);
            *turn = Turn::Other {
                place,
                thing: other,
            };
        }
        Turn::Without { place } => *turn = take_at(things, place),
        Turn::With { .. } => {}
    }
}
