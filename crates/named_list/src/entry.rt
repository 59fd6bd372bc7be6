//! Lookups and changes of one thing in the index.

ghost use Rattle.std.specs.Prelude.{◌≡◌, true, IfOk, IsOk, OnErr, OnOk};
ghost use Rattle.dns_name.specs.Labels.{octets_of};
ghost use Rattle.indexmap.specs.IndexMap.{values};
ghost use Rattle.named_list.specs.Named.{AreNamed, has_named, list_with, list_without};
ghost use Rattle.named_list.specs.Keyed.{AreKeyed};
ghost use Rattle.named_list.specs.Turn.{IsWayBack};

use crate::keyed::Keyed;
use crate::named::Named;
use crate::turn::Turn;
use dns_name::{Name, NoMemory};
use dns_text::Shared;
use indexmap::IndexMap;
use std::mem;

/// Whether a thing has this name.
pub(crate) fn has<T: Named>(things: &IndexMap<Name, Shared<T>>, name: &Name) -> bool
    requires { AreKeyed T.named (λ k. octets_of k) things.now.entries }
    ensures { result ≡ has_named T.named (values things.now) name.now }
{
    things.contains_key(name)
}

/// Puts a thing in the place of the thing of its name, or last.
pub(crate) fn put<T: Named>(
    things: &mut IndexMap<Name, Shared<T>>,
    new: Shared<T>,
) -> Result<Turn<T>, NoMemory>
    requires keyed { AreKeyed T.named (λ k. octets_of k) things.old.entries }
    requires sound { AreNamed T.named (values things.old) }
    ensures ok { OnOk result (values things.new ≡ list_with T.named new (values things.old)) }
    ensures keyed { AreKeyed T.named (λ k. octets_of k) things.new.entries }
    ensures err { OnErr result (values things.new ≡ values things.old) }
    ensures saved { IfOk result (λ turn. IsWayBack T.named turn (values things.new) (values things.old)) }
    ensures free { has_named T.named (values things.old) (T.named new) ≡ true → IsOk result }
{
    if let Some(place) = things.get_index_of(new.get().name()) {
        let thing = mem::replace(&mut things[place], new);
        return Ok(Turn::Other { place, thing });
    }
    let key = new.get().name().clone()?;
    let place = things.len();
    things.insert(key, new)?;
    Ok(Turn::Without { place })
}

/// Takes the thing of a name out, if there is one.
pub(crate) fn take<T: Named>(things: &mut IndexMap<Name, Shared<T>>, name: &Name) -> Turn<T>
    requires keyed { AreKeyed T.named (λ k. octets_of k) things.old.entries }
    requires sound { AreNamed T.named (values things.old) }
    ensures value { values things.new ≡ list_without T.named name.now (values things.old) }
    ensures keyed { AreKeyed T.named (λ k. octets_of k) things.new.entries }
    ensures saved { IsWayBack T.named result (values things.new) (values things.old) }
{
    let Some(place) = things.get_index_of(name) else {
        return Turn::Nothing;
    };
    let (key, thing) = things.shift_remove_index(place).unwrap();
    Turn::With {
        place,
        thing: Keyed { key, thing },
    }
}
