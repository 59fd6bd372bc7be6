//! The thing that is closest to a name.

ghost use Rattle.std.specs.Prelude.{◌≡◌};
ghost use Rattle.indexmap.specs.IndexMap.{values};
ghost use Rattle.dns_name.specs.Closest.{closest_with};
ghost use Rattle.dns_name.specs.Labels.{octets_of};
ghost use Rattle.named_list.specs.Closest.{closest_of, found_over, FindsOver, found_now};
ghost use Rattle.named_list.specs.Keyed.{AreAsLong, AreKeyed};
ghost use Rattle.named_list.specs.Named.{AreNamed};
ghost use Rattle.named_list.specs.Turn.{other_of, LeadsOn};

use crate::named::Named;
use crate::spelled::Spelled;
use crate::turn::Turn;
use dns_name::Name;
use dns_text::Shared;
use indexmap::IndexMap;

/// The thing with the longest name at or above a name. No thing has a name of fewer octets than `least`, so it makes a lookup for each
/// name above that has as many.
pub(crate) fn closest<'a, T: Named>(
    things: &'a IndexMap<Name, Shared<T>>,
    least: usize,
    name: &Name,
) -> Option<&'a Shared<T>>
    requires keyed { AreKeyed T.named (λ k. octets_of k) things.now.entries }
    requires long { AreAsLong T.named least (values things.now) }
    ensures { found_now result ≡ closest_of T.named (values things.now) name.now }
{
    let mut octets = name.octets();
    // Most services have no local zone, and no stub: no name is long enough, and its labels need not be found.
    if octets.len() < least {
        return None;
    }
    let mut labels = name.labels();
    loop {
        if let Some(thing) = things.get(Spelled { octets }) {
            return Some(thing);
        }
        let label = labels.next()?;
        let end = octets.len() - label.len() - 1;
        if end < least {
            return None;
        }
        octets = &octets[..end];
    }
}

/// What has a name, if another thing, or none, has one name.
fn found_over<'a, T: Named>(
    things: &'a IndexMap<Name, Shared<T>>,
    octets: &[u8],
    other: &Name,
    instead: Option<&'a Shared<T>>,
) -> Option<&'a Shared<T>>
    requires keyed { AreKeyed T.named (λ k. octets_of k) things.now.entries }
    ensures { FindsOver T.named (values things.now) other.now instead.entry octets.now result }
{
    if octets == other.octets() {
        return instead;
    }
    things.get(Spelled { octets })
}

/// The thing that is closest to a name, if another thing, or none, has one name. No bound on the octets ends the walk early.
fn closest_but<'a, T: Named>(
    things: &'a IndexMap<Name, Shared<T>>,
    name: &Name,
    other: &Name,
    instead: Option<&'a Shared<T>>,
) -> Option<&'a Shared<T>>
    requires keyed { AreKeyed T.named (λ k. octets_of k) things.now.entries }
    ensures { found_now result ≡ closest_with (found_over T.named (values things.now) other.now (found_now instead.entry)) name.now }
{
    let mut octets = name.octets();
    let mut labels = name.labels();
    loop {
        if let Some(thing) = found_over(things, octets, other, instead) {
            return Some(thing);
        }
        let label = labels.next()?;
        let end = octets.len() - label.len() - 1;
        octets = &octets[..end];
    }
}

/// The thing that is closest to a name on the other side of a change: one name has another thing there, or none.
pub(crate) fn closest_over<'a, T: Named>(
    things: &'a IndexMap<Name, Shared<T>>,
    least: usize,
    turn: &'a Turn<T>,
    name: &Name,
) -> Option<&'a Shared<T>>
    requires keyed { AreKeyed T.named (λ k. octets_of k) things.now.entries }
    requires long { AreAsLong T.named least (values things.now) }
    requires named { AreNamed T.named (values things.now) }
    requires leads { LeadsOn T.named turn.now (values things.now) }
    ensures { found_now result ≡ closest_of T.named (other_of turn.now (values things.now)) name.now }
{
    match turn {
        Turn::Nothing => closest(things, least, name),
        Turn::Other { thing, .. } => closest_but(things, name, thing.get().name(), Some(thing)),
        Turn::Without { place } => {
            let gone = &things[*place];
            closest_but(things, name, gone.get().name(), None)
        }
        Turn::With { thing, .. } => closest_but(things, name, thing.name(), Some(&thing.thing)),
    }
}
