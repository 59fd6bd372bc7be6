//! The list, its questions and its changes.

ghost use Rattle.std.specs.Prelude.{◌≡◌, ℕ, [], true, false, IfOk, IsOk, OnErr, OnOk, slice_get};
ghost use Rattle.named_list.specs.Closest.{closest_of, found_now};
ghost use Rattle.named_list.specs.Named.{AreNamed, has_named, list_with, list_without};
ghost use Rattle.named_list.specs.Turn.{other_of, puts_in, with_at, HasPlace, IsWayBack, TurnsRound};
ghost use Rattle.named_list.specs.declared.turn.Turn.TheVariants as Turn;

use crate::closest::{closest, closest_over};
use crate::entry::{has, put, take};
use crate::named::Named;
use crate::turn::Turn;
use crate::turning::{put_in, turn_out};
use dns_name::{Name, NoMemory};
use dns_text::Shared;
use indexmap::IndexMap;
use std::alloc::Global;
use std::marker::Model;

/// Things in the order of their arrival, no two of the same name. Contracts see the list alone.
///
/// An index finds the thing of a name in one lookup. Taking one out, or putting it back in its place, moves the later ones.
#[derive(Drop)]
pub struct NamedList<T: Named> {
    // Each under its name, which is hashed at once, and not octet by octet. A short name lies in the key itself.
    things: IndexMap<Name, Shared<T>>,
    // No thing has a name of fewer octets. A thing that is taken out leaves it as it is.
    least: usize,
}

impl<T: Named> Model for NamedList<T> {
    ghost use Rattle.std.specs.Prelude.{List};
    ghost use Rattle.dns_name.specs.Labels.{octets_of};
    ghost use Rattle.indexmap.specs.IndexMap.{values};
    ghost use Rattle.named_list.specs.Named.{AreNamed};
    ghost use Rattle.named_list.specs.Keyed.{AreAsLong, AreKeyed};

    ghost Value = { List T };

    ghost view = { λ l. values l.things };

    ghost invariant = { λ l. AreNamed T.named (values l.things) × AreKeyed T.named (λ k. octets_of k) l.things.entries
        × AreAsLong T.named l.least (values l.things) };
}

impl<T: Named> NamedList<T> {
    /// An empty list. It takes no memory.
    pub fn new(alloc: Global) -> NamedList<T>
        ensures { result ≡ [] }
    {
        NamedList {
            things: IndexMap::new(alloc),
            least: usize::MAX,
        }
    }

    /// The things in order.
    pub fn as_slice(&self) -> &[Shared<T>]
        ensures value { result.now ≡ self.now }
        ensures sound { AreNamed T.named self.now }
    {
        self.things.values().as_slice()
    }

    /// The thing with the longest name at or above a name: at most one lookup for each label. It takes no memory.
    pub fn closest(&self, name: &Name) -> Option<&Shared<T>>
        ensures { found_now result ≡ closest_of T.named self.now name.now }
    {
        closest(&self.things, self.least, name)
    }

    /// The thing that `closest` would give on the other side of a change. It takes no memory.
    pub fn closest_over<'a>(&'a self, turn: &'a Turn<T>, name: &Name) -> Option<&'a Shared<T>>
        requires fits { HasPlace T.named turn.now self.now }
        requires sound { AreNamed T.named (other_of turn.now self.now) }
        ensures { found_now result ≡ closest_of T.named (other_of turn.now self.now) name.now }
    {
        closest_over(&self.things, self.least, turn, name)
    }

    /// Whether a thing has this name.
    pub fn has(&self, name: &Name) -> bool
        ensures { result ≡ has_named T.named self.now name.now }
    {
        has(&self.things, name)
    }

    /// Puts a thing in the place of the thing of its name, which takes no memory, or last.
    pub fn put(&mut self, new: Shared<T>) -> Result<Turn<T>, NoMemory>
        ensures ok { OnOk result (self.new ≡ list_with T.named new self.old) }
        ensures err { OnErr result (self.new ≡ self.old) }
        ensures saved { IfOk result (λ turn. IsWayBack T.named turn self.new self.old) }
        ensures free { has_named T.named self.old (T.named new) ≡ true → IsOk result }
    {
        self.least = self.least.min(new.get().name().octets().len());
        put(&mut self.things, new)
    }

    /// Takes the thing of a name out, if there is one. It takes no memory.
    pub fn take(&mut self, name: &Name) -> Turn<T>
        ensures list { self.new ≡ list_without T.named name.now self.old }
        ensures saved { IsWayBack T.named result self.new self.old }
    {
        take(&mut self.things, name)
    }

    /// Goes to the other side of a change, and leaves the way back in `turn`. Only if that puts a thing in, memory may be refused.
    pub fn turn_over(&mut self, turn: &mut Turn<T>) -> Result<(), NoMemory>
        requires fits { HasPlace T.named turn.old self.old }
        requires sound { AreNamed T.named (other_of turn.old self.old) }
        ensures ok { OnOk result (self.new ≡ other_of turn.old self.old) }
        ensures again { OnOk result (IsWayBack T.named turn.new self.new self.old) }
        ensures err { OnErr result ((self.new ≡ self.old) × (turn.new ≡ turn.old)) }
        ensures free { puts_in turn.old ≡ false → IsOk result }
    {
        if turn.puts_in() {
            return self.put_in(turn);
        }
        self.turn_out(turn);
        Ok(())
    }

    /// Goes to the other side of a change, which has one more thing.
    pub fn put_in(&mut self, turn: &mut Turn<T>) -> Result<(), NoMemory>
        requires fits { HasPlace T.named turn.old self.old }
        requires sound { AreNamed T.named (other_of turn.old self.old) }
        requires puts { puts_in turn.old ≡ true }
        ensures ok { OnOk result (self.new ≡ other_of turn.old self.old) }
        ensures again { OnOk result (IsWayBack T.named turn.new self.new self.old) }
        ensures err { OnErr result ((self.new ≡ self.old) × (turn.new ≡ turn.old)) }
        ensures without { OnOk result (TurnsRound turn.old turn.new) }
    {
        self.least = self.least.min(turn.octets_in());
        put_in(&mut self.things, turn)
    }

    /// Goes to the other side of a change, which has no more things. It takes no memory.
    pub fn turn_out(&mut self, turn: &mut Turn<T>)
        requires fits { HasPlace T.named turn.old self.old }
        requires sound { AreNamed T.named (other_of turn.old self.old) }
        requires puts { puts_in turn.old ≡ false }
        ensures list { self.new ≡ other_of turn.old self.old }
        ensures again { IsWayBack T.named turn.new self.new self.old }
        ensures taken { (place : ℕ) → turn.old ≡ Turn.Without place → turn.new ≡ with_at place (slice_get self.old place) }
    {
        turn_out(&mut self.things, turn)
    }
}
