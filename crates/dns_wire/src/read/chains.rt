//! What is known of the pointers of a message: the ends of their chains are noted once if it may have many names, and
//! the name of the first question is kept for the pointers to it.

ghost use Rattle.std.specs.Prelude.{◌≡◌, ◌≤◌, ◌<◌, ◌-◌, ℕ, length, IfSome};
ghost use Rattle.std.specs.Option.{option_copied};
ghost use Rattle.dns_wire.specs.Read.Chains.{PointersLead, IsNotedAt, AreEnds, IsFirstName};

use crate::limits::{HEADER_OCTETS, MOST_OCTETS, POINTER_MARK};
use crate::read::number::u16_at;
use crate::read::place::{Next, next_at};
use dns_name::Name;
use std::marker::Model;

/// How far a pointer reaches: its offset has 14 bits (RFC 1035, section 4.1.4).
pub(crate) const POINTER_REACH: usize = 16384;

/// The most steps along pointers that are taken one by one.
const MOST_STEPS: usize = 1 << 18;

/// The octets of a message, for each place that a pointer can reach the end of the chain of pointers from there, and the
/// name of the first question. Contracts see the octets.
#[derive(Drop)]
pub(crate) struct Wire<'a> {
    octets: &'a [u8],
    // For a place that has a pointer back, one more than the place where the chain from there ends; else 0. Empty if
    // nothing is noted.
    ends: &'a [u16],
    // The name right after the header, if it was read already.
    first: Option<&'a Name>,
}

impl<'a> Model for Wire<'a> {
    ghost use Rattle.std.specs.Prelude.{List, ℕ, IfSome};
    ghost use Rattle.std.specs.Option.{option_copied};
    ghost use Rattle.dns_wire.specs.Read.Chains.{AreEnds, IsFirstName};

    ghost Value = { List ℕ };

    ghost view = { λ w. w.octets.now };

    ghost invariant = { λ w. AreEnds w.octets.now w.ends.now × IfSome (option_copied w.first) (λ name. IsFirstName w.octets.now name) };
}

impl<'a> Wire<'a> {
    /// A message without notes: each pointer is followed one by one.
    pub(crate) fn plain(octets: &'a [u8]) -> Wire<'a>
        ensures { result ≡ octets.now }
    {
        Wire {
            octets,
            ends: &[],
            first: None,
        }
    }

    /// A message with all its chains noted, by one walk over the places that a pointer can reach.
    pub(crate) fn noted(octets: &'a [u8], ends: &'a mut [u16; POINTER_REACH]) -> Wire<'a>
        ensures { result ≡ octets.now }
    {
        // No chain goes on from a place behind the last octet, so these places need no note.
        let ends = &mut ends[..octets.len().min(POINTER_REACH)];
        note_ends(octets, ends);
        Wire {
            octets,
            ends,
            first: None,
        }
    }

    /// The same message with the name of its first question, if it has one.
    pub(crate) fn knowing<'b>(&'b self, first: Option<&'b Name>) -> Wire<'b>
        requires { IfSome (option_copied first) (λ name. IsFirstName self.now name) }
        ensures { result ≡ self.now }
    {
        Wire {
            octets: self.octets,
            ends: self.ends,
            first,
        }
    }

    /// The octets alone.
    pub(crate) fn as_slice(&self) -> &'a [u8]
        ensures { result.now ≡ self.now }
    {
        self.octets
    }

    /// The name of the first question, if it is known.
    pub(crate) fn first(&self) -> Option<&'a Name>
        ensures { IfSome (option_copied result) (λ name. IsFirstName self.now name) }
    {
        self.first
    }

    /// A place to which pointers lead from this one. If all chains are noted, that place has no pointer back.
    pub(crate) fn end_of(&self, at: usize) -> usize
        ensures { PointersLead self.now at result }
    {
        end_in(self.octets, self.ends, at)
    }
}

/// The place that is noted for one, or that place itself.
fn end_in(octets: &[u8], ends: &[u16], at: usize) -> usize
    requires { IsNotedAt octets.now ends.now at }
    ensures { PointersLead octets.now at result }
{
    match ends.get(at) {
        None | Some(0) => at,
        Some(end) => usize::from(*end) - 1,
    }
}

/// The note for a place, if all places before it are noted.
fn note_of(octets: &[u8], ends: &[u16], at: usize) -> u16
    requires reach { at < POINTER_REACH }
    requires noted { (place : ℕ) → place < at → IsNotedAt octets.now ends.now place }
    ensures { 0 < result → PointersLead octets.now at (result - 1) }
{
    // Most octets begin no pointer.
    match octets.get(at) {
        Some(octet) if *octet >= POINTER_MARK => {}
        _ => return 0,
    }
    match next_at(octets, at) {
        Next::Pointer(to) if to < at => (end_in(octets, ends, to) + 1) as u16,
        _ => 0,
    }
}

/// Notes for each place the end of the chain of pointers from there.
fn note_ends(octets: &[u8], ends: &mut [u16])
    requires { length ends.old ≤ POINTER_REACH }
    ensures { AreEnds octets.now ends.new }
{
    for at in 0..ends.len() {
        let note = note_of(octets, ends, at);
        ends[at] = note;
    }
}

// A function of its own, so that no goal spells the zeros out.
pub(crate) fn blank_ends() -> [u16; POINTER_REACH] {
    [0; POINTER_REACH]
}

/// Whether a message may have so many names that following each pointer one by one could take long: up to the number of
/// names that the header counts, times the number of octets.
pub(crate) fn has_many_names(octets: &[u8]) -> bool
    requires { HEADER_OCTETS ≤ length octets.now }
{
    let records = usize::from(u16_at(octets, 6))
        + usize::from(u16_at(octets, 8))
        + usize::from(u16_at(octets, 10));
    let names = usize::from(u16_at(octets, 4)) + 3 * records;
    octets.len() > MOST_OCTETS || names * octets.len() > MOST_STEPS
}
