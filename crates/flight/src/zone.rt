//! The zone of a question's name, by the name alone: questions in one zone share the places of exchanges.

ghost use Rattle.std.specs.Prelude.{◌≡◌};
ghost use Rattle.dns_name.specs.Labels.{octets_of};
ghost use Rattle.flight.specs.Origin.{zone_of};
ghost use Rattle.flight.specs.Zones.{label_end};

use dns_name::Name;

/// The number of octets of the first label of a run of labels, with its length. It is 0 if the run is empty.
fn first_len(octets: &[u8]) -> usize
    ensures { result ≡ label_end octets.now }
{
    match octets.first() {
        Some(count) => usize::from(*count) + 1,
        None => 0,
    }
}

/// The octets of the last two labels of a name, the one next to the root first. It takes no memory.
pub fn zone_octets(name: &Name) -> &[u8]
    ensures { result.now ≡ octets_of (zone_of name.now) }
{
    let octets = name.octets();
    let first = first_len(octets);
    let second = first_len(&octets[first..]);
    &octets[..first + second]
}
