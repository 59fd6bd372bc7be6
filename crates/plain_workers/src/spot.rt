//! The place of an octet of a connection, whose messages are each preceded by a length in two octets (RFC 1035, section 4.2.2).
//! A `BegunMessage` would take memory for the octets. A spot keeps nothing of them but their place.

ghost use Rattle.std.specs.Prelude.{◌≡◌, ◌<◌, ◌≤◌, ◌⊎◌, ◌+◌, ◌*◌, length, take};
ghost use Rattle.plain_workers.specs.declared.spot.Spot.TheVariants.{Beginning};
ghost use Rattle.plain_workers.specs.Spots.{spot_inside, spot_behind, spot_after, IsOfOneMessage};

use replies::size_of;

/// The place of an octet of a connection.
#[derive(Clone, Copy, PartialEq, Eq)]
pub(crate) enum Spot {
    /// The first octet of a length: a message begins.
    Beginning,
    /// The second octet of a length whose first is this.
    Length(u8),
    /// An octet inside a message, of which so many are left, this one included.
    Inside(u16),
}

impl Spot {
    /// The place if so many octets of a message are left.
    fn inside(left: u16) -> Spot
        ensures { result ≡ spot_inside left }
    {
        if left == 0 {
            Spot::Beginning
        } else {
            Spot::Inside(left)
        }
    }

    /// The place behind a length of these two octets.
    fn behind_length(high: u8, low: u8) -> Spot
        ensures { result ≡ spot_inside (high * 256 + low) }
    {
        Spot::inside(size_of(high, low) as u16)
    }

    /// The place of the next octet, after this one.
    fn behind(self, octet: u8) -> Spot
        ensures { result ≡ spot_behind self octet }
    {
        match self {
            Spot::Beginning => Spot::Length(octet),
            Spot::Length(first) => Spot::behind_length(first, octet),
            Spot::Inside(left) => Spot::inside(left.saturating_sub(1)),
        }
    }

    /// The place of the next octet, after all of these.
    pub(crate) fn after(self, octets: &[u8]) -> Spot
        ensures { result ≡ spot_after self octets.now }
    {
        let mut spot = self;
        for octet in octets {
            spot = spot.behind(*octet);
        }
        spot
    }

    /// Goes on over the octets until a message begins, or over all of them: the number of those octets.
    pub(crate) fn go_on(&mut self, octets: &[u8]) -> usize
        ensures within { result ≤ length octets.now }
        ensures spot { self.new ≡ spot_after self.old (take result octets.now) }
        ensures far { (result ≡ length octets.now) ⊎ ((0 < result) × (self.new ≡ Beginning)) }
        ensures one { IsOfOneMessage self.old (take result octets.now) }
    {
        let mut count = 0;
        while count < octets.len() {
            *self = self.behind(octets[count]);
            count += 1;
            if *self == Spot::Beginning {
                return count;
            }
        }
        count
    }
}
