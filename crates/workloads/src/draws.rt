//! Numbers that a seed determines.

ghost use Rattle.std.specs.Prelude.{◌<◌};

use rand_core::Rng;
use rand_pcg::Pcg32;

/// The draws about one thing, by the seed of the run and the number of the thing. Each kind of thing has draws of its own.
pub fn draws_of(seed: u32, kind: u64, number: u32) -> Pcg32 {
    let place = u64::from(number).wrapping_mul(0x9e37_79b9_7f4a_7c15);
    Pcg32::new(place ^ u64::from(seed), kind)
}

/// A number below a limit, which is not 0.
pub fn below(rng: &mut Pcg32, limit: u32) -> u32
    requires { 0 < limit }
    ensures { result < limit }
{
    rng.next_u32() % limit
}

/// A place below a limit, which is not 0. The first tenth of the places is drawn twice as often as all others together.
pub fn skewed(rng: &mut Pcg32, limit: u32) -> u32
    requires { 0 < limit }
    ensures { result < limit }
{
    let drawn = u64::from(rng.next_u32() % (1 << 24));
    let second = product(drawn, drawn);
    let fourth = product(second, second);
    let sixth = product(fourth, second);
    ((u64::from(limit).wrapping_mul(sixth) >> 24) % u64::from(limit)) as u32
}

/// The product of two fractions, each in units of 2^-24.
fn product(a: u64, b: u64) -> u64 {
    a.wrapping_mul(b) >> 24
}
