//! The octets of a query's question: in the value itself if they are few, else in a block of memory.

ghost use Rattle.std.specs.Prelude.{◌≡◌, ◌≤◌, length, take, IfOk};
ghost use Rattle.dns_wire.specs.declared.server.spelling.TheConstants.{SHORT};

use dns_name::NoMemory;
use std::alloc::Global;
use std::marker::Model;

/// The most octets kept in the value itself: a name of 42 octets, its zero octet included, and four of type and class. Most questions are shorter.
const SHORT: usize = 46;

/// At most `SHORT` octets: the first `len` of `octets`.
#[derive(Clone, Copy)]
struct InlineOctets {
    len: u8,
    octets: [u8; SHORT],
    ghost within: { len ≤ SHORT },
}

#[derive(Drop)]
enum OctetStorage {
    Short(InlineOctets),
    Long(Vec<u8>),
}

/// The octets of a question. They take a block of memory only if they are many.
#[derive(Drop)]
pub struct QuestionOctets {
    storage: OctetStorage,
}

impl Model for QuestionOctets {
    ghost use Rattle.std.specs.Prelude.{List, ℕ};

    ghost Value = { List ℕ };

    ghost use Rattle.dns_wire.specs.Server.Spelling.{stored_octets};

    ghost view = { λ o. stored_octets o.storage };
}

/// Octets that fit into the value itself.
#[inline(always)]
fn run_of(octets: &[u8]) -> InlineOctets
    requires { length octets.now ≤ SHORT }
    ensures { take result.len result.octets ≡ octets.now }
{
    let mut room = [0; SHORT];
    room[..octets.len()].copy_from_slice(octets);
    InlineOctets {
        len: octets.len() as u8,
        octets: room,
    }
}

impl QuestionOctets {
    /// A copy of these octets.
    #[inline(always)]
    pub(crate) fn from_slice(alloc: Global, octets: &[u8]) -> Result<QuestionOctets, NoMemory>
        ensures { IfOk result (λ o. o ≡ octets.now) }
    {
        let storage = if octets.len() <= SHORT {
            OctetStorage::Short(run_of(octets))
        } else {
            OctetStorage::Long(Vec::from_slice(alloc, octets)?)
        };
        Ok(QuestionOctets { storage })
    }

    /// The octets, the first first.
    pub fn as_slice(&self) -> &[u8]
        ensures { result.now ≡ self.now }
    {
        match &self.storage {
            OctetStorage::Short(run) => &run.octets[..usize::from(run.len)],
            OctetStorage::Long(octets) => octets,
        }
    }
}
