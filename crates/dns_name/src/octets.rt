//! The octets of a name: in the value itself if they are few, else in a block of memory that copies share.

ghost use Rattle.std.specs.Prelude.{◌≡◌, ◌+◌, ◌<◌, ◌≤◌, [], length, drop, IfOk};

use crate::NoMemory;
use crate::limits::MAX_SPELLED_OCTETS;
use std::alloc::Global;
use std::marker::Model;
use std::mem::size_of;
use std::sync::Arc;

/// The most octets kept in the value itself. With `start` and the tag of `Storage` they are as long as four pointers.
const SHORT: usize = 30;

/// The most octets of the smaller block.
const MIDDLE: usize = 62;

/// The most octets of the larger block.
const LONG: usize = MAX_SPELLED_OCTETS;

/// At most `N` octets: those of `octets` from `start` on.
#[derive(Clone, Copy)]
struct Inline<const N: usize> {
    start: u8,
    octets: [u8; N],
    ghost within: { start ≤ N },
}

impl<const N: usize> Inline<N> {
    /// The octets of a buffer from `start` on. It copies the last `N` octets, a number that the compiler knows.
    fn from_buffer(buffer: &[u8; LONG], start: usize) -> Inline<N>
        requires few { N ≤ LONG }
        requires within { start ≤ LONG }
        requires fits { LONG ≤ start + N }
        ensures { drop result.start result.octets ≡ drop start buffer.now }
    {
        let Some(last) = buffer.last_chunk::<N>() else {
            unreachable!();
        };
        Inline {
            start: (N + start - LONG) as u8,
            octets: *last,
        }
    }

    /// The octets.
    fn as_slice(&self) -> &[u8]
        ensures { result.now ≡ drop self.now.start self.now.octets }
    {
        let all = &self.octets[..];
        &all[usize::from(self.start)..]
    }
}

/// Most names are short. The others have blocks of two sizes, so that a name of 40 octets does not take a block of 254.
#[derive(Drop)]
enum Storage {
    Short(Inline<SHORT>),
    Middle(Arc<Inline<MIDDLE>>),
    Long(Arc<Inline<LONG>>),
}

/// The octets of a name, in at most one block of memory. A copy takes none.
pub(crate) struct NameOctets {
    storage: Storage,
}

const _: () = prove!(size_of::<NameOctets>() == 32);

impl Model for NameOctets {
    ghost use Rattle.std.specs.Prelude.{List, ℕ};

    ghost Value = { List ℕ };

    ghost use Rattle.dns_name.specs.Stored.{stored_octets};

    ghost view = { λ o. stored_octets o.storage };
}

impl NameOctets {
    /// No octets.
    pub(crate) fn none() -> NameOctets
        ensures { result ≡ [] }
    {
        NameOctets {
            storage: Storage::Short(Inline {
                start: SHORT as u8,
                octets: [0; SHORT],
            }),
        }
    }

    /// A copy of the octets of a buffer from `start` on, in the value itself if they are few.
    pub(crate) fn from_buffer(
        alloc: Global,
        buffer: &[u8; MAX_SPELLED_OCTETS],
        start: usize,
    ) -> Result<NameOctets, NoMemory>
        requires { start ≤ MAX_SPELLED_OCTETS }
        ensures { IfOk result (λ o. o ≡ drop start buffer.now) }
    {
        let storage = if LONG - start <= SHORT {
            Storage::Short(Inline::from_buffer(buffer, start))
        } else if LONG - start <= MIDDLE {
            Storage::Middle(Arc::new(alloc, Inline::from_buffer(buffer, start))?)
        } else {
            Storage::Long(Arc::new(alloc, Inline::from_buffer(buffer, start))?)
        };
        Ok(NameOctets { storage })
    }

    /// The octets.
    pub(crate) fn as_slice(&self) -> &[u8]
        ensures { result.now ≡ self.now }
    {
        match &self.storage {
            Storage::Short(run) => run.as_slice(),
            Storage::Middle(run) => run.as_slice(),
            Storage::Long(run) => run.as_slice(),
        }
    }
}

// Written by hand: a proof about code that drops a name then has one call, and not a case for each variant of `Storage`.
impl Drop for NameOctets {
    fn drop(self) {
        let NameOctets { storage } = self;
        drop(storage);
    }
}

impl Clone for NameOctets {
    fn clone(&self) -> Result<NameOctets, NoMemory>
        ensures { IfOk result (λ o. o ≡ self.now) }
    {
        let storage = match &self.storage {
            Storage::Short(run) => Storage::Short(*run),
            Storage::Middle(run) => Storage::Middle(Arc::try_clone(run)?),
            Storage::Long(run) => Storage::Long(Arc::try_clone(run)?),
        };
        Ok(NameOctets { storage })
    }
}
