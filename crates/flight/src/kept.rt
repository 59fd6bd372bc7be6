//! What the questions that wait keep in memory, and the bounds of it.

ghost use Rattle.std.specs.Prelude.{◌≡◌, ◌<◌, ◌≤◌, slice_index};
ghost use Rattle.replies.specs.Sizing.{capped};
ghost use Rattle.flight.specs.Kept.{count_at, find_kept, input_kept, kept_in, list_kept};
ghost use Rattle.flight.specs.Kept.{response_kept, step_kept, want_kept};

use history::{Event, Reply, Seen, Servers};
use iterate::{Input, Step, Want};
use ranked::Find;

/// The octets of a step. It has 168, in a list that may have room for twice as many, and the allocator adds up to 16.
pub(crate) const STEP_OCTETS: usize = 352;

/// The octets of a piece of memory: a find with its counts has 112, an SOA record has 56 beside its datum, and the allocator adds up to 16.
pub(crate) const PIECE_OCTETS: usize = 128;

/// The octets of a server's name in a list, or of a datum of a set that is not cached. The name has 32 octets there, in a list that may
/// have room for twice as many, and the datum 96. Both may have 255 in a block of their own, with its count.
pub(crate) const NAME_OCTETS: usize = 384;

/// The octets of a server's address: 20, in two lists that may each have room for twice as many.
pub(crate) const ADDRESS_OCTETS: usize = 80;

/// The octets of a record in a message, at least (RFC 1035, section 4.1.3).
pub(crate) const RECORD_OCTETS: usize = 11;

/// The octets that one question may keep while it waits. A question that begins with an empty cache keeps some 27,000 for each
/// referral to 13 servers with two addresses each.
pub const MOST_KEPT: usize = 393_216;

/// The octets that all questions of a worker may keep that wait.
pub const MOST_ALL_KEPT: usize = 25_165_824;

/// The octets that they may keep after `relieve`. The 16 exchanges at which a turn looks may each add `MOST_KEPT` to it.
pub const MOST_AT_REST: usize = MOST_ALL_KEPT - 16 * MOST_KEPT;

/// What a find keeps.
fn find_kept(find: &Find) -> usize
    ensures { result ≡ capped (find_kept find.now) }
{
    find.memory()
        .saturating_add(2 * PIECE_OCTETS + find.owner.wire_len())
}

/// What a list of servers keeps.
fn list_kept(list: &Servers) -> usize
    ensures { result ≡ capped (list_kept list.now) }
{
    let addrs = ADDRESS_OCTETS.saturating_mul(list.addrs.as_slice().len());
    let names = NAME_OCTETS.saturating_mul(list.missing.as_slice().len());
    addrs.saturating_add(names).saturating_add(PIECE_OCTETS)
}

/// The octet at a place, or 0 behind the last.
fn octet_at(message: &[u8], place: usize) -> usize
    ensures value { result ≡ slice_index message.now place }
    ensures few { result ≤ 255 }
{
    match message.get(place) {
        Some(octet) => usize::from(*octet),
        None => 0,
    }
}

/// The count in the header of a message whose octets are at this place, but no more records than find room in the message.
fn count_at(message: &[u8], place: usize) -> usize
    requires { place < 12 }
    ensures value { result ≡ count_at message.now place }
    ensures few { result ≤ 65535 }
{
    let count = 256 * octet_at(message, place) + octet_at(message, place + 1);
    count.min(message.len() / RECORD_OCTETS)
}

/// What a response keeps.
fn response_kept(octets: &[u8]) -> usize
    ensures { result ≡ capped (response_kept octets.now) }
{
    let names = NAME_OCTETS * (count_at(octets, 6) + count_at(octets, 8));
    let addrs = ADDRESS_OCTETS * count_at(octets, 10);
    octets.len().saturating_add(names + addrs)
}

/// What an input keeps beside its step.
fn input_kept(input: &Input) -> usize
    ensures { result ≡ capped (input_kept input.now) }
{
    match input {
        Input::Came { octets, .. } => response_kept(octets.as_slice()),
        Input::Reply(Reply::Seen(Seen::Held(shown))) => find_kept(shown.body.find()),
        Input::Reply(Reply::Seen(Seen::Servers(list))) => list_kept(list.get()),
        _ => 0,
    }
}

/// What a want keeps beside its step.
fn want_kept(want: &Want) -> usize
    ensures { result ≡ capped (want_kept want.now) }
{
    match want {
        Want::Book(Event::Admit { find, .. }) => find_kept(find.find()),
        Want::Send { bytes, .. } => bytes.get().as_slice().len().saturating_add(PIECE_OCTETS),
        _ => 0,
    }
}

/// What a step keeps.
fn step_kept(step: &Step) -> usize
    ensures { result ≡ capped (step_kept step.now) }
{
    input_kept(&step.input)
        .saturating_add(want_kept(&step.want))
        .saturating_add(STEP_OCTETS)
}

/// What the steps of a question keep.
pub(crate) fn kept_in(steps: &[Step]) -> usize
    ensures { result ≡ capped (kept_in steps.now) }
{
    let mut total = 0usize;
    for step in steps {
        total = total.saturating_add(step_kept(step));
    }
    total
}

/// A question that waits keeps 384 KiB at most, and all of a worker 24 MiB, which are 18 MiB after `relieve`.
pub fn kept_law()
    ensures step { STEP_OCTETS ≡ 352 }
    ensures piece { PIECE_OCTETS ≡ 128 }
    ensures server { (NAME_OCTETS ≡ 384) × (ADDRESS_OCTETS ≡ 80) }
    ensures least { RECORD_OCTETS ≡ 11 }
    ensures one { MOST_KEPT ≡ 393216 }
    ensures all { MOST_ALL_KEPT ≡ 25165824 }
    ensures at_rest { MOST_AT_REST ≡ 18874368 }
{}
