//! A message over TCP, as its octets come (RFC 1035, section 4.2.2).

ghost use Rattle.std.specs.Prelude.{◌≡◌, ◌↔◌, ◌<◌, ◌≤◌, ◌++◌, [], None, length, vec_capacity, IfSome, IsNone, OnErr, OnOk};
ghost use Rattle.replies.specs.declared.limits.TheConstants.{MOST_MESSAGE};
ghost use Rattle.replies.specs.Framing.{framed, TakesMessage};
ghost use Rattle.replies.specs.Wanting.{framed_size, octets_wanting, IsWholeFrame};

use crate::framing::{octets_wanting, size_of};
use dns_name::NoMemory;
use std::alloc::Global;
use std::marker::Model;
use std::mem;

/// The octets of a length, which precedes each message.
const LENGTH: usize = 2;

/// What has come of a message and of the length before it, and nothing of what follows. It takes memory as octets come.
#[derive(Drop)]
pub struct BegunMessage {
    octets: Vec<u8>,
    ghost within: { length octets.items ≤ framed_size octets.items },
}

/// A message that has come whole. Contracts see its octets, without the length before them.
#[derive(Drop)]
pub struct WholeMessage {
    octets: Vec<u8>,
}

impl Model for WholeMessage {
    ghost use Rattle.std.specs.Prelude.{ℕ, List, drop};
    ghost use Rattle.replies.specs.Wanting.{IsWholeFrame};

    ghost Value = { List ℕ };

    ghost view = { λ whole. drop 2 whole.octets.items };

    ghost invariant = { λ whole. IsWholeFrame whole.octets.items };
}

impl WholeMessage {
    /// The octets of the message.
    pub fn as_slice(&self) -> &[u8]
        ensures { result.now ≡ self.now }
    {
        &self.octets[LENGTH..]
    }
}

/// The message in these octets, or None if they are no whole message preceded by its length.
fn whole(came: &[u8]) -> Option<&[u8]>
    ensures message { IfSome result (λ message. came.now ≡ framed message.now) }
    ensures within { IfSome result (λ message. length message.now ≤ MOST_MESSAGE) }
    ensures none { IsNone result → ¬ (IsWholeFrame came.now) }
{
    let [high, low, message @ ..] = came else {
        return None;
    };
    if message.len() != size_of(*high, *low) {
        return None;
    }
    Some(message)
}

impl BegunMessage {
    /// A message of which nothing has come.
    pub fn new(alloc: Global) -> BegunMessage
        ensures octets { result.octets.items ≡ [] }
        ensures kept { vec_capacity result.octets ≡ 0 }
    {
        BegunMessage {
            octets: Vec::new(alloc),
        }
    }

    /// Whether nothing has come.
    pub fn is_empty(&self) -> bool {
        self.octets.is_empty()
    }

    /// The octets of memory that it keeps.
    pub fn kept(&self) -> usize
        ensures { result ≡ vec_capacity self.now.octets }
    {
        self.octets.capacity()
    }

    /// The number of octets that it still lacks, as far as it says: none if it has come whole.
    pub fn wanting(&self) -> usize
        ensures wanting { result ≡ octets_wanting self.now.octets.items }
        ensures none { (result ≡ 0) ↔ IsWholeFrame self.now.octets.items }
    {
        octets_wanting(&self.octets)
    }

    /// Adds the next octets. After an error none has been added.
    pub fn add(&mut self, more: &[u8]) -> Result<(), NoMemory>
        requires { length more.now ≤ octets_wanting self.old.octets.items }
        ensures added { OnOk result (self.new.octets.items ≡ self.old.octets.items ++ more.now) }
        ensures none { OnErr result (self.new.octets.items ≡ self.old.octets.items) }
    {
        self.octets.extend_from_slice(more)
    }

    /// The message, or None if it has not come whole.
    pub fn message(&self) -> Option<&[u8]>
        ensures message { IfSome result (λ message. self.now.octets.items ≡ framed message.now) }
        ensures within { IfSome result (λ message. length message.now ≤ MOST_MESSAGE) }
        ensures none { IsNone result → ¬ (IsWholeFrame self.now.octets.items) }
    {
        whole(&self.octets)
    }

    /// Takes the message, if it has come whole. Then nothing of the next one has come.
    pub fn take(&mut self, alloc: Global) -> Option<WholeMessage>
        ensures whole { IfSome result (TakesMessage self.old.octets.items self.new.octets.items) }
        ensures kept { result ≡ None → self.new ≡ self.old }
        ensures part { length self.new.octets.items < framed_size self.new.octets.items }
    {
        if self.wanting() > 0 {
            return None;
        }
        let octets = mem::replace(&mut self.octets, Vec::new(alloc));
        Some(WholeMessage { octets })
    }
}
