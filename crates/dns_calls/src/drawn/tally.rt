//! The tally of outcomes: the number of strings with each.

ghost use Rattle.dns_wire.specs.WellFormed.{HasForms};

use crate::drawn::draws::drawn;
use crate::drawn::values::Values;
use dns_wire::{Asked, EncodeFault, Message, Rcode, WireFault, decode, encode, read_question};
use rand_pcg::Pcg32;
use std::alloc::{AllocError, Global};

/// The tally of the outcomes of all strings so far.
#[derive(Clone, Copy)]
pub struct Tally {
    messages: u32,
    /// The questions and records of all messages.
    items: u32,
    short: u32,
    trailing: u32,
    bad_names: u32,
    bad_pointers: u32,
    bad_data: u32,
    /// A sum over the offsets of faults.
    offsets: u32,
    /// A sum over the contents of the messages.
    values: Values,
    /// The messages that were the same after writing and reading.
    again: u32,
    /// The number of octets that were written.
    octets: u32,
    octet_values: Values,
    no_replies: u32,
    malformed: u32,
    not_implemented: u32,
    queries: u32,
}

fn items_in(message: &Message) -> u32 {
    let questions = message.questions.as_slice().len() % 65536;
    let answer = message.answer.as_slice().len() % 65536;
    let authority = message.authority.as_slice().len() % 65536;
    let additional = message.additional.as_slice().len() % 65536;
    (questions + answer + authority + additional) as u32
}

impl Tally {
    fn new() -> Tally {
        Tally {
            messages: 0,
            items: 0,
            short: 0,
            trailing: 0,
            bad_names: 0,
            bad_pointers: 0,
            bad_data: 0,
            offsets: 0,
            values: Values { sum: 0 },
            again: 0,
            octets: 0,
            octet_values: Values { sum: 0 },
            no_replies: 0,
            malformed: 0,
            not_implemented: 0,
            queries: 0,
        }
    }

    fn take_offset(&mut self, at: usize) {
        let at = (at % 65536) as u32;
        self.offsets = self.offsets.wrapping_mul(31).wrapping_add(at);
    }

    fn take_fault(&mut self, fault: WireFault) -> Result<(), AllocError> {
        match fault {
            WireFault::Short => self.short = self.short.wrapping_add(1),
            WireFault::Trailing => self.trailing = self.trailing.wrapping_add(1),
            WireFault::BadName { at } => {
                self.bad_names = self.bad_names.wrapping_add(1);
                self.take_offset(at);
            }
            WireFault::BadPointer { at } => {
                self.bad_pointers = self.bad_pointers.wrapping_add(1);
                self.take_offset(at);
            }
            WireFault::BadData { at } => {
                self.bad_data = self.bad_data.wrapping_add(1);
                self.take_offset(at);
            }
            WireFault::NoMemory => return Err(AllocError),
        }
        Ok(())
    }

    /// Writes a message, and reads it back.
    fn take_again(&mut self, alloc: Global, message: &Message) -> Result<(), AllocError>
        requires { HasForms message.now }
    {
        let octets = match encode(alloc, message) {
            Ok(octets) => octets,
            Err(EncodeFault::NoMemory) => return Err(AllocError),
            Err(EncodeFault::TooLong) => return Ok(()),
        };
        self.octets = self.octets.wrapping_add((octets.len() % 65536) as u32);
        self.octet_values.take_each(&octets);
        match decode(alloc, &octets) {
            Ok(again) => {
                if again == *message {
                    self.again = self.again.wrapping_add(1);
                }
                Ok(())
            }
            Err(WireFault::NoMemory) => Err(AllocError),
            Err(_) => Ok(()),
        }
    }

    /// The request in the octets.
    fn take_asked(&mut self, alloc: Global, octets: &[u8]) -> Result<(), AllocError> {
        match read_question(alloc, octets)? {
            Asked::Drop => self.no_replies = self.no_replies.wrapping_add(1),
            Asked::Fault(Rcode::FORMAT_ERROR) => self.malformed = self.malformed.wrapping_add(1),
            Asked::Fault(_) => self.not_implemented = self.not_implemented.wrapping_add(1),
            Asked::Good(_) => self.queries = self.queries.wrapping_add(1),
        }
        Ok(())
    }

    fn take(&mut self, alloc: Global, octets: &[u8]) -> Result<(), AllocError> {
        self.take_asked(alloc, octets)?;
        match decode(alloc, octets) {
            Ok(message) => {
                self.messages = self.messages.wrapping_add(1);
                self.items = self.items.wrapping_add(items_in(&message));
                self.values.take_message(alloc, &message)?;
                self.take_again(alloc, &message)
            }
            Err(fault) => self.take_fault(fault),
        }
    }

    /// The tally of this many strings.
    pub fn drawn(alloc: Global, count: u32) -> Result<Tally, AllocError> {
        let mut tally = Tally::new();
        let mut rng = Pcg32::new(42, 54);
        for _ in 0..count {
            let octets = drawn(&mut rng, alloc)?;
            tally.take(alloc, &octets)?;
        }
        Ok(tally)
    }

    /// Each count after its name.
    pub fn counts(&self) -> [(&'static str, u32); 16] {
        [
            ("messages", self.messages),
            ("items", self.items),
            ("short", self.short),
            ("trailing", self.trailing),
            ("bad_names", self.bad_names),
            ("bad_pointers", self.bad_pointers),
            ("bad_data", self.bad_data),
            ("offsets", self.offsets),
            ("values", self.values.sum),
            ("written_again", self.again),
            ("octets", self.octets),
            ("octet_values", self.octet_values.sum),
            ("no_replies", self.no_replies),
            ("malformed", self.malformed),
            ("not_implemented", self.not_implemented),
            ("queries", self.queries),
        ]
    }
}
