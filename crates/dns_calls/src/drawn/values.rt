//! A sum over the contents of messages.

use dns_name::Name;
use dns_text::{Data, Question, Record, push_data};
use dns_wire::{Classed, Message};
use std::alloc::{AllocError, Global};

/// A running sum, which depends on the order of the numbers taken in.
#[derive(Clone, Copy)]
pub struct Values {
    pub sum: u32,
}

impl Values {
    fn take(&mut self, number: u32) {
        self.sum = self.sum.wrapping_mul(31).wrapping_add(number);
    }

    /// Takes in each octet.
    pub fn take_each(&mut self, octets: &[u8]) {
        for octet in octets {
            self.take(u32::from(*octet));
        }
    }

    fn take_octets(&mut self, octets: &[u8]) {
        self.take_each(octets);
        self.take(256);
    }

    /// Each label after its length, the leftmost first.
    fn take_name(&mut self, name: &Name) {
        for label in name.labels() {
            self.take((label.len() % 256) as u32);
            for octet in label {
                self.take(u32::from(*octet));
            }
        }
        self.take(256);
    }

    fn take_question(&mut self, question: &Classed<Question>) {
        self.take_name(&question.item.owner);
        self.take(u32::from(question.item.kind));
        self.take(u32::from(question.class));
    }

    /// Data as its text.
    fn take_data(&mut self, alloc: Global, body: &Data) -> Result<(), AllocError> {
        let mut text = Vec::new(alloc);
        push_data(body, &mut text)?;
        self.take_octets(&text);
        Ok(())
    }

    fn take_records(
        &mut self,
        alloc: Global,
        records: &[Classed<Record>],
    ) -> Result<(), AllocError> {
        for record in records {
            self.take_name(&record.item.owner);
            self.take(u32::from(record.item.kind));
            self.take(u32::from(record.class));
            self.take(record.item.ttl.seconds());
            self.take_data(alloc, &record.item.body)?;
        }
        Ok(())
    }

    fn take_head(&mut self, message: &Message) {
        let head = &message.head;
        self.take(u32::from(head.id));
        for flag in [head.qr, head.aa, head.tc, head.rd, head.ra] {
            self.take(u32::from(flag));
        }
        self.take(u32::from(head.opcode.number()));
        self.take(u32::from(head.z.number()));
        self.take(u32::from(head.rcode.number()));
    }

    /// Takes in the whole contents of a message. If memory runs out, the front of it has been taken in.
    pub fn take_message(&mut self, alloc: Global, message: &Message) -> Result<(), AllocError> {
        self.take_head(message);
        for question in message.questions.as_slice() {
            self.take_question(question);
        }
        self.take_records(alloc, message.answer.as_slice())?;
        self.take_records(alloc, message.authority.as_slice())?;
        self.take_records(alloc, message.additional.as_slice())
    }
}
