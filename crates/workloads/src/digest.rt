//! A number that depends on all results, and on their order.

use command_text::reply_text;
use dns_name::Name;
use dns_text::{Addr, Data, Ip, Record, Strings};
use history::{Look, Reason, Reply};
use ranked::{Body, Held, Scope};
use std::alloc::{AllocError, Global};

/// A sum over numbers and octets, in the way of FNV-1a, by words of eight octets.
#[derive(Clone, Copy)]
pub struct Digest {
    sum: u64,
}

impl Digest {
    /// The digest of nothing.
    pub fn new() -> Digest {
        Digest {
            sum: 0xcbf2_9ce4_8422_2325,
        }
    }

    /// Takes a number in.
    pub fn number(&mut self, number: u64) {
        self.sum = (self.sum ^ number)
            .wrapping_mul(0x0000_0100_0000_01b3)
            .rotate_left(29);
    }

    /// Takes octets in, and how many there are.
    pub fn octets(&mut self, octets: &[u8]) {
        self.number(octets.len() as u64);
        for chunk in octets.chunks(8) {
            match chunk.first_chunk::<8>() {
                Some(word) => self.number(u64::from_le_bytes(*word)),
                None => self.few(chunk),
            }
        }
    }

    /// Takes octets in, one by one.
    fn few(&mut self, octets: &[u8]) {
        for octet in octets {
            self.number(u64::from(*octet));
        }
    }

    /// Takes a server's address in.
    pub fn addr(&mut self, addr: &Addr) {
        match &addr.ip {
            Ip::V4(octets) => self.octets(octets),
            Ip::V6(octets) => self.octets(octets),
        }
        self.number(u64::from(addr.port));
    }

    /// Takes the reply to an event in. What a lookup sees goes in as its text.
    pub fn reply(&mut self, alloc: Global, reply: &Reply) -> Result<(), AllocError> {
        self.number(number_of(reply));
        match reply {
            Reply::Seen(_) => self.text(alloc, reply),
            _ => Ok(()),
        }
    }

    /// Takes the text of a reply in.
    fn text(&mut self, alloc: Global, reply: &Reply) -> Result<(), AllocError> {
        let text = reply_text(alloc, reply)?;
        self.octets(text.as_slice());
        drop(text);
        Ok(())
    }

    /// Takes in what a lookup shows. A local answer goes in as text.
    pub fn look(&mut self, alloc: Global, look: &Look<'_>) -> Result<(), AllocError> {
        match look {
            Look::Unknown => {
                self.number(1);
                Ok(())
            }
            Look::Held(held) => {
                self.held(held);
                Ok(())
            }
            Look::Local(_) => {
                let reply = Reply::Seen(look.to_seen(alloc)?);
                let told = self.text(alloc, &reply);
                drop(reply);
                told
            }
        }
    }

    /// Takes a find in: its rank, the seconds that it has left, the types that it is about, and its data or SOA record.
    fn held(&mut self, held: &Held<'_>) {
        self.number(u64::from(held.rank.level()).wrapping_add(1));
        self.number(u64::from(held.left));
        let find = held.body.find();
        self.number(match find.scope {
            Scope::One(kind) => u64::from(kind),
            Scope::Whole => 65_536,
        });
        match &find.body {
            Body::Set(set) => self.set(set.as_slice()),
            Body::NoData(soa) => self.record(soa.get()),
            Body::NoName(soa) => self.record(soa.get()),
        }
    }

    /// Takes data in, and how many there are.
    fn set(&mut self, set: &[Data]) {
        self.number(set.len() as u64);
        for one in set {
            self.one(one);
        }
    }

    /// Takes a record in.
    fn record(&mut self, record: &Record) {
        self.octets(record.owner.octets());
        self.number(u64::from(record.kind));
        self.number(u64::from(record.ttl.seconds()));
        self.one(&record.body);
    }

    /// Takes one datum in.
    fn one(&mut self, one: &Data) {
        match one {
            Data::A(octets) => self.octets(octets),
            Data::Aaaa(octets) => self.octets(octets),
            Data::One(name) => self.octets(name.octets()),
            Data::Mx {
                preference,
                exchange,
            } => self.named(exchange, &[u32::from(*preference)]),
            Data::Soa {
                primary,
                mailbox,
                serial,
                refresh,
                retry,
                expire,
                minimum,
            } => {
                self.octets(primary.octets());
                self.named(mailbox, &[*serial, *refresh, *retry, *expire, *minimum]);
            }
            Data::Txt(strings) => self.strings(strings),
            Data::Srv {
                priority,
                weight,
                port,
                target,
            } => self.named(
                target,
                &[u32::from(*priority), u32::from(*weight), u32::from(*port)],
            ),
            Data::Opaque(octets) => self.octets(octets.as_slice()),
        }
    }

    /// Takes a name in, and numbers beside it.
    fn named(&mut self, name: &Name, numbers: &[u32]) {
        self.octets(name.octets());
        for number in numbers {
            self.number(u64::from(*number));
        }
    }

    /// Takes strings in, and how many there are.
    fn strings(&mut self, strings: &Strings) {
        let mut count = 0u64;
        for _string in strings.iter() {
            count = count.saturating_add(1);
        }
        self.number(count);
        for string in strings.iter() {
            self.octets(string);
        }
    }

    /// The sum.
    pub fn sum(&self) -> u64 {
        self.sum
    }
}

/// A number for a reply, which differs from that of any other but of another lookup.
fn number_of(reply: &Reply) -> u64 {
    match reply {
        Reply::Taken => 1,
        Reply::Outranked => 2,
        Reply::Seen(_) => 3,
        Reply::Swept => 4,
        Reply::Forgotten => 5,
        Reply::NothingToUndo => 7,
        Reply::NothingToRedo => 8,
        Reply::Refused(Reason::BelowRedirect) => 12,
        Reply::Refused(Reason::DataBelow) => 16,
        Reply::Refused(Reason::CnameClash) => 20,
        Reply::Refused(Reason::TooMany) => 24,
        Reply::NotKept => 28,
        Reply::Buried { ticket } => ticket.wrapping_mul(4).wrapping_add(32),
        Reply::Done { ticket } => ticket.wrapping_mul(4).wrapping_add(9),
        Reply::Undone { ticket } => ticket.wrapping_mul(4).wrapping_add(10),
        Reply::Redone { ticket } => ticket.wrapping_mul(4).wrapping_add(11),
    }
}
