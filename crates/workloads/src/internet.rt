//! An internet in memory. Below the root there are 24 top zones, and below those the zones of hosts, each with two to six servers. One
//! zone in three has servers in another zone, whose addresses its parent does not give.

ghost use Rattle.std.specs.Prelude.{◌<◌};

use crate::draws::{below, draws_of};
use crate::names::push_letters;
use dns_query::Over;
use dns_text::types::{A, AAAA, CNAME, NS, SOA};
use dns_text::{Addr, Ip};
use rand_core::Rng;
use rand_pcg::Pcg32;
use std::alloc::{AllocError, Global};

/// How many top zones there are.
pub const TOPS: u32 = 24;

/// What a server knows.
#[derive(Clone, Copy)]
pub struct Internet {
    seed: u32,
    zones: u32,
}

/// Where the last three labels of a query's name begin, from the right; 0 if there are fewer.
#[derive(Clone, Copy)]
struct Labels {
    top: usize,
    zone: usize,
    host: usize,
    /// Where the name ends, with its zero octet.
    end: usize,
}

/// The octet at a place; 0 if there is none.
fn octet_at(octets: &[u8], at: usize) -> u8 {
    octets.get(at).copied().unwrap_or(0)
}

/// The number of 16 bits at a place.
fn word_at(octets: &[u8], at: usize) -> u16 {
    u16::from_be_bytes([octet_at(octets, at), octet_at(octets, at.wrapping_add(1))])
}

/// The labels of the name of a query.
fn labels_of(query: &[u8]) -> Labels {
    let mut labels = Labels {
        top: 0,
        zone: 0,
        host: 0,
        end: 12,
    };
    for _ in 0..127 {
        let length = octet_at(query, labels.end);
        if length == 0 {
            break;
        }
        labels.host = labels.zone;
        labels.zone = labels.top;
        labels.top = labels.end;
        labels.end = labels.end.wrapping_add(usize::from(length)).wrapping_add(1);
    }
    labels.end = labels.end.wrapping_add(1);
    labels
}

/// The value of a letter of `push_letters`.
fn letter_value(letter: u8) -> u32 {
    match letter {
        b'a'..=b'z' => u32::from(letter - b'a'),
        b'2'..=b'7' => u32::from(letter - b'2') + 26,
        _ => 0,
    }
}

/// The number of a label: its first letter is a kind, and four letters follow.
fn number_of(query: &[u8], label: usize, kind: u8) -> Option<u32> {
    if label == 0 || octet_at(query, label) != 5 || octet_at(query, label.wrapping_add(1)) != kind {
        return None;
    }
    let mut number = 0u32;
    for place in 2..6usize {
        let value = letter_value(octet_at(query, label.wrapping_add(place)));
        number = number.wrapping_mul(32).wrapping_add(value);
    }
    Some(number)
}

/// A response that is written: the counts of its sections, and its octets.
#[derive(Drop)]
struct Response {
    out: Vec<u8>,
    answers: u16,
    authorities: u16,
    additionals: u16,
}

impl Response {
    /// The header and the question of the query, and no records.
    fn new(alloc: Global, query: &[u8], end: usize) -> Result<Response, AllocError> {
        let mut out = Vec::with_capacity(alloc, 512)?;
        out.extend_from_slice(query.get(..end.wrapping_add(4)).unwrap_or(query))?;
        Ok(Response {
            out,
            answers: 0,
            authorities: 0,
            additionals: 0,
        })
    }

    /// Writes a pointer to a place of the message, or the root's name for 0.
    fn pointer(&mut self, at: usize) -> Result<(), AllocError> {
        if at == 0 {
            return self.out.extend_from_slice(&[0]);
        }
        self.out
            .extend_from_slice(&[0xc0 | ((at >> 8) % 64) as u8, (at % 256) as u8])
    }

    /// Writes the type, class and TTL of a record, and the length of its data.
    fn middle(&mut self, kind: u16, ttl: u32, size: u16) -> Result<(), AllocError> {
        self.out.extend_from_slice(&kind.to_be_bytes())?;
        self.out.extend_from_slice(&[0, 1])?;
        self.out.extend_from_slice(&ttl.to_be_bytes())?;
        self.out.extend_from_slice(&size.to_be_bytes())
    }

    /// Writes an address of the name at a place.
    fn address(&mut self, owner: usize, ttl: u32, octets: &[u8]) -> Result<(), AllocError> {
        let kind = if octets.len() == 4 { A } else { AAAA };
        self.pointer(owner)?;
        self.middle(kind, ttl, (octets.len() % 65_536) as u16)?;
        self.out.extend_from_slice(octets)
    }

    /// Writes a server's name, `nXXXX` in a zone that is at a place of the message or spelled out, as the data of an NS record. Returns
    /// where it begins.
    fn server(
        &mut self,
        zone: usize,
        server: u32,
        target: usize,
        spelled: &[u8],
    ) -> Result<usize, AllocError> {
        self.pointer(zone)?;
        let more = if spelled.is_empty() { 2 } else { spelled.len() };
        self.middle(NS, 86_400, (more.wrapping_add(6) % 65_536) as u16)?;
        let at = self.out.len();
        self.out.extend_from_slice(b"\x05n")?;
        push_letters(&mut self.out, server)?;
        if spelled.is_empty() {
            self.pointer(target)?;
        } else {
            self.out.extend_from_slice(spelled)?;
        }
        Ok(at)
    }

    /// Writes an alias of the question's name.
    fn alias(&mut self, target: &[u8]) -> Result<(), AllocError> {
        self.pointer(12)?;
        self.middle(CNAME, 300, (target.len() % 65_536) as u16)?;
        self.out.extend_from_slice(target)?;
        self.answers = self.answers.wrapping_add(1);
        Ok(())
    }

    /// Writes the SOA record of the zone at a place.
    fn soa(&mut self, zone: usize) -> Result<(), AllocError> {
        let size = if zone == 0 { 22 } else { 24 };
        self.pointer(zone)?;
        self.middle(SOA, 300, size)?;
        self.pointer(zone)?;
        self.pointer(zone)?;
        for number in [7u32, 3_600, 900, 604_800, 300] {
            self.out.extend_from_slice(&number.to_be_bytes())?;
        }
        self.authorities = self.authorities.wrapping_add(1);
        Ok(())
    }

    /// Sets an octet.
    fn set(&mut self, at: usize, octet: u8) {
        if let Some(place) = self.out.get_mut(at) {
            *place = octet;
        }
    }

    /// Sets a number of 16 bits.
    fn set_word(&mut self, at: usize, number: u16) {
        let [high, low] = number.to_be_bytes();
        self.set(at, high);
        self.set(at.wrapping_add(1), low);
    }

    /// The octets, with the flags and the counts.
    fn finish(mut self, flags: u8, rcode: u8) -> Vec<u8> {
        let (answers, authorities, additionals) = (
            self.answers,
            self.authorities,
            self.additionals,
        );
        self.set(2, flags);
        self.set(3, rcode);
        self.set_word(6, answers);
        self.set_word(8, authorities);
        self.set_word(10, additionals);
        let Response { out, .. } = self;
        out
    }
}

/// The flags of a response: QR and AA; QR alone; QR, AA and TC.
const AUTHORITATIVE: u8 = 0x84;

const REFERRING: u8 = 0x80;

const TRUNCATED: u8 = 0x86;

/// The labels of a zone of hosts, as octets.
fn spelled_zone(alloc: Global, zone: u32) -> Result<Vec<u8>, AllocError> {
    let mut out = Vec::with_capacity(alloc, 32)?;
    push_zone(&mut out, zone)?;
    out.extend_from_slice(b"\0")?;
    Ok(out)
}

/// Writes the labels of a zone of hosts, each preceded by its length.
pub fn push_zone(out: &mut Vec<u8>, zone: u32) -> Result<(), AllocError> {
    out.extend_from_slice(b"\x05z")?;
    push_letters(out, zone)?;
    out.extend_from_slice(b"\x05t")?;
    push_letters(out, zone % TOPS)
}

/// Writes the first label of a host, preceded by its length.
pub fn push_host(out: &mut Vec<u8>, host: u32) -> Result<(), AllocError> {
    out.extend_from_slice(b"\x05h")?;
    push_letters(out, host)
}

/// The address of a server of a zone.
fn server_of(kind: u8, zone: u32, server: u32) -> [u8; 4] {
    let [_, _, high, low] = zone.to_be_bytes();
    [kind, high, low, (server % 256) as u8]
}

/// How many servers a zone has.
fn servers(zone: u32) -> u32 {
    2 + zone % 5
}

/// The addresses of the root's servers.
pub fn hints(alloc: Global) -> anyhow::Result<Vec<Addr>> {
    let mut servers = Vec::new(alloc);
    for server in 1..14u32 {
        servers.push(Addr {
            ip: Ip::V4(server_of(198, 0, server)),
            port: 53,
        })?;
    }
    Ok(servers)
}

impl Internet {
    /// So many zones of hosts.
    pub fn new(seed: u32, zones: u32) -> Internet {
        Internet { seed, zones }
    }

    /// A referral to the zone at a place, whose servers lie in it, with their addresses.
    fn refer(
        &self,
        mut response: Response,
        at: usize,
        kind: u8,
        zone: u32,
    ) -> Result<Vec<u8>, AllocError> {
        let count = servers(zone);
        let mut names = [0usize; 8];
        for server in 0..count {
            let name = response.server(at, server, at, b"")?;
            if let Some(place) = names.get_mut(server as usize) {
                *place = name;
            }
            response.authorities = response.authorities.wrapping_add(1);
        }
        for server in 0..count {
            let name = names.get(server as usize).copied().unwrap_or(0);
            response.address(name, 86_400, &server_of(kind, zone, server))?;
            response.additionals = response.additionals.wrapping_add(1);
        }
        Ok(response.finish(REFERRING, 0))
    }

    /// A referral to the zone at a place, whose servers lie in another zone, without their addresses.
    fn refer_away(
        &self,
        alloc: Global,
        mut response: Response,
        at: usize,
        zone: u32,
    ) -> Result<Vec<u8>, AllocError> {
        let other = if zone.wrapping_add(1) < self.zones {
            zone.wrapping_add(1)
        } else {
            1
        };
        let spelled = spelled_zone(alloc, other)?;
        for server in 0..servers(other) {
            response.server(at, server, 0, spelled.as_slice())?;
            response.authorities = response.authorities.wrapping_add(1);
        }
        Ok(response.finish(REFERRING, 0))
    }

    /// That there is no such name.
    fn deny(&self, mut response: Response, zone: usize) -> Result<Vec<u8>, AllocError> {
        response.soa(zone)?;
        Ok(response.finish(AUTHORITATIVE, 3))
    }

    /// That the name has no data of the type.
    fn have_none(&self, mut response: Response, zone: usize) -> Result<Vec<u8>, AllocError> {
        response.soa(zone)?;
        Ok(response.finish(AUTHORITATIVE, 0))
    }

    /// A server's address, if that is asked for.
    fn tell_server(
        &self,
        mut response: Response,
        zone: usize,
        kind: u16,
        address: [u8; 4],
    ) -> Result<Vec<u8>, AllocError> {
        if kind != A {
            return self.have_none(response, zone);
        }
        response.address(12, 86_400, &address)?;
        response.answers = 1;
        Ok(response.finish(AUTHORITATIVE, 0))
    }

    /// What a host has: nothing in one of three, an alias in one of fifteen, else addresses, one of eight of IPv6 too.
    fn tell_host(
        &self,
        alloc: Global,
        mut response: Response,
        labels: &Labels,
        kind: u16,
        over: Over,
        number: u32,
    ) -> Result<Vec<u8>, AllocError> {
        let mut rng = draws_of(self.seed, 6, number);
        let drawn = below(&mut rng, 30);
        if drawn < 10 {
            return self.deny(response, labels.zone);
        }
        if drawn < 12 {
            let mut target = Vec::with_capacity(alloc, 32)?;
            push_host(&mut target, rng.next_u32() % 1_000)?;
            push_zone(&mut target, rng.next_u32() % self.zones.max(1))?;
            target.extend_from_slice(b"\0")?;
            response.alias(target.as_slice())?;
            return Ok(response.finish(AUTHORITATIVE, 0));
        }
        if kind == AAAA && drawn % 8 == 0 {
            let [a, b, c, d] = rng.next_u32().to_be_bytes();
            let octets = [0x20, 1, 0xd, 0xb8, 0, 0, 0, 0, 0, 0, 0, 0, a, b, c, d];
            response.address(12, 300, &octets)?;
            response.answers = 1;
            return Ok(response.finish(AUTHORITATIVE, 0));
        }
        if kind != A {
            return self.have_none(response, labels.zone);
        }
        self.tell_addresses(response, over, drawn, &mut rng)
    }

    /// The addresses of a host: one to four, or thirty, which it does not tell over UDP.
    fn tell_addresses(
        &self,
        mut response: Response,
        over: Over,
        drawn: u32,
        rng: &mut Pcg32,
    ) -> Result<Vec<u8>, AllocError> {
        if drawn == 13 && over == Over::Udp {
            return Ok(response.finish(TRUNCATED, 0));
        }
        let count = if drawn == 13 { 30 } else { 1 + drawn % 4 };
        for _ in 0..count {
            response.address(12, 300, &rng.next_u32().to_be_bytes())?;
            response.answers = response.answers.wrapping_add(1);
        }
        Ok(response.finish(AUTHORITATIVE, 0))
    }

    /// The response of a server of a zone of hosts.
    fn from_zone(
        &self,
        alloc: Global,
        response: Response,
        query: &[u8],
        labels: &Labels,
        over: Over,
    ) -> Result<Vec<u8>, AllocError> {
        let kind = word_at(query, labels.end);
        let Some(zone) = number_of(query, labels.zone, b'z') else {
            return self.deny(response, labels.top);
        };
        if let Some(server) = number_of(query, labels.host, b'n') {
            return self.tell_server(response, labels.zone, kind, server_of(10, zone, server));
        }
        match number_of(query, labels.host, b'h') {
            Some(host) => {
                let number = host.wrapping_mul(4_096).wrapping_add(zone);
                self.tell_host(alloc, response, labels, kind, over, number)
            }
            None => self.have_none(response, labels.zone),
        }
    }

    /// The response of a server of a top zone.
    fn from_top(
        &self,
        alloc: Global,
        response: Response,
        query: &[u8],
        labels: &Labels,
    ) -> Result<Vec<u8>, AllocError> {
        let top = number_of(query, labels.top, b't').unwrap_or(0);
        if let Some(server) = number_of(query, labels.zone, b'n') {
            let kind = word_at(query, labels.end);
            return self.tell_server(response, labels.top, kind, server_of(11, top, server));
        }
        match number_of(query, labels.zone, b'z') {
            Some(zone) if zone < self.zones => {
                if zone % 3 == 0 {
                    self.refer_away(alloc, response, labels.zone, zone)
                } else {
                    self.refer(response, labels.zone, 10, zone)
                }
            }
            _ => self.deny(response, labels.top),
        }
    }

    /// The response of a server to a query.
    pub fn response(
        &self,
        alloc: Global,
        server: &Addr,
        over: Over,
        query: &[u8],
    ) -> Result<Vec<u8>, AllocError> {
        let labels = labels_of(query);
        let response = Response::new(alloc, query, labels.end)?;
        let kind = match server.ip {
            Ip::V4(octets) => octets[0],
            Ip::V6(_) => 0,
        };
        match kind {
            198 => match number_of(query, labels.top, b't') {
                Some(top) => self.refer(response, labels.top, 11, top),
                None => self.deny(response, 0),
            },
            11 => self.from_top(alloc, response, query, &labels),
            _ => self.from_zone(alloc, response, query, &labels, over),
        }
    }
}
