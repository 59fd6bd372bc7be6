//! The table of calls by their words.

use crate::arguments::arguments_in;
use crate::denials::{Words, denial_in};
use crate::drawn::drawn_words;
use crate::fault::CallFault;
use crate::harvests::harvest_in;
use crate::lent::lent_octets;
use crate::messages::{
    encoding_of, fault_reply_to, is_read_again, reply_octets, reply_over_udp, verdict_on, words_of,
};
use crate::names::{
    is_below, labels_of, length_of, name_of_labels, name_text, order_of, parent_of, spelling_of,
};
use crate::texts::{addr_text, data_text, record_text, type_text};
use crate::verdicts::{query_octets, verdict_in};
use dns_text::next_word;
use std::alloc::Global;

/// The text that a call returns.
fn answer(alloc: Global, word: &[u8], arguments: &[Vec<u8>]) -> Result<Vec<u8>, CallFault> {
    match (word, arguments) {
        (b"name", [text]) => name_text(alloc, text),
        (b"from_labels", labels) => name_of_labels(alloc, labels),
        (b"labels", [text]) => labels_of(alloc, text),
        (b"length", [text]) => length_of(alloc, text),
        (b"spell", [text]) => spelling_of(alloc, text),
        (b"parent", [text]) => parent_of(alloc, text),
        (b"compare", [text, other]) => order_of(alloc, text, other),
        (b"below", [text, zone]) => is_below(alloc, text, zone),
        (b"record", [text]) => record_text(alloc, text),
        (b"data", [kind, text]) => data_text(alloc, kind, text),
        (b"type", [word]) => type_text(alloc, word),
        (b"addr", [text]) => addr_text(alloc, text),
        (b"decode", [octets]) => words_of(alloc, octets),
        (b"encode", [octets]) => encoding_of(alloc, octets),
        (b"again", [octets]) => is_read_again(alloc, octets),
        (b"ask", [octets]) => verdict_on(alloc, octets),
        (b"fault", [octets, rcode]) => fault_reply_to(alloc, octets, rcode),
        (b"cut", [query, octets]) => reply_over_udp(alloc, query, octets),
        (b"reply", [query, octets]) => reply_octets(alloc, query, octets),
        (b"denial", [octets, owner, kind, zone]) => {
            denial_in(alloc, octets, Words { owner, kind, zone })
        }
        (b"harvest", [octets, owner, kind, zone]) => {
            harvest_in(alloc, octets, Words { owner, kind, zone })
        }
        (b"lent", [query, owner, kind, ttl, data @ ..]) => {
            lent_octets(alloc, query, owner, kind, ttl, data)
        }
        (b"query", [id, owner, kind]) => query_octets(alloc, id, owner, kind),
        (b"judge", [octets, over, id, zone, owner, kind]) => {
            verdict_in(alloc, octets, (over, id), Words { owner, kind, zone })
        }
        (b"drawn", []) => drawn_words(alloc),
        _ => Err(CallFault::NoCall),
    }
}

/// The text that the call of a line returns, with its line end.
pub fn call(alloc: Global, line: &[u8]) -> Result<Vec<u8>, CallFault> {
    let (word, rest) = next_word(line).ok_or(CallFault::NoCall)?;
    let arguments = arguments_in(alloc, rest)?;
    let mut told = answer(alloc, word, arguments.as_slice())?;
    told.push(b'\n')?;
    Ok(told)
}
