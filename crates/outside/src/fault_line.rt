//! Lines of the log about a question: an exchange that failed, with its cause and server, and a reply that no message holds.

use dns_text::{Addr, push_type};
use dns_wire::{Asked, read_question};
use log::{Log, warn};
use std::alloc::Global;
use system::{DEVICE_FAULT, place_of};

/// The cause of an exchange with a server that is withheld.
pub const WITHHELD: &str = "withheld";

/// The question of a query, as text. None if there is no memory for it.
fn question_text(alloc: Global, query: &[u8]) -> Option<String> {
    let Ok(Asked::Good(query)) = read_question(alloc, query) else {
        return None;
    };
    let mut text = query.question.owner.to_text(alloc).ok()?;
    text.push(b' ').ok()?;
    push_type(query.question.kind, &mut text).ok()?;
    String::from_utf8(text).ok()
}

/// Logs an exchange that failed. The question is left out if there is no memory for its text.
pub fn log_exchange<R: Log>(
    rt: &R,
    alloc: Global,
    cause: &'static str,
    server: &Addr,
    query: &[u8],
) {
    let place = place_of(server);
    let (ip, port) = (place.ip(), place.port());
    match question_text(alloc, query) {
        Some(question) => {
            warn!(rt; "{DEVICE_FAULT}: {cause}, server {ip}@{port}, question {question}");
        }
        None => warn!(rt; "{DEVICE_FAULT}: {cause}, server {ip}@{port}"),
    }
}

/// Logs that no message holds the reply to a query, so that its client gets SERVFAIL.
pub fn log_too_long<R: Log>(rt: &R, alloc: Global, query: &[u8]) {
    match question_text(alloc, query) {
        Some(set) => warn!(rt; "resolver: no message holds the reply, set {set}"),
        None => warn!(rt; "resolver: no message holds the reply"),
    }
}
