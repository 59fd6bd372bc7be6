//! Responses to a query, from their octets.

ghost use Rattle.std.specs.Prelude.{◌↔◌, IfOk, IsTrue, MatchOption};
ghost use Rattle.dns_wire.specs.Read.Decoding.{IsUnspelled};
ghost use Rattle.dns_query.specs.Response.{IsCut, IsRead, IsWhole, Meets};

use crate::over::Over;
use dns_name::NoMemory;
use dns_text::{Question, equality_law};
use dns_wire::{CLASS_IN, Message, Rcode, WireFault, decode};
use std::alloc::{AllocError, Global};

/// The message that octets are, or none.
pub(crate) fn read(alloc: Global, octets: &[u8]) -> Result<Option<Message>, NoMemory>
    ensures { IfOk result (λ found. MatchOption found (IsUnspelled octets.now) (IsRead octets.now)) }
{
    match decode(alloc, octets) {
        Ok(message) => Ok(Some(message)),
        Err(fault) => match fault {
            WireFault::NoMemory => Err(AllocError),
            _ => Ok(None),
        },
    }
}

/// Whether a message is a response to the query of a question.
pub(crate) fn meets(id: u16, question: &Question, message: &Message) -> bool
    ensures { IsTrue result ↔ Meets id question.now message.now }
{
    equality_law();
    if !message.head.qr || !message.head.opcode.is_query() || message.head.id != id {
        return false;
    }
    let questions = message.questions.as_slice();
    questions.len() == 1 && questions[0].class == CLASS_IN && questions[0].item == *question
}

/// Whether a response was not truncated, and its RCODE is no error or no such name.
pub(crate) fn is_whole(message: &Message) -> bool
    ensures { IsTrue result ↔ IsWhole message.now }
{
    !message.head.tc
        && (message.head.rcode == Rcode::NO_ERROR || message.head.rcode == Rcode::NAME_ERROR)
}

/// Whether a response was truncated to fit a datagram.
pub(crate) fn is_cut(over: Over, message: &Message) -> bool
    ensures { IsTrue result ↔ IsCut over message.now }
{
    message.head.tc && over == Over::Udp
}
