//! The query for a question.

ghost use Rattle.std.specs.Prelude.{◌≡◌, IfOk};
ghost use Rattle.dns_wire.specs.WellFormed.{HasForms};
ghost use Rattle.dns_query.specs.Query.{query_head, query_message, IsQuery};

use dns_name::NoMemory;
use dns_text::{Items, Octets, Question};
use dns_wire::{CLASS_IN, Classed, Head, Message, Opcode, Rcode, Reserved, encode};
use std::alloc::{AllocError, Global};

/// The head of a query with this identifier.
fn query_head(id: u16) -> Head
    ensures { result ≡ query_head id }
{
    Head {
        id,
        qr: false,
        opcode: Opcode::QUERY,
        aa: false,
        tc: false,
        rd: false,
        ra: false,
        z: Reserved::ZERO,
        rcode: Rcode::NO_ERROR,
    }
}

/// The query for a question as a message.
fn query_message(alloc: Global, id: u16, question: &Question) -> Result<Message, NoMemory>
    ensures { IfOk result (λ v. v ≡ query_message id question.now) }
{
    let kind = question.kind;
    let item = Question {
        owner: question.owner.clone()?,
        kind,
    };
    let mut questions = Vec::new(alloc);
    questions.push(Classed {
        item,
        class: CLASS_IN,
    })?;
    Ok(Message {
        head: query_head(id),
        questions: Items::new(questions),
        answer: Items::new(Vec::new(alloc)),
        authority: Items::new(Vec::new(alloc)),
        additional: Items::new(Vec::new(alloc)),
    })
}

/// The query for a question as octets: RD is 0, one question of class IN, and nothing else (RFC 1034, section 5.3.3, step 3).
pub fn query(alloc: Global, id: u16, question: &Question) -> Result<Octets, NoMemory>
    ensures { IfOk result (λ octets. IsQuery octets id question.now) }
{
    let message = query_message(alloc, id, question)?;
    match encode(alloc, &message) {
        Ok(octets) => Ok(Octets::new(octets)),
        // One question isn't too long, so only memory can have run out.
        Err(_) => Err(AllocError),
    }
}
