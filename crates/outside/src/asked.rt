//! The question of a query.

ghost use Rattle.std.specs.Prelude.{IfSome};
ghost use Rattle.outside.specs.Servers.{IsQuestionAt};

use crate::server::{QuestionAt, Server};
use dns_wire::{Asked, read_question};
use std::alloc::Global;

/// The question of a query to a server. `None` if there is no memory to read it.
pub(crate) fn asked_at(alloc: Global, server: Server, query: &[u8]) -> Option<QuestionAt>
    ensures { IfSome result (IsQuestionAt server query.now) }
{
    let Ok(asked) = read_question(alloc, query) else {
        return None;
    };
    let Asked::Good(asked) = asked else {
        return None;
    };
    let Ok(owner) = asked.question.owner.clone() else {
        return None;
    };
    Some(QuestionAt {
        server,
        owner,
        kind: asked.question.kind,
    })
}
