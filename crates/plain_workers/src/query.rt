//! A query, from its octets to its reply.

ghost use Rattle.std.specs.Prelude.{◌≡◌, ◌≤◌, length, IfOk, IfSome, OnErr};
ghost use Rattle.dns_wire.specs.declared.server.query.Asked.TheVariants.{Good};
ghost use Rattle.dns_wire.specs.Server.Asking.{AsksFor};
ghost use Rattle.replies.specs.Reply.{most_octets};
ghost use Rattle.plain_workers.specs.States.{QueryReplied, QueryUnserved};

use crate::exchange::Exchange;
use crate::run::run_task;
use crate::tools::Tools;
use clock::Clock;
use dns_name::NoMemory;
use dns_query::Over;
use dns_text::Question;
use dns_wire::{Asked, Query, Rcode, read_question};
use history::Desk;
use rand_core::Rng;
use replies::{is_dear, wants_reply, write_answer, write_fault};
use std::alloc::Global;

/// Serves a query that asks for an answer: resolves its question, and writes the reply.
fn answer_query<D: Desk, X: Exchange, C: Clock, R: Rng>(
    alloc: Global,
    desk: &mut D,
    tools: &mut Tools<X, C, R>,
    over: Over,
    octets: &[u8],
    query: &Query,
) -> Result<Option<Vec<u8>>, NoMemory>
    requires { AsksFor octets.now (Good query.now) }
    ensures port { tools.new.server_port ≡ tools.old.server_port }
    ensures short { IfOk result (λ reply. IfSome reply (λ out. length out.items ≤ most_octets over)) }
    ensures serves { QueryReplied D.calls X.asks C.ticks R.stream over octets.now result desk.old tools.old desk.new tools.new }
    ensures unserved { OnErr result (QueryUnserved D.calls X.asks C.ticks R.stream octets.now desk.old tools.old desk.new tools.new) }
{
    let question = query.question.clone()?;
    let answer = run_task(alloc, desk, tools, question)?;
    Ok(write_answer(alloc, Vec::new(alloc), over, octets, query, &answer)?)
}

/// Serves the query in these octets: returns its reply, or None if it gets none. Octets that are no well-formed query get a
/// fault, a header with the RCODE alone. So does a query that would take too long to read. It fails only if no memory is left.
pub fn serve_query<D: Desk, X: Exchange, C: Clock, R: Rng>(
    alloc: Global,
    desk: &mut D,
    tools: &mut Tools<X, C, R>,
    over: Over,
    octets: &[u8],
) -> Result<Option<Vec<u8>>, NoMemory>
    ensures port { tools.new.server_port ≡ tools.old.server_port }
    ensures short { IfOk result (λ reply. IfSome reply (λ out. length out.items ≤ most_octets over)) }
    ensures serves { QueryReplied D.calls X.asks C.ticks R.stream over octets.now result desk.old tools.old desk.new tools.new }
    ensures unserved { OnErr result (QueryUnserved D.calls X.asks C.ticks R.stream octets.now desk.old tools.old desk.new tools.new) }
{
    if is_dear(octets) && wants_reply(octets) {
        return Ok(Some(write_fault(alloc, octets, Rcode::SERVER_FAILURE)?));
    }
    match read_question(alloc, octets)? {
        Asked::Drop => Ok(None),
        Asked::Fault(rcode) => Ok(Some(write_fault(alloc, octets, rcode)?)),
        Asked::Good(query) => answer_query(alloc, desk, tools, over, octets, &query),
    }
}
