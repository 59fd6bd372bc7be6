//! Questions.

ghost use Rattle.std.specs.Prelude.{◌≤◌, length, IfOk};
ghost use Rattle.dns_wire.specs.Read.Question.{question_read};
ghost use Rattle.dns_wire.specs.Fault.{Gives};

use crate::fault::WireFault;
use crate::message::Classed;
use crate::read::chains::Wire;
use crate::read::name::name_at;
use crate::read::number::u16_at;
use crate::read::section::SectionItem;
use dns_text::Question;
use std::alloc::Global;

/// A question with its class, and the place after it.
#[tactic(auto, unfolding(crate::specs::Read::Question::question_read))]
fn question_at(
    alloc: Global,
    message: &Wire<'_>,
    at: usize,
) -> Result<(Classed<Question>, usize), WireFault>
    requires { at ≤ length message.now }
    ensures exact { Gives result (question_read message.now at) }
    ensures within { IfOk result (λ r. r.1 ≤ length message.now) }
{
    let (owner, at) = name_at(alloc, message, at)?;
    let octets = message.as_slice();
    if octets.len() < at + 4 {
        return Err(WireFault::Short);
    }
    let kind = u16_at(octets, at);
    let class = u16_at(octets, at + 2);
    let item = Question { owner, kind };
    Ok((Classed { item, class }, at + 4))
}

impl SectionItem for Classed<Question> {
    ghost read = { question_read };

    fn read_at(
        alloc: Global,
        message: &Wire<'_>,
        at: usize,
    ) -> Result<(Classed<Question>, usize), WireFault> {
        question_at(alloc, message, at)
    }
}
