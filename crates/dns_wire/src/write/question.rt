//! Questions as octets, each after what `out` holds.

ghost use Rattle.std.specs.Prelude.{◌≡◌, ◌++◌, ◌<◌, ◌+◌, OnOk};
ghost use Rattle.std.specs.List.{flat_map, AllByRecursion};
ghost use Rattle.dns_wire.specs.WellFormed.{IsQuestion};
ghost use Rattle.dns_wire.specs.Write.Question.{question_octets};

use crate::message::Classed;
use crate::write::name::push_name;
use crate::write::number::push_u16;
use dns_text::Question;
use std::alloc::AllocError;

fn push_question(out: &mut Vec<u8>, question: &Classed<Question>) -> Result<(), AllocError>
    ensures octets { OnOk result (out.new.items ≡ out.old.items ++ question_octets question.now) }
    ensures fits { OnOk result (IsQuestion question.now) }
{
    push_name(out, &question.item.owner)?;
    push_u16(out, question.item.kind)?;
    push_u16(out, question.class)
}

pub(crate) fn push_questions(
    out: &mut Vec<u8>,
    questions: &[Classed<Question>],
) -> Result<(), AllocError>
    ensures octets { OnOk result (out.new.items ≡ out.old.items ++ flat_map question_octets questions.now) }
    ensures fits { OnOk result (AllByRecursion IsQuestion questions.now) }
{
    for question in questions {
        push_question(out, question)?;
    }
    Ok(())
}
