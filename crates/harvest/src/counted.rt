//! The records of a message that count, and how far each is trusted.

ghost use Rattle.std.specs.Prelude.{◌≡◌, ◌++◌, IfOk, OnOk};
ghost use Rattle.std.specs.List.{AllByRecursion};
ghost use Rattle.dns_wire.specs.WellFormed.{HasForms, HasItsForm};
ghost use Rattle.harvest.specs.Counted.{counts, answer_rank, authority_rank, ranked_in, ranked_of};

use dns_name::{Name, NoMemory};
use dns_text::{Question, Record, is_excluded};
use dns_wire::{CLASS_IN, Classed, Message};
use ranked::Rank;
use std::alloc::Global;
use std::marker::Model;

/// A record that counts, with its rank.
#[derive(Drop)]
pub(crate) struct Counted<'a> {
    pub(crate) rank: Rank,
    pub(crate) said: &'a Record,
}

impl<'a> Model for Counted<'a> {
    ghost use Rattle.dns_text.specs.Data.{HasForm};
    ghost use Rattle.harvest.specs.Counted.{Ranked};

    ghost Value = { Ranked };

    ghost view = { λ r. record { rank = r.rank; said = r.said.now } };

    ghost invariant = { λ r. HasForm r.said.now.kind r.said.now.body };
}

/// Whether a record counts.
fn counts(zone: &Name, r: &Classed<Record>) -> bool
    ensures { result ≡ counts zone.now r.now }
{
    r.class == CLASS_IN && !is_excluded(r.item.kind) && r.item.owner.at_or_below(zone)
}

/// The rank of a record of the answer section.
fn answer_rank(aa: bool, asked: &Name, r: &Record) -> Rank
    ensures { result ≡ answer_rank aa asked.now r.now }
{
    if aa && r.owner == *asked {
        Rank::AuthoritativeAnswer
    } else {
        Rank::Answer
    }
}

/// The rank of the records of the authority section.
fn authority_rank(aa: bool) -> Rank
    ensures { result ≡ authority_rank aa }
{
    if aa {
        Rank::Authority
    } else {
        Rank::Additional
    }
}

/// Adds the records of the answer section that count.
fn count_answer<'a>(
    out: &mut Vec<Counted<'a>>,
    zone: &Name,
    aa: bool,
    asked: &Name,
    section: &'a [Classed<Record>],
) -> Result<(), NoMemory>
    requires { AllByRecursion HasItsForm section.now }
    ensures { OnOk result (out.new.items ≡ out.old.items ++ ranked_in zone.now (answer_rank aa asked.now) section.now) }
{
    for r in section {
        if counts(zone, r) {
            out.push(Counted {
                rank: answer_rank(aa, asked, &r.item),
                said: &r.item,
            })?;
        }
    }
    Ok(())
}

/// Adds the records of another section that count, all of one rank.
fn count_section<'a>(
    out: &mut Vec<Counted<'a>>,
    zone: &Name,
    rank: Rank,
    section: &'a [Classed<Record>],
) -> Result<(), NoMemory>
    requires { AllByRecursion HasItsForm section.now }
    ensures { OnOk result (out.new.items ≡ out.old.items ++ ranked_in zone.now (λ r. rank) section.now) }
{
    for r in section {
        if counts(zone, r) {
            out.push(Counted {
                rank,
                said: &r.item,
            })?;
        }
    }
    Ok(())
}

/// The records of a message that count, each with its rank.
pub(crate) fn records_of<'a>(
    alloc: Global,
    message: &'a Message,
    question: &Question,
    zone: &Name,
) -> Result<Vec<Counted<'a>>, NoMemory>
    requires { HasForms message.now }
    ensures { IfOk result (λ records. records.items ≡ ranked_of message.now question.now zone.now) }
{
    let aa = message.head.aa;
    let mut out = Vec::new(alloc);
    count_answer(
        &mut out,
        zone,
        aa,
        &question.owner,
        message.answer.as_slice(),
    )?;
    count_section(
        &mut out,
        zone,
        authority_rank(aa),
        message.authority.as_slice(),
    )?;
    count_section(
        &mut out,
        zone,
        Rank::Additional,
        message.additional.as_slice(),
    )?;
    Ok(out)
}
