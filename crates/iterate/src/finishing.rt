//! Endings of a question.

ghost use Rattle.std.specs.Prelude.{◌≡◌, [], true, false, Some, None, IfOk};
ghost use Rattle.std.specs.Option.{option_map};
ghost use Rattle.dns_text.specs.declared.record.Question.{Question};
ghost use Rattle.history.specs.declared.event.Seen.TheVariants.{Held as SeenHeld, Local as SeenLocal};
ghost use Rattle.iterate.specs.declared.answer.Soa.TheVariants.{Find as FindSoa, Local as LocalSoa};
ghost use Rattle.iterate.specs.Going.{EndsWithDenial, EndsWithSet};
ghost use Rattle.iterate.specs.Looked.{EndsSo};
ghost use Rattle.iterate.specs.Narrowed.{EndsOrBars};
ghost use Rattle.iterate.specs.Shown.{IsShownFor, IsLocalFor};
ghost use Rattle.iterate.specs.Told.{soa_whole};

use crate::answer::{Answer, AnswerSet, Soa};
use crate::lookup_reply::{copy_set, held_set};
use crate::path::Path;
use crate::phase::{Advance, Phase};
use crate::want::Want;
use dns_name::NoMemory;
use dns_text::Items;
use dns_wire::Rcode;
use local_zone::{Local, LocalRecord, SeenRecord};
use ranked::{Body, SharedFind, Shown};
use std::alloc::Global;

/// A reply to the question.
fn reply(
    rcode: Rcode,
    aa: bool,
    aliases: Vec<AnswerSet>,
    last: Option<AnswerSet>,
    authority: Option<Soa>,
) -> Answer
    ensures { result ≡ Answer.Reply rcode aa aliases.items last authority }
{
    Answer::Reply {
        rcode,
        aa,
        aliases: Items::new(aliases),
        last,
        authority,
    }
}

/// Ends the question with this answer.
pub(crate) fn finish(answer: Answer) -> Advance
    ensures phase { result.phase ≡ Phase.Ended }
    ensures want { result.want ≡ Want.Finish answer }
{
    Advance {
        phase: Phase::Ended,
        want: Want::Finish(answer),
    }
}

fn finished(
    rcode: Rcode,
    aa: bool,
    aliases: Vec<AnswerSet>,
    last: Option<AnswerSet>,
    authority: Option<Soa>,
) -> Advance
    ensures phase { result.phase ≡ Phase.Ended }
    ensures want { result.want ≡ Want.Finish (Answer.Reply rcode aa aliases.items last authority) }
{
    finish(reply(rcode, aa, aliases, last, authority))
}

/// Fails the question (SERVFAIL; RFC 1035, section 4.1.1).
pub(crate) fn failed(alloc: Global) -> Advance
    ensures phase { result.phase ≡ Phase.Ended }
    ensures want { result.want ≡ Want.Finish (Answer.Reply 2 false [] None None) }
{
    finished(Rcode::SERVER_FAILURE, false, Vec::new(alloc), None, None)
}

/// The answer if a local zone refuses the question (REFUSED; RFC 1035, section 4.1.1).
pub(crate) fn refusal(alloc: Global) -> Answer
    ensures { result ≡ Answer.Reply 5 true [] None None }
{
    reply(Rcode::REFUSED, true, Vec::new(alloc), None, None)
}

/// Ends the path with a set.
pub(crate) fn found(path: Path, told: AnswerSet) -> Advance
    ensures want { result.want ≡ Want.Finish (Answer.Reply 0 false path.sets.items (Some told) None) }
    ensures goes { EndsWithSet path told result }
{
    let Path { sets, .. } = path;
    finished(Rcode::NO_ERROR, false, sets, Some(told), None)
}

/// The SOA record of a negative find, with the TTL of the response.
fn soa_told(negative: Option<SharedFind>) -> Option<Soa>
    ensures { result ≡ option_map soa_whole negative }
{
    match negative {
        Some(find) => Some(Soa::Find {
            ttl: find.find().ttl,
            find,
        }),
        None => None,
    }
}

/// Ends the path with the negative answer of a response.
pub(crate) fn denied(path: Path, rcode: Rcode, negative: Option<SharedFind>) -> Advance
    ensures want { result.want ≡ Want.Finish (Answer.Reply rcode false path.sets.items None (option_map soa_whole negative)) }
    ensures goes { EndsWithDenial path rcode (option_map soa_whole negative) result }
{
    let Path { sets, .. } = path;
    finished(rcode, false, sets, None, soa_told(negative))
}

/// The parts of a reply that end a question.
pub(crate) struct Ending {
    rcode: Rcode,
    last: Option<AnswerSet>,
    authority: Option<Soa>,
}

fn soa_held(shown: &Shown<SharedFind>) -> Result<Soa, NoMemory>
    ensures { IfOk result (λ soa. soa ≡ FindSoa shown.now.left shown.now.body) }
{
    Ok(Soa::Find {
        ttl: shown.left,
        find: shown.body.share()?,
    })
}

fn set_ending(told: AnswerSet) -> Ending
    ensures { result ≡ record { rcode = 0; last = Some told; authority = None } }
{
    Ending {
        rcode: Rcode::NO_ERROR,
        last: Some(told),
        authority: None,
    }
}

/// A negative ending with this RCODE.
fn denial(rcode: Rcode, authority: Option<Soa>) -> Ending
    ensures { result ≡ record { rcode = rcode; last = None; authority = authority } }
{
    Ending {
        rcode,
        last: None,
        authority,
    }
}

/// The ending by a cached find that is about the question.
pub(crate) fn held_ending(shown: &Shown<SharedFind>) -> Result<Ending, NoMemory>
    ensures { (question : Question) → IsShownFor question shown.now → IfOk result (EndsSo question (SeenHeld shown.now)) }
{
    match &shown.body.find().body {
        Body::Set(_) => Ok(set_ending(held_set(shown)?)),
        Body::NoData(_) => Ok(denial(Rcode::NO_ERROR, Some(soa_held(shown)?))),
        Body::NoName(_) => Ok(denial(Rcode::NAME_ERROR, Some(soa_held(shown)?))),
    }
}

fn soa_local(soa: &Option<LocalRecord>) -> Result<Option<Soa>, NoMemory>
    ensures { IfOk result (λ x. x ≡ option_map LocalSoa soa.now) }
{
    match soa {
        Some(record) => Ok(Some(Soa::Local(record.share()?))),
        None => Ok(None),
    }
}

/// The ending by a local answer. None if a local zone refuses or drops the question.
pub(crate) fn local_ending(
    alloc: Global,
    answer: &Local<Items<SeenRecord>, LocalRecord>,
) -> Result<Option<Ending>, NoMemory>
    ensures { (question : Question) → IsLocalFor question answer.now → IfOk result (EndsOrBars question (SeenLocal answer.now)) }
{
    match answer {
        Local::Data(records) => Ok(Some(set_ending(copy_set(alloc, records)?))),
        Local::NoData(soa) => Ok(Some(denial(Rcode::NO_ERROR, soa_local(soa)?))),
        Local::NoName(soa) => Ok(Some(denial(Rcode::NAME_ERROR, soa_local(soa)?))),
        Local::Refuse => Ok(None),
        Local::Drop => Ok(None),
        Local::Pass => Ok(None),
    }
}

/// The answer with these aliases and this ending.
pub(crate) fn answer_with(aa: bool, aliases: Vec<AnswerSet>, ending: Ending) -> Answer
    ensures { result ≡ Answer.Reply ending.rcode aa aliases.items ending.last ending.authority }
{
    let Ending {
        rcode,
        last,
        authority,
    } = ending;
    reply(rcode, aa, aliases, last, authority)
}

/// Ends a question behind these aliases with what a lookup found.
pub(crate) fn ended(aa: bool, aliases: Vec<AnswerSet>, ending: Ending) -> Advance
    ensures phase { result.phase ≡ Phase.Ended }
    ensures want { result.want ≡ Want.Finish (Answer.Reply ending.rcode aa aliases.items ending.last ending.authority) }
{
    finish(answer_with(aa, aliases, ending))
}
