//! The judgement of the octets that came for a query.

ghost use Rattle.std.specs.Prelude.{◌≡◌, ◌↔◌, ◌⊎◌, List, map, true, ℕ, IfOk, IsTrue};
ghost use Rattle.dns_wire.specs.WellFormed.{HasForms};
ghost use Rattle.neg_rule.specs.Negative.{said_by};
ghost use Rattle.harvest.specs.Harvest.{finds_in, passing_in};
ghost use Rattle.harvest.specs.Learnt.{set_of};
ghost use Rattle.dns_query.specs.Believed.{HarvestHasSet};
ghost use Rattle.dns_query.specs.Query.{alias_question};
ghost use Rattle.dns_query.specs.Response.{IsRead, IsWhole};
ghost use Rattle.dns_query.specs.Verdict.{IsDenial, IsSaid, IsVerdict, FindsSaid, JudgesMessage};

use crate::believing::believed_of;
use crate::over::Over;
use crate::referral::referral_of;
use crate::response::{is_cut, is_whole, meets, read};
use crate::verdict::{Heard, Says, Verdict};
use dns_name::{Name, NoMemory};
use dns_text::Question;
use dns_text::types::CNAME;
use dns_wire::Message;
use harvest::{Harvest, harvest};
use neg_rule::negative_of;
use ranked::SharedFind;
use std::alloc::Global;

/// Whether a harvest has a set of this name and type that may be used as an answer.
fn has(harvest: &Harvest, owner: &Name, kind: u16) -> bool
    ensures { IsTrue result ↔ HarvestHasSet harvest.now (record { owner = owner.now; kind = kind }) }
{
    match believed_of(harvest, owner, kind) {
        Some(_) => true,
        None => false,
    }
}

/// Whether a harvest has the set that the question asks for, or a CNAME record of its name.
fn is_answer(harvest: &Harvest, question: &Question) -> bool
    ensures { IsTrue result ↔ (HarvestHasSet harvest.now question.now ⊎ HarvestHasSet harvest.now (alias_question question.now.owner)) }
{
    has(harvest, &question.owner, question.kind) || has(harvest, &question.owner, CNAME)
}

/// The denial of an authoritative response without an answer.
fn denies(
    alloc: Global,
    zone: &Name,
    question: &Question,
    message: &Message,
) -> Result<Says, NoMemory>
    ensures { (port : ℕ) → IsDenial zone.now question.now message.now → IfOk result (IsSaid port zone.now question.now message.now) }
{
    let rcode = message.head.rcode;
    match negative_of(alloc, message, question, zone)? {
        None => Ok(Says::Denies {
            rcode,
            negative: None,
        }),
        Some(find) => {
            let negative = Some(SharedFind::new(alloc, find)?);
            Ok(Says::Denies { rcode, negative })
        }
    }
}

/// The answer, denial or referral of a response with this harvest; none if it has none of them.
fn says(
    alloc: Global,
    port: u16,
    zone: &Name,
    question: &Question,
    message: &Message,
    harvest: &Harvest,
) -> Result<Option<Says>, NoMemory>
    requires finds { map said_by harvest.now.finds ≡ finds_in message.now question.now zone.now }
    requires passing { map set_of harvest.now.passing ≡ passing_in message.now question.now zone.now }
    ensures { IfOk result (λ found. FindsSaid port zone.now question.now message.now found) }
{
    if is_answer(harvest, question) {
        return Ok(Some(Says::Answers));
    }
    if message.head.aa {
        let says = denies(alloc, zone, question, message)?;
        return Ok(Some(says));
    }
    match referral_of(alloc, port, zone, question, message, harvest)? {
        None => Ok(None),
        Some(referral) => Ok(Some(Says::Refers(referral))),
    }
}

/// The verdict on a whole response.
fn heard(
    alloc: Global,
    port: u16,
    zone: &Name,
    question: &Question,
    message: &Message,
) -> Result<Verdict, NoMemory>
    requires forms { HasForms message.now }
    requires whole { IsWhole message.now }
    ensures { JudgesMessage port zone.now question.now message.now result }
{
    let harvest = harvest(alloc, message, question, zone)?;
    match says(alloc, port, zone, question, message, &harvest)? {
        None => Ok(Verdict::Struck),
        Some(says) => Ok(Verdict::Heard(Heard { harvest, says })),
    }
}

/// The verdict on a message.
fn judged(
    alloc: Global,
    port: u16,
    over: Over,
    zone: &Name,
    id: u16,
    question: &Question,
    message: &Message,
) -> Result<Verdict, NoMemory>
    requires { HasForms message.now }
    ensures { (octets : List ℕ) → IsRead octets message.now → IfOk result (IsVerdict port over zone.now id question.now octets) }
{
    if !meets(id, question, message) {
        return Ok(Verdict::Struck);
    }
    if is_cut(over, message) {
        return Ok(Verdict::Cut);
    }
    if !is_whole(message) {
        return Ok(Verdict::Struck);
    }
    heard(alloc, port, zone, question, message)
}

/// The verdict on octets that came for a query over this transport, with this identifier and question, to a server of this
/// zone. The servers of a referral listen at this port. Octets that are no message are `Struck`.
pub fn judge(
    alloc: Global,
    port: u16,
    over: Over,
    zone: &Name,
    id: u16,
    question: &Question,
    octets: &[u8],
) -> Result<Verdict, NoMemory>
    ensures { IfOk result (IsVerdict port over zone.now id question.now octets.now) }
{
    match read(alloc, octets)? {
        None => Ok(Verdict::Struck),
        Some(message) => judged(alloc, port, over, zone, id, question, &message),
    }
}
