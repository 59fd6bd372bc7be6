//! Calls for the verdict on a response.

use crate::denials::{Words, asked_of, denial_words, question_of};
use crate::fault::CallFault;
use crate::harvests::{find_words, passing_words};
use crate::names::digits;
use dns_name::NoMemory;
use dns_query::{Believed, Heard, Over, Referral, Says, Verdict, believed, judge, query};
use dns_text::types::CNAME;
use dns_text::{Question, push_addr};
use ranked::SharedFind;
use std::alloc::Global;

/// The port of the servers that a response names.
const PORT: u16 = 53;

fn id_of(id: &[u8]) -> Result<u16, CallFault> {
    match id {
        [high, low] => Ok(u16::from_be_bytes([*high, *low])),
        _ => Err(CallFault::NoCall),
    }
}

fn over_of(over: &[u8]) -> Result<Over, CallFault> {
    match over {
        b"udp" => Ok(Over::Udp),
        b"tcp" => Ok(Over::Tcp),
        _ => Err(CallFault::NoCall),
    }
}

/// The octets of the query for a question, with an identifier.
pub fn query_octets(
    alloc: Global,
    id: &[u8],
    owner: &[u8],
    kind: &[u8],
) -> Result<Vec<u8>, CallFault> {
    let question = question_of(alloc, owner, kind)?;
    let octets = query(alloc, id_of(id)?, &question)?;
    Ok(digits(alloc, octets.as_slice())?)
}

fn believed_words(alloc: Global, set: Believed<'_>) -> Result<Vec<u8>, NoMemory> {
    match set {
        Believed::Find(find) => find_words(alloc, find.find()),
        Believed::Passing(set) => passing_words(alloc, set.get()),
    }
}

/// `answers` and the set that the question asks for, or `alias` and the CNAME set of the name.
fn answer_words(alloc: Global, heard: &Heard, question: &Question) -> Result<Vec<u8>, CallFault> {
    let owner = question.owner.clone()?;
    let alias = Question { owner, kind: CNAME };
    let (word, set) = match believed(&heard.harvest, question) {
        Some(set) => (b"answers ".as_slice(), set),
        None => {
            let set = believed(&heard.harvest, &alias).ok_or(CallFault::NoCall)?;
            (b"alias ".as_slice(), set)
        }
    };
    let mut told = Vec::from_slice(alloc, word)?;
    told.extend_from_slice(&believed_words(alloc, set)?)?;
    Ok(told)
}

/// `denies`, the RCODE, and the negative answer or `none`.
fn denied_words(
    alloc: Global,
    rcode: u8,
    negative: &Option<SharedFind>,
) -> Result<Vec<u8>, NoMemory> {
    let mut told = format!(in alloc; "denies {rcode} ")?.into_bytes();
    match negative {
        Some(find) => told.extend_from_slice(&denial_words(alloc, find.find())?)?,
        None => told.extend_from_slice(b"none")?,
    }
    Ok(told)
}

/// `refers`, the zone, the addresses, and after a bar the servers without an address.
fn referral_words(alloc: Global, referral: &Referral) -> Result<Vec<u8>, NoMemory> {
    let mut told = Vec::from_slice(alloc, b"refers ")?;
    referral.zone.push_text(&mut told)?;
    for addr in referral.addrs.as_slice() {
        told.push(b' ')?;
        push_addr(addr, &mut told)?;
    }
    if !referral.missing.as_slice().is_empty() {
        told.extend_from_slice(b" |")?;
    }
    for name in referral.missing.as_slice() {
        told.push(b' ')?;
        name.push_text(&mut told)?;
    }
    Ok(told)
}

fn verdict_words(
    alloc: Global,
    verdict: &Verdict,
    question: &Question,
) -> Result<Vec<u8>, CallFault> {
    match verdict {
        Verdict::Struck => Ok(Vec::from_slice(alloc, b"struck")?),
        Verdict::Cut => Ok(Vec::from_slice(alloc, b"cut")?),
        Verdict::Heard(heard) => match &heard.says {
            Says::Answers => answer_words(alloc, heard, question),
            Says::Denies { rcode, negative } => Ok(denied_words(alloc, rcode.number(), negative)?),
            Says::Refers(referral) => Ok(referral_words(alloc, referral)?),
        },
    }
}

/// The verdict on octets that came for a query over `udp` or `tcp`, with an identifier of two octets and a question of this
/// name and type, to a server of a zone.
pub fn verdict_in(
    alloc: Global,
    octets: &[u8],
    sent: (&[u8], &[u8]),
    words: Words<'_>,
) -> Result<Vec<u8>, CallFault> {
    let (question, zone) = asked_of(alloc, words)?;
    let (over, id) = sent;
    let verdict = judge(
        alloc,
        PORT,
        over_of(over)?,
        &zone,
        id_of(id)?,
        &question,
        octets,
    )?;
    verdict_words(alloc, &verdict, &question)
}
