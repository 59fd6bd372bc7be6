//! What a task wants, in words.

use crate::resolve::listing::{push_find, push_soa, push_told};
use command_text::reply_text;
use dns_name::{Name, NoMemory};
use dns_text::push_type;
use history::{Ask, Event};
use iterate::{Answer, Input};
use ranked::{Find, Scope};
use std::alloc::Global;

/// `admit`, the rank, the owner, the type or `*`, and the records.
fn admission_words(alloc: Global, find: &Find) -> Result<Vec<u8>, NoMemory> {
    let rank = find.rank.level();
    let mut out = format!(in alloc; "admit {rank} ")?.into_bytes();
    find.owner.push_text(&mut out)?;
    out.push(b' ')?;
    match find.scope {
        Scope::One(kind) => push_type(kind, &mut out)?,
        Scope::Whole => out.push(b'*')?,
    }
    push_find(alloc, find, find.ttl, &mut out)?;
    Ok(out)
}

/// `look NAME TYPE`, `servers NAME` or `oldest`.
fn ask_words(alloc: Global, ask: &Ask) -> Result<Vec<u8>, NoMemory> {
    let mut out = Vec::new(alloc);
    match ask {
        Ask::Answer(question) => {
            out.extend_from_slice(b"look ")?;
            question.owner.push_text(&mut out)?;
            out.push(b' ')?;
            push_type(question.kind, &mut out)?;
        }
        Ask::Servers(name) => {
            out.extend_from_slice(b"servers ")?;
            name.push_text(&mut out)?;
        }
        Ask::Oldest => out.extend_from_slice(b"oldest")?,
        _ => out.extend_from_slice(b"another look")?,
    }
    Ok(out)
}

/// `forget NAME`.
fn forget_words(alloc: Global, owner: &Name) -> Result<Vec<u8>, NoMemory> {
    let mut out = Vec::from_slice(alloc, b"forget ")?;
    owner.push_text(&mut out)?;
    Ok(out)
}

/// An event that a task wants, with its moment.
pub fn event_words(alloc: Global, event: &Event) -> Result<Vec<u8>, NoMemory> {
    let moment = event.moment();
    let mut out = match event {
        Event::Look { ask, .. } => ask_words(alloc, ask)?,
        Event::Admit { find, .. } => admission_words(alloc, find.find())?,
        Event::Sweep { .. } => Vec::from_slice(alloc, b"sweep")?,
        Event::Forget { owner, .. } => forget_words(alloc, owner)?,
        _ => Vec::from_slice(alloc, b"another event")?,
    };
    out.extend_from_slice(format!(in alloc; " at {moment}")?.as_bytes())?;
    Ok(out)
}

/// `told`, and the text of a reply; or `fault`.
pub fn came_words(alloc: Global, input: &Input) -> Result<Vec<u8>, NoMemory> {
    let mut out = Vec::from_slice(alloc, b"told ")?;
    match input {
        Input::Reply(reply) => out.extend_from_slice(
            reply_text(alloc, reply)?.as_slice().trim_ascii_end(),
        )?,
        _ => out.extend_from_slice(b"fault")?,
    }
    Ok(out)
}

/// `answer`, the RCODE, `aa` or `-`, the records of each set, and the SOA record after `soa`; or `silent`.
pub fn answer_words(alloc: Global, answer: &Answer) -> Result<Vec<u8>, NoMemory> {
    let Answer::Reply {
        rcode,
        aa,
        aliases,
        last,
        authority,
    } = answer
    else {
        return Vec::from_slice(alloc, b"silent");
    };
    let rcode = rcode.number();
    let aa = if *aa { "aa" } else { "-" };
    let mut out = format!(in alloc; "answer {rcode} {aa}")?.into_bytes();
    for told in aliases.as_slice() {
        push_told(alloc, told, &mut out)?;
    }
    if let Some(told) = last {
        push_told(alloc, told, &mut out)?;
    }
    if let Some(soa) = authority {
        out.extend_from_slice(b" soa")?;
        push_soa(alloc, soa, &mut out)?;
    }
    Ok(out)
}
