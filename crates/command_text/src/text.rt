//! Texts of replies and faults, each with its line end.

ghost use Rattle.std.specs.Prelude.{◌≡◌, ◌≤◌, not, is_some, ◌++◌, ◌∷◌, [], length, IsTrue, IfOk, OnOk, OnErr, codes, decimal, flat_map};
ghost use Rattle.streams.specs.Split.{with_end};
ghost use Rattle.streams.specs.Text.{octets_in};
ghost use Rattle.dns_name.specs.Text.{text_of};
ghost use Rattle.dns_text.specs.Data.{data_text};
ghost use Rattle.ranked.specs.Body.{is_negative};
ghost use Rattle.command_text.specs.Text.{set_text, scope_text, find_text, found_text, held_text, is_long, oldest_text, refusal_text, reply_text, reason_text, fault_text, desk_fault_text, line_fault_text};
ghost use Rattle.command_text.specs.declared.text.TheConstants.{MOST_WORDS};
ghost use Rattle.command_text.specs.Obeying.{IsTextOf};

use crate::answers::answer_line;
use crate::fault::LineFault;
use crate::journal::{buried_lines, command_line, commands_lines};
use crate::lists::{records_lines, stubs_lines, zones_lines};
use crate::servers::servers_line;
use arrayvec::ArrayVec;
use dns_name::Name;
use dns_text::{Data, NoMemory, push_data, push_type};
use history::{DeskFault, Reason, Refusal, Reply, Seen, StepFault};
use itoa::Buffer;
use ranked::{Body, Find, Scope, SharedFind, Shown};
use std::alloc::Global;
use streams::Text;

/// Writes the data after the first of a set.
fn push_others(others: &[Data], out: &mut Vec<u8>) -> Result<(), NoMemory>
    ensures { OnOk result (out.new.items ≡ out.old.items ++ flat_map (λ datum. codes " | " ++ data_text datum) others.now) }
{
    for datum in others {
        out.extend_from_slice(b" | ")?;
        push_data(datum, out)?;
    }
    Ok(())
}

/// Writes data joined by bars.
fn push_set(items: &[Data], out: &mut Vec<u8>) -> Result<(), NoMemory>
    ensures { OnOk result (out.new.items ≡ out.old.items ++ set_text items.now) }
{
    match items {
        [] => Ok(()),
        [first, others @ ..] => {
            push_data(first, out)?;
            push_others(others, out)
        }
    }
}

fn push_scope(scope: Scope, out: &mut Vec<u8>) -> Result<(), NoMemory>
    ensures { OnOk result (out.new.items ≡ out.old.items ++ scope_text scope) }
{
    match scope {
        Scope::One(kind) => push_type(kind, out),
        Scope::Whole => Ok(()),
    }
}

/// Writes ` OWNER TYPE DATA` of a set.
fn push_find(find: &Find, items: &[Data], out: &mut Vec<u8>) -> Result<(), NoMemory>
    ensures { OnOk result (out.new.items ≡ out.old.items ++ find_text find.now items.now) }
{
    out.push(b' ')?;
    find.owner.push_text(out)?;
    out.push(b' ')?;
    push_scope(find.scope, out)?;
    out.push(b' ')?;
    push_set(items, out)
}

/// The room with which the line of a cached set begins, in octets. A short one then takes one block.
const FOUND_ROOM: usize = 96;

/// The line of a cached set.
#[tactic(auto, unfolding(crate::specs::Text::found_text))]
fn found_line(alloc: Global, shown: &Shown<SharedFind>, items: &[Data]) -> Result<Vec<u8>, NoMemory>
    ensures { IfOk result (λ text. text.items ≡ with_end (codes "found " ++ found_text shown.now items.now)) }
{
    let mut digits = Buffer::new();
    let mut out = Vec::with_capacity(alloc, FOUND_ROOM)?;
    out.extend_from_slice(b"found ")?;
    out.extend_from_slice(digits.format(u64::from(shown.rank.level())).as_bytes())?;
    out.push(b' ')?;
    out.extend_from_slice(digits.format(u64::from(shown.left)).as_bytes())?;
    push_find(shown.body.find(), items, &mut out)?;
    out.push(b'\n')?;
    Ok(out)
}

/// The line of a cached find. Only that of a set takes memory.
fn held_line(alloc: Global, shown: &Shown<SharedFind>) -> Result<Text, NoMemory>
    ensures text { IfOk result (λ text. octets_in text ≡ with_end (held_text shown.now)) }
    ensures memory { OnErr result (IsTrue (not (is_negative shown.now.body.body))) }
{
    match &shown.body.find().body {
        Body::Set(items) => Ok(Text::Made(found_line(alloc, shown, items.as_slice())?)),
        Body::NoData(_) => Ok(number_line(b"nodata", u64::from(shown.left))),
        Body::NoName(_) => Ok(number_line(b"noname", u64::from(shown.left))),
    }
}

/// The longest words before the number of a line, in octets.
const MOST_WORDS: usize = 16;

/// A line of words and a number. It takes no memory.
fn number_line(words: &[u8], number: u64) -> Text
    requires { length words.now ≤ MOST_WORDS }
    ensures { octets_in result ≡ with_end (words.now ++ 32 ∷ decimal number) }
{
    let mut digits = Buffer::new();
    let mut line = ArrayVec::new();
    line.try_extend_from_slice(words).unwrap();
    line.push(b' ');
    line.try_extend_from_slice(digits.format(number).as_bytes())
        .unwrap();
    line.push(b'\n');
    Text::Short(line)
}

fn reason_line(reason: Reason) -> Text
    ensures { octets_in result ≡ with_end (reason_text reason) }
{
    match reason {
        Reason::BelowRedirect => Text::Fixed(b"error below_redirect\n"),
        Reason::DataBelow => Text::Fixed(b"error data_below\n"),
        Reason::CnameClash => Text::Fixed(b"error cname_clash\n"),
        Reason::TooMany => Text::Fixed(b"error too_many\n"),
    }
}

/// The line of an undo or a redo that is refused, or would be.
fn refusal_line(refusal: Refusal) -> Text
    ensures { octets_in result ≡ with_end (refusal_text refusal) }
{
    match refusal {
        Refusal::NothingToUndo => Text::Fixed(b"error nothing_to_undo\n"),
        Refusal::NothingToRedo => Text::Fixed(b"error nothing_to_redo\n"),
        Refusal::NotKept => Text::Fixed(b"error not_kept\n"),
        Refusal::Buried { ticket } => number_line(b"error buried", ticket),
    }
}

/// The line of the name to forget first. It takes memory only if there is one.
fn oldest_line(alloc: Global, name: &Option<Name>) -> Result<Text, NoMemory>
    ensures text { IfOk result (λ text. octets_in text ≡ with_end (oldest_text name.now)) }
    ensures memory { OnErr result (IsTrue (is_some name.now)) }
{
    match name {
        Some(name) => Ok(Text::Made(name_line(alloc, name)?)),
        None => Ok(Text::Fixed(b"unknown\n")),
    }
}

fn name_line(alloc: Global, name: &Name) -> Result<Vec<u8>, NoMemory>
    ensures { IfOk result (λ text. text.items ≡ with_end (codes "oldest " ++ text_of name.now)) }
{
    let mut out = Vec::new(alloc);
    out.extend_from_slice(b"oldest ")?;
    name.push_text(&mut out)?;
    out.push(b'\n')?;
    Ok(out)
}

/// The lines of a reply, each with its end. Only those of a set, of local data, of a list or of a name take memory, and can fail.
pub fn reply_text(alloc: Global, reply: &Reply) -> Result<Text, NoMemory>
    ensures text { IfOk result (λ text. octets_in text ≡ reply_text reply.now) }
    ensures memory { OnErr result (IsTrue (is_long reply.now)) }
{
    match reply {
        Reply::Taken => Ok(Text::Fixed(b"taken\n")),
        Reply::Outranked => Ok(Text::Fixed(b"outranked\n")),
        Reply::Swept => Ok(Text::Fixed(b"swept\n")),
        Reply::Forgotten => Ok(Text::Fixed(b"forgotten\n")),
        Reply::Seen(Seen::Unknown) => Ok(Text::Fixed(b"unknown\n")),
        Reply::Seen(Seen::Held(shown)) => held_line(alloc, shown),
        Reply::Seen(Seen::Local(answer)) => answer_line(alloc, answer),
        Reply::Seen(Seen::Servers(servers)) => Ok(Text::Made(servers_line(alloc, servers.get())?)),
        Reply::Seen(Seen::Zones(zones)) => Ok(Text::Made(zones_lines(alloc, zones)?)),
        Reply::Seen(Seen::Records(records)) => Ok(Text::Made(records_lines(alloc, records)?)),
        Reply::Seen(Seen::Stubs(stubs)) => Ok(Text::Made(stubs_lines(alloc, stubs)?)),
        Reply::Seen(Seen::Commands(commands)) => Ok(Text::Made(commands_lines(alloc, commands)?)),
        Reply::Seen(Seen::Buried(buried)) => Ok(Text::Made(buried_lines(alloc, buried)?)),
        Reply::Seen(Seen::Oldest(name)) => oldest_line(alloc, name),
        Reply::Seen(Seen::Command(held)) => Ok(Text::Made(command_line(alloc, held)?)),
        Reply::Seen(Seen::Refused(refusal)) => Ok(refusal_line(*refusal)),
        Reply::Done { ticket } => Ok(number_line(b"ok", *ticket)),
        Reply::Refused(reason) => Ok(reason_line(*reason)),
        Reply::Undone { ticket } => Ok(number_line(b"undone", *ticket)),
        Reply::Redone { ticket } => Ok(number_line(b"redone", *ticket)),
        Reply::NothingToUndo => Ok(refusal_line(Refusal::NothingToUndo)),
        Reply::NothingToRedo => Ok(refusal_line(Refusal::NothingToRedo)),
        Reply::NotKept => Ok(refusal_line(Refusal::NotKept)),
        Reply::Buried { ticket } => Ok(refusal_line(Refusal::Buried { ticket: *ticket })),
    }
}

/// The line of a fault of a book.
fn fault_text(fault: StepFault) -> Text
    ensures { octets_in result ≡ fault_text fault }
{
    match fault {
        StepFault::BadMoment => Text::Fixed(b"fault bad_moment\n"),
        StepFault::CountEnded => Text::Fixed(b"fault count_ended\n"),
        StepFault::Full { stored } => number_line(b"fault full", stored as u64),
        StepFault::NoMemory => Text::Fixed(b"fault no_memory\n"),
    }
}

/// The line of a fault of a desk.
fn desk_fault_text(fault: DeskFault) -> Text
    ensures { octets_in result ≡ desk_fault_text fault }
{
    match fault {
        DeskFault::Step(fault) => fault_text(fault),
        DeskFault::Behind { at } => number_line(b"fault behind", at),
    }
}

/// The lines of a desk's answer. If there is no memory for the text of a set, of local data, of a list or of a name, it is
/// `fault reply_lost`; the event still took effect.
pub fn answer_text(alloc: Global, answer: &Result<Reply, DeskFault>) -> Text
    ensures { IsTextOf answer.now (octets_in result) }
{
    match answer {
        Ok(reply) => match reply_text(alloc, reply) {
            Ok(text) => text,
            Err(_) => Text::Fixed(b"fault reply_lost\n"),
        },
        Err(fault) => desk_fault_text(*fault),
    }
}

/// The line of a fault of a line.
pub fn line_fault_text(fault: LineFault) -> Text
    ensures { octets_in result ≡ line_fault_text fault }
{
    match fault {
        LineFault::Unknown => Text::Fixed(b"error unknown\n"),
        LineFault::Missing => Text::Fixed(b"error missing\n"),
        LineFault::BadName => Text::Fixed(b"error bad_name\n"),
        LineFault::BadType => Text::Fixed(b"error bad_type\n"),
        LineFault::BadData => Text::Fixed(b"error bad_data\n"),
        LineFault::BadAddress => Text::Fixed(b"error bad_address\n"),
        LineFault::TooLong => Text::Fixed(b"error too_long\n"),
        LineFault::NoMemory => Text::Fixed(b"error no_memory\n"),
    }
}
