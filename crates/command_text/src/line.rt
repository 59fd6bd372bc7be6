//! Lines: commands, read from their words.

ghost use Rattle.std.specs.Prelude.{◌≡◌, ◌⊎◌, IsTrue, IfErr, IsErrOf, is_ok};
ghost use Rattle.command_text.specs.declared.fault.LineFault.TheVariants.{BadData, Missing, NoMemory};
ghost use Rattle.command_text.specs.Fault.{Gives};
ghost use Rattle.command_text.specs.Line.{is_silent, alone, at_in, admit_in, no_data_in, no_name_in, forget_in, look_in, look_after_in, look_without_in, servers_in, flush_in, flush_type_in, flush_zone_in, do_line, ticket_in, ticket_of, undo_in, redo_in, said_by, takes_by, read_of, takes_memory};
ghost use Rattle.command_text.specs.Local.{set_zone_in, drop_zone_in, add_record_in, drop_name_in};
ghost use Rattle.command_text.specs.Stubs.{set_stub_in, drop_stub_in};

use crate::admission_find::Admission;
use crate::admission_words::{admit_words, read_admission};
use crate::common_words::{need_question, read_end, read_only_name, read_question, read_word};
use crate::denial_find::Denial;
use crate::denial_words::{no_data_words, no_name_words, read_no_data, read_no_name};
use crate::fault::LineFault;
use crate::local::{read_add_record, read_drop_name, read_drop_zone, read_set_zone};
use crate::request::Request;
use crate::stubs::{read_drop_stub, read_set_stub};
use crate::words::{Channel, Verb, verb_in};
use dns_text::{next_word, read_number};
use history::{Ask, Command, Move};
use std::alloc::Global;
use streams::LONGEST_LINE;

/// The greatest ticket: no more events are counted.
const MOST_TICKETS: u64 = (1 << 62) - 1;

/// A line that was read.
#[derive(Drop)]
pub enum Line {
    /// An empty line or a comment.
    Silent,
    /// Sets the moment of the lines after it, in seconds. Scripts only.
    At { moment: u64 },
    /// A set that was found. Scripts only.
    Admit(Admission),
    /// A negative answer that was found. Scripts only.
    Deny(Denial),
    /// A request, which gets the moment at which the line is obeyed.
    Request(Request),
    /// Ends the service: no line after it is obeyed. Control only.
    Stop,
    /// Asks what a service is and holds. Control only, and only a service has the answer.
    Status,
    /// Asks for the counters of a service. Control only, and only a service has the answer.
    Stats,
}

/// Whether a line is empty or a comment.
pub(crate) fn is_silent(line: &[u8]) -> bool
    ensures { result ≡ is_silent line.now }
{
    match line.first() {
        Some(octet) => *octet == b'#',
        None => true,
    }
}

#[tactic(auto, unfolding(crate::specs::Line::at_in))]
fn read_at(text: &[u8]) -> Result<Line, LineFault>
    ensures value { Gives result (at_in text.now) }
    ensures no_memory { IsErrOf result NoMemory → IsTrue (takes_by Verb.At text.now) }
{
    let (word, rest) = read_word(text)?;
    let moment = read_number(word, u64::MAX).ok_or(LineFault::BadData)?;
    read_end(rest)?;
    Ok(Line::At { moment })
}

/// A ticket: from 1 to 2^62 - 1.
fn ticket_of(word: &[u8]) -> Result<u64, LineFault>
    ensures value { result ≡ ticket_of word.now }
    ensures fault { IfErr result (λ e. e ≡ BadData) }
{
    match read_number(word, MOST_TICKETS) {
        None | Some(0) => Err(LineFault::BadData),
        Some(ticket) => Ok(ticket),
    }
}

/// A ticket, and no more.
#[tactic(auto, unfolding(crate::specs::Line::ticket_in))]
fn read_ticket(text: &[u8]) -> Result<u64, LineFault>
    ensures value { result ≡ ticket_in text.now }
    ensures fault { IfErr result (λ e. (e ≡ Missing) ⊎ (e ≡ BadData)) }
{
    let (word, rest) = read_word(text)?;
    let ticket = ticket_of(word)?;
    read_end(rest)?;
    Ok(ticket)
}

#[tactic(auto, unfolding(crate::specs::Line::undo_in))]
fn read_undo(text: &[u8]) -> Result<Line, LineFault>
    ensures value { Gives result (undo_in text.now) }
    ensures no_memory { IsErrOf result NoMemory → IsTrue (takes_by Verb.Undo text.now) }
{
    match next_word(text) {
        None => Ok(Line::Request(Request::Undo)),
        Some(_) => {
            let ticket = read_ticket(text)?;
            Ok(Line::Request(Request::UndoOf { ticket }))
        }
    }
}

#[tactic(auto, unfolding(crate::specs::Line::redo_in))]
fn read_redo(text: &[u8]) -> Result<Line, LineFault>
    ensures value { Gives result (redo_in text.now) }
    ensures no_memory { IsErrOf result NoMemory → IsTrue (takes_by Verb.Redo text.now) }
{
    match next_word(text) {
        None => Ok(Line::Request(Request::Redo)),
        Some(_) => {
            let ticket = read_ticket(text)?;
            Ok(Line::Request(Request::RedoOf { ticket }))
        }
    }
}

#[tactic(auto, unfolding(crate::specs::Line::admit_in))]
fn read_admit(alloc: Global, text: &[u8]) -> Result<Line, LineFault>
    ensures value { Gives result (admit_in text.now) }
    ensures no_memory { IsErrOf result NoMemory → IsTrue (takes_by Verb.Admit text.now) }
{
    let words = admit_words(text)?;
    let admission = read_admission(alloc, words)?;
    Ok(Line::Admit(admission))
}

#[tactic(auto, unfolding(crate::specs::Line::no_data_in))]
fn read_no_data_line(alloc: Global, text: &[u8]) -> Result<Line, LineFault>
    ensures value { Gives result (no_data_in text.now) }
    ensures no_memory { IsErrOf result NoMemory → IsTrue (takes_by Verb.NoData text.now) }
{
    let words = no_data_words(text)?;
    let denial = read_no_data(alloc, words)?;
    Ok(Line::Deny(denial))
}

#[tactic(auto, unfolding(crate::specs::Line::no_name_in))]
fn read_no_name_line(alloc: Global, text: &[u8]) -> Result<Line, LineFault>
    ensures value { Gives result (no_name_in text.now) }
    ensures no_memory { IsErrOf result NoMemory → IsTrue (takes_by Verb.NoName text.now) }
{
    let words = no_name_words(text)?;
    let denial = read_no_name(alloc, words)?;
    Ok(Line::Deny(denial))
}

#[tactic(auto, unfolding(crate::specs::Line::forget_in))]
fn read_forget(alloc: Global, text: &[u8]) -> Result<Line, LineFault>
    ensures value { Gives result (forget_in text.now) }
    ensures no_memory { IsErrOf result NoMemory → IsTrue (takes_by Verb.Forget text.now) }
{
    let owner = read_only_name(alloc, text)?;
    Ok(Line::Request(Request::Forget { owner }))
}

#[tactic(auto, unfolding(crate::specs::Line::look_in))]
fn read_look(alloc: Global, text: &[u8]) -> Result<Line, LineFault>
    ensures value { Gives result (look_in text.now) }
    ensures no_memory { IsErrOf result NoMemory → IsTrue (takes_by Verb.Look text.now) }
{
    let question = read_question(alloc, text)?;
    Ok(Line::Request(Request::Look(Ask::Answer(question))))
}

#[tactic(auto, unfolding(crate::specs::Line::look_after_in))]
fn read_look_after(alloc: Global, step: Move, text: &[u8]) -> Result<Line, LineFault>
    ensures value { Gives result (look_after_in step text.now) }
    ensures no_memory { IsErrOf result NoMemory → IsTrue (takes_by Verb.LookUndo text.now) }
{
    let question = read_question(alloc, text)?;
    Ok(Line::Request(Request::Look(Ask::After { step, question })))
}

#[tactic(auto, unfolding(crate::specs::Line::look_without_in))]
fn read_look_without(alloc: Global, text: &[u8]) -> Result<Line, LineFault>
    ensures value { Gives result (look_without_in text.now) }
    ensures no_memory { IsErrOf result NoMemory → IsTrue (takes_by Verb.LookWithout text.now) }
{
    let (word, rest) = read_word(text)?;
    need_question(rest)?;
    let ticket = ticket_of(word)?;
    let question = read_question(alloc, rest)?;
    let step = Move::UndoOf { ticket };
    Ok(Line::Request(Request::Look(Ask::After { step, question })))
}

#[tactic(auto, unfolding(crate::specs::Line::servers_in))]
fn read_servers(alloc: Global, text: &[u8]) -> Result<Line, LineFault>
    ensures value { Gives result (servers_in text.now) }
    ensures no_memory { IsErrOf result NoMemory → IsTrue (takes_by Verb.Servers text.now) }
{
    let name = read_only_name(alloc, text)?;
    Ok(Line::Request(Request::Look(Ask::Servers(name))))
}

#[tactic(auto, unfolding(crate::specs::Line::flush_in))]
fn read_flush(alloc: Global, text: &[u8]) -> Result<Line, LineFault>
    ensures value { Gives result (flush_in text.now) }
    ensures no_memory { IsErrOf result NoMemory → IsTrue (takes_by Verb.Flush text.now) }
{
    let name = read_only_name(alloc, text)?;
    Ok(Line::Request(Request::Do(Command::Flush { name })))
}

#[tactic(auto, unfolding(crate::specs::Line::flush_type_in))]
fn read_flush_type(alloc: Global, text: &[u8]) -> Result<Line, LineFault>
    ensures value { Gives result (flush_type_in text.now) }
    ensures no_memory { IsErrOf result NoMemory → IsTrue (takes_by Verb.FlushType text.now) }
{
    let question = read_question(alloc, text)?;
    Ok(Line::Request(Request::Do(Command::FlushType(question))))
}

#[tactic(auto, unfolding(crate::specs::Line::flush_zone_in))]
fn read_flush_zone(alloc: Global, text: &[u8]) -> Result<Line, LineFault>
    ensures value { Gives result (flush_zone_in text.now) }
    ensures no_memory { IsErrOf result NoMemory → IsTrue (takes_by Verb.FlushZone text.now) }
{
    let name = read_only_name(alloc, text)?;
    Ok(Line::Request(Request::Do(Command::FlushZone { name })))
}

#[tactic(auto, unfolding(crate::specs::Line::do_line))]
fn read_local_zone(alloc: Global, text: &[u8]) -> Result<Line, LineFault>
    ensures value { Gives result (do_line (set_zone_in text.now)) }
    ensures no_memory { IsErrOf result NoMemory → IsTrue (takes_by Verb.LocalZone text.now) }
{
    let command = read_set_zone(alloc, text)?;
    Ok(Line::Request(Request::Do(command)))
}

#[tactic(auto, unfolding(crate::specs::Line::do_line))]
fn read_local_zone_remove(alloc: Global, text: &[u8]) -> Result<Line, LineFault>
    ensures value { Gives result (do_line (drop_zone_in text.now)) }
    ensures no_memory { IsErrOf result NoMemory → IsTrue (takes_by Verb.LocalZoneRemove text.now) }
{
    let command = read_drop_zone(alloc, text)?;
    Ok(Line::Request(Request::Do(command)))
}

#[tactic(auto, unfolding(crate::specs::Line::do_line))]
fn read_local_data(alloc: Global, text: &[u8]) -> Result<Line, LineFault>
    ensures value { Gives result (do_line (add_record_in text.now)) }
    ensures no_memory { IsErrOf result NoMemory → IsTrue (takes_by Verb.LocalData text.now) }
{
    let command = read_add_record(alloc, text)?;
    Ok(Line::Request(Request::Do(command)))
}

#[tactic(auto, unfolding(crate::specs::Line::do_line))]
fn read_local_data_remove(alloc: Global, text: &[u8]) -> Result<Line, LineFault>
    ensures value { Gives result (do_line (drop_name_in text.now)) }
    ensures no_memory { IsErrOf result NoMemory → IsTrue (takes_by Verb.LocalDataRemove text.now) }
{
    let command = read_drop_name(alloc, text)?;
    Ok(Line::Request(Request::Do(command)))
}

#[tactic(auto, unfolding(crate::specs::Line::do_line))]
fn read_stub_add(alloc: Global, text: &[u8]) -> Result<Line, LineFault>
    ensures value { Gives result (do_line (set_stub_in text.now)) }
    ensures no_memory { IsErrOf result NoMemory → IsTrue (takes_by Verb.StubAdd text.now) }
{
    let command = read_set_stub(alloc, text)?;
    Ok(Line::Request(Request::Do(command)))
}

#[tactic(auto, unfolding(crate::specs::Line::do_line))]
fn read_stub_remove(alloc: Global, text: &[u8]) -> Result<Line, LineFault>
    ensures value { Gives result (do_line (drop_stub_in text.now)) }
    ensures no_memory { IsErrOf result NoMemory → IsTrue (takes_by Verb.StubRemove text.now) }
{
    let command = read_drop_stub(alloc, text)?;
    Ok(Line::Request(Request::Do(command)))
}

/// A command without words of its own.
#[tactic(auto, unfolding(crate::specs::Line::alone))]
fn read_alone(line: Line, text: &[u8]) -> Result<Line, LineFault>
    ensures value { result ≡ alone line text.now }
    ensures fault { IfErr result (λ e. e ≡ BadData) }
{
    read_end(text)?;
    Ok(line)
}

/// The line of a command, with the text after its word.
fn read_command(alloc: Global, verb: Verb, text: &[u8]) -> Result<Line, LineFault>
    ensures value { Gives result (said_by verb text.now) }
    ensures no_memory { IsErrOf result NoMemory → IsTrue (takes_by verb text.now) }
{
    match verb {
        Verb::At => read_at(text),
        Verb::Admit => read_admit(alloc, text),
        Verb::NoData => read_no_data_line(alloc, text),
        Verb::NoName => read_no_name_line(alloc, text),
        Verb::Forget => read_forget(alloc, text),
        Verb::Oldest => read_alone(Line::Request(Request::Look(Ask::Oldest)), text),
        Verb::Look => read_look(alloc, text),
        Verb::Servers => read_servers(alloc, text),
        Verb::Sweep => read_alone(Line::Request(Request::Sweep), text),
        Verb::Flush => read_flush(alloc, text),
        Verb::FlushType => read_flush_type(alloc, text),
        Verb::FlushZone => read_flush_zone(alloc, text),
        Verb::LocalZone => read_local_zone(alloc, text),
        Verb::LocalZoneRemove => read_local_zone_remove(alloc, text),
        Verb::LocalData => read_local_data(alloc, text),
        Verb::LocalDataRemove => read_local_data_remove(alloc, text),
        Verb::StubAdd => read_stub_add(alloc, text),
        Verb::StubRemove => read_stub_remove(alloc, text),
        Verb::ListLocalZones => read_alone(Line::Request(Request::Look(Ask::Zones)), text),
        Verb::ListLocalData => read_alone(Line::Request(Request::Look(Ask::Records)), text),
        Verb::ListStubs => read_alone(Line::Request(Request::Look(Ask::Stubs)), text),
        Verb::ListCommands => read_alone(Line::Request(Request::Look(Ask::Commands)), text),
        Verb::ListBuried => read_alone(Line::Request(Request::Look(Ask::Buried)), text),
        Verb::Undo => read_undo(text),
        Verb::Redo => read_redo(text),
        Verb::LookUndo => read_look_after(alloc, Move::Undo, text),
        Verb::LookRedo => read_look_after(alloc, Move::Redo, text),
        Verb::LookWithout => read_look_without(alloc, text),
        Verb::WhatUndo => read_alone(Line::Request(Request::Look(Ask::NextUndo)), text),
        Verb::Stop => read_alone(Line::Stop, text),
        Verb::Status => read_alone(Line::Status, text),
        Verb::Stats => read_alone(Line::Stats, text),
    }
}

/// Reads a line, without its end. A line with several faults gets `TooLong` first, then `Unknown`, then `Missing`,
/// then the first of its words' faults from the left.
pub fn read_line(alloc: Global, channel: Channel, line: &[u8]) -> Result<Line, LineFault>
    ensures value { Gives result (read_of channel line.now) }
    ensures no_memory { IsErrOf result NoMemory → IsTrue (takes_memory channel line.now) }
{
    if line.len() > LONGEST_LINE {
        return Err(LineFault::TooLong);
    }
    if is_silent(line) {
        return Ok(Line::Silent);
    }
    let (word, rest) = next_word(line).ok_or(LineFault::Unknown)?;
    let verb = verb_in(channel, word).ok_or(LineFault::Unknown)?;
    read_command(alloc, verb, rest)
}
