//! Commands, written as the lines that give them.

ghost use Rattle.std.specs.Prelude.{◌≡◌, ◌++◌, ◌∷◌, OnOk, codes};
ghost use Rattle.dns_name.specs.Text.{text_of};
ghost use Rattle.dns_text.specs.Record.{record_text};
ghost use Rattle.local_zone.specs.ZoneType.{word_of};
ghost use Rattle.history.specs.declared.event.Command.TheVariants.{FlushType};
ghost use Rattle.command_text.specs.Addrs.{addrs_text};
ghost use Rattle.command_text.specs.CommandWords.{command_words};

use crate::addrs::push_addrs;
use dns_name::Name;
use dns_text::{NoMemory, Question, Record, push_data, push_type};
use history::Command;
use itoa::Buffer;
use local_zone::ZoneType;
use stub_table::Stub;

/// Writes a word, and a name after it.
fn push_named(word: &[u8], name: &Name, out: &mut Vec<u8>) -> Result<(), NoMemory>
    ensures { OnOk result (out.new.items ≡ out.old.items ++ word.now ++ text_of name.now) }
{
    out.extend_from_slice(word)?;
    name.push_text(out)
}

fn push_flush_type(question: &Question, out: &mut Vec<u8>) -> Result<(), NoMemory>
    ensures { OnOk result (out.new.items ≡ out.old.items ++ command_words (FlushType question.now)) }
{
    push_named(b"flush_type ", &question.owner, out)?;
    out.push(b' ')?;
    push_type(question.kind, out)
}

fn push_set_zone(name: &Name, kind: ZoneType, out: &mut Vec<u8>) -> Result<(), NoMemory>
    ensures { OnOk result (out.new.items ≡ out.old.items ++ codes "local_zone " ++ text_of name.now ++ 32 ∷ word_of kind) }
{
    push_named(b"local_zone ", name, out)?;
    out.push(b' ')?;
    out.extend_from_slice(kind.word())
}

/// Writes `NAME TTL TYPE DATA`.
fn push_record(r: &Record, out: &mut Vec<u8>) -> Result<(), NoMemory>
    ensures { OnOk result (out.new.items ≡ out.old.items ++ record_text r.now) }
{
    let mut digits = Buffer::new();
    r.owner.push_text(out)?;
    out.push(b' ')?;
    out.extend_from_slice(digits.format(u64::from(r.ttl.seconds())).as_bytes())?;
    out.push(b' ')?;
    push_type(r.kind, out)?;
    out.push(b' ')?;
    push_data(&r.body, out)
}

fn push_add_record(r: &Record, out: &mut Vec<u8>) -> Result<(), NoMemory>
    ensures { OnOk result (out.new.items ≡ out.old.items ++ codes "local_data " ++ record_text r.now) }
{
    out.extend_from_slice(b"local_data ")?;
    push_record(r, out)
}

fn push_set_stub(stub: &Stub, out: &mut Vec<u8>) -> Result<(), NoMemory>
    ensures { OnOk result (out.new.items ≡ out.old.items ++ codes "stub_add " ++ text_of stub.now.name ++ addrs_text stub.now.addrs) }
{
    push_named(b"stub_add ", &stub.name, out)?;
    push_addrs(stub.addrs.as_slice(), out)
}

/// Appends the line that gives a command, without its end. If memory runs out, a part of it may have been appended.
pub fn push_command(command: &Command, out: &mut Vec<u8>) -> Result<(), NoMemory>
    ensures { OnOk result (out.new.items ≡ out.old.items ++ command_words command.now) }
{
    match command {
        Command::Flush { name } => push_named(b"flush ", name, out),
        Command::FlushZone { name } => push_named(b"flush_zone ", name, out),
        Command::FlushType(question) => push_flush_type(question, out),
        Command::SetZone { name, kind } => push_set_zone(name, *kind, out),
        Command::DropZone { name } => push_named(b"local_zone_remove ", name, out),
        Command::AddRecord { record } => push_add_record(record.get(), out),
        Command::DropName { name } => push_named(b"local_data_remove ", name, out),
        Command::SetStub { stub } => push_set_stub(stub.get(), out),
        Command::DropStub { name } => push_named(b"stub_remove ", name, out),
    }
}
