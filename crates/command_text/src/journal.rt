//! The text of the lists of commands that can be undone or redone.

ghost use Rattle.std.specs.Prelude.{◌≡◌, ◌++◌, IfOk, OnOk, codes, flat_map};
ghost use Rattle.streams.specs.Split.{with_end};
ghost use Rattle.command_text.specs.Text.{state_text, buried_line, journalled_line};

use crate::command_words::push_command;
use dns_text::{Items, NoMemory};
use history::{BuriedCommand, Journalled};
use itoa::Buffer;
use std::alloc::Global;

fn state_word(done: bool) -> &'static [u8]
    ensures { result.now ≡ state_text done }
{
    if done { b" done " } else { b" undone " }
}

fn push_journalled(journalled: &Journalled, out: &mut Vec<u8>) -> Result<(), NoMemory>
    ensures { OnOk result (out.new.items ≡ out.old.items ++ journalled_line journalled.now) }
{
    let mut digits = Buffer::new();
    out.extend_from_slice(digits.format(journalled.ticket).as_bytes())?;
    out.extend_from_slice(state_word(journalled.done))?;
    push_command(&journalled.command, out)?;
    out.push(b'\n')?;
    Ok(())
}

fn push_commands(commands: &[Journalled], out: &mut Vec<u8>) -> Result<(), NoMemory>
    ensures { OnOk result (out.new.items ≡ out.old.items ++ flat_map journalled_line commands.now) }
{
    for journalled in commands {
        push_journalled(journalled, out)?;
    }
    Ok(())
}

/// The line of one command.
pub(crate) fn command_line(alloc: Global, journalled: &Journalled) -> Result<Vec<u8>, NoMemory>
    ensures { IfOk result (λ text. text.items ≡ journalled_line journalled.now) }
{
    let mut out = Vec::new(alloc);
    push_journalled(journalled, &mut out)?;
    Ok(out)
}

/// A line for each command, the oldest first, and `end`.
pub(crate) fn commands_lines(
    alloc: Global,
    commands: &Items<Journalled>,
) -> Result<Vec<u8>, NoMemory>
    ensures { IfOk result (λ text. text.items ≡ with_end (flat_map journalled_line commands.now ++ codes "end")) }
{
    let mut out = Vec::new(alloc);
    push_commands(commands.as_slice(), &mut out)?;
    out.extend_from_slice(b"end\n")?;
    Ok(out)
}

fn push_buried(buried: &BuriedCommand, out: &mut Vec<u8>) -> Result<(), NoMemory>
    ensures { OnOk result (out.new.items ≡ out.old.items ++ buried_line buried.now) }
{
    let mut digits = Buffer::new();
    out.extend_from_slice(digits.format(buried.ticket).as_bytes())?;
    out.extend_from_slice(b" by ")?;
    out.extend_from_slice(digits.format(buried.by).as_bytes())?;
    out.push(b'\n')?;
    Ok(())
}

fn push_all_buried(buried: &[BuriedCommand], out: &mut Vec<u8>) -> Result<(), NoMemory>
    ensures { OnOk result (out.new.items ≡ out.old.items ++ flat_map buried_line buried.now) }
{
    for one in buried {
        push_buried(one, out)?;
    }
    Ok(())
}

/// A line for each buried command, the oldest first, and `end`.
pub(crate) fn buried_lines(
    alloc: Global,
    buried: &Items<BuriedCommand>,
) -> Result<Vec<u8>, NoMemory>
    ensures { IfOk result (λ text. text.items ≡ with_end (flat_map buried_line buried.now ++ codes "end")) }
{
    let mut out = Vec::new(alloc);
    push_all_buried(buried.as_slice(), &mut out)?;
    out.extend_from_slice(b"end\n")?;
    Ok(out)
}
