//! The words of the commands on local zones and local data.

ghost use Rattle.std.specs.Prelude.{◌≡◌, Ok, IsTrue, IsErrOf, is_ok};
ghost use Rattle.dns_name.specs.Results.{or_fault};
ghost use Rattle.dns_text.specs.Record.{record_in};
ghost use Rattle.local_zone.specs.ZoneType.{zone_type_in};
ghost use Rattle.command_text.specs.declared.fault.LineFault.TheVariants.{BadType, NoMemory};
ghost use Rattle.command_text.specs.Fault.{Gives};
ghost use Rattle.command_text.specs.Parts.{word_in, question_words};
ghost use Rattle.command_text.specs.Local.{set_zone_in, drop_zone_in, drop_name_in, record_fault, of_line, record_words, add_record_in};

use crate::common_words::{read_end, read_name, read_only_name, read_word};
use crate::fault::LineFault;
use dns_text::{Record, Shared, TextFault, read_record};
use history::Command;
use local_zone::{ZoneType, read_zone_type};
use std::alloc::Global;

fn read_kind_of_zone(word: &[u8]) -> Result<ZoneType, LineFault>
    ensures { result ≡ or_fault BadType (zone_type_in word.now) }
{
    read_zone_type(word).ok_or(LineFault::BadType)
}

/// `NAME TYPE` and no more.
#[tactic(auto, unfolding(crate::specs::Parts::question_words, crate::specs::Local::zone_of, crate::specs::Local::set_zone_in))]
pub(crate) fn read_set_zone(alloc: Global, text: &[u8]) -> Result<Command, LineFault>
    ensures value { Gives result (set_zone_in text.now) }
    ensures no_memory { IsErrOf result NoMemory → IsTrue (is_ok (question_words text.now)) }
{
    let (name, rest) = read_word(text)?;
    let (kind, rest) = read_word(rest)?;
    let name = read_name(alloc, name)?;
    let kind = read_kind_of_zone(kind)?;
    read_end(rest)?;
    Ok(Command::SetZone { name, kind })
}

/// `NAME` and no more.
#[tactic(auto, unfolding(crate::specs::Local::drop_zone_in))]
pub(crate) fn read_drop_zone(alloc: Global, text: &[u8]) -> Result<Command, LineFault>
    ensures value { Gives result (drop_zone_in text.now) }
    ensures no_memory { IsErrOf result NoMemory → IsTrue (is_ok (word_in text.now)) }
{
    let name = read_only_name(alloc, text)?;
    Ok(Command::DropZone { name })
}

/// `NAME` and no more.
#[tactic(auto, unfolding(crate::specs::Local::drop_name_in))]
pub(crate) fn read_drop_name(alloc: Global, text: &[u8]) -> Result<Command, LineFault>
    ensures value { Gives result (drop_name_in text.now) }
    ensures no_memory { IsErrOf result NoMemory → IsTrue (is_ok (word_in text.now)) }
{
    let name = read_only_name(alloc, text)?;
    Ok(Command::DropName { name })
}

impl From<TextFault> for LineFault {
    ghost use Rattle.command_text.specs.Local.{record_fault};

    ghost from_gives = { λ fault e. e ≡ record_fault fault };

    fn from(fault: TextFault) -> LineFault {
        match fault {
            TextFault::BadName => LineFault::BadName,
            TextFault::BadTtl | TextFault::BadData => LineFault::BadData,
            TextFault::BadType => LineFault::BadType,
            TextFault::NoMemory => LineFault::NoMemory,
        }
    }
}

/// Fails if the text has fewer words than the shortest record.
#[tactic(auto, unfolding(crate::specs::Local::record_words))]
fn check_record_words(text: &[u8]) -> Result<(), LineFault>
    ensures value { result ≡ record_words text.now }
    ensures memory { IsErrOf result NoMemory → ⊥ }
{
    let (_, rest) = read_word(text)?;
    let (_, rest) = read_word(rest)?;
    read_word(rest)?;
    Ok(())
}

fn read_shared(alloc: Global, text: &[u8]) -> Result<Shared<Record>, LineFault>
    ensures { Gives result (of_line (record_in text.now)) }
{
    let record = read_record(alloc, text)?;
    Ok(Shared::new(alloc, record)?)
}

/// `RECORD` and no more.
#[tactic(auto, unfolding(crate::specs::Local::add_record_in))]
pub(crate) fn read_add_record(alloc: Global, text: &[u8]) -> Result<Command, LineFault>
    ensures value { Gives result (add_record_in text.now) }
    ensures no_memory { IsErrOf result NoMemory → IsTrue (is_ok (record_words text.now)) }
{
    check_record_words(text)?;
    let record = read_shared(alloc, text)?;
    Ok(Command::AddRecord { record })
}
