//! Words that many commands have.

ghost use Rattle.std.specs.Prelude.{◌≡◌, Ok, IsTrue, IfErr, IsErrOf, is_ok};
ghost use Rattle.dns_name.specs.Results.{or_fault, result_map};
ghost use Rattle.dns_text.specs.Field.{named};
ghost use Rattle.dns_text.specs.Kind.{type_in};
ghost use Rattle.command_text.specs.declared.fault.LineFault.TheVariants.{Missing, BadName, BadType, NoMemory};
ghost use Rattle.command_text.specs.Fault.{Gives};
ghost use Rattle.command_text.specs.Parts.{word_in, ends, question_words, needs_question, question_in, only_name};

use crate::fault::LineFault;
use dns_name::{Name, NameFault};
use dns_text::{Question, next_word, read_type};
use std::alloc::Global;

/// The next word, which must be there, and the text after it.
pub(crate) fn read_word(text: &[u8]) -> Result<(&[u8], &[u8]), LineFault>
    ensures value { result_map (λ r. (r.0.now, r.1.now)) result ≡ word_in text.now }
    ensures fault { IfErr result (λ e. e ≡ Missing) }
{
    next_word(text).ok_or(LineFault::Missing)
}

/// Fails if a word is left.
pub(crate) fn read_end(text: &[u8]) -> Result<(), LineFault>
    ensures { result ≡ ends text.now }
{
    match next_word(text) {
        None => Ok(()),
        Some(_) => Err(LineFault::BadData),
    }
}

pub(crate) fn read_name(alloc: Global, word: &[u8]) -> Result<Name, LineFault>
    ensures { Gives result (or_fault BadName (named word.now)) }
{
    match Name::from_text(alloc, word) {
        Ok(name) => Ok(name),
        Err(NameFault::NoMemory) => Err(LineFault::NoMemory),
        Err(_) => Err(LineFault::BadName),
    }
}

pub(crate) fn read_kind(word: &[u8]) -> Result<u16, LineFault>
    ensures { result ≡ or_fault BadType (type_in word.now) }
{
    match read_type(word) {
        Ok(kind) => Ok(kind),
        Err(_) => Err(LineFault::BadType),
    }
}

/// `NAME TYPE` and no more.
#[tactic(auto, unfolding(crate::specs::Parts::question_words, crate::specs::Parts::question_of, crate::specs::Parts::question_in))]
pub(crate) fn read_question(alloc: Global, text: &[u8]) -> Result<Question, LineFault>
    ensures value { Gives result (question_in text.now) }
    ensures no_memory { IsErrOf result NoMemory → IsTrue (is_ok (question_words text.now)) }
{
    let (name, rest) = read_word(text)?;
    let (kind, rest) = read_word(rest)?;
    let owner = read_name(alloc, name)?;
    let kind = read_kind(kind)?;
    read_end(rest)?;
    Ok(Question { owner, kind })
}

/// Fails if one of the words `NAME TYPE` is missing.
#[tactic(auto, unfolding(crate::specs::Parts::question_words, crate::specs::Parts::needs_question))]
pub(crate) fn need_question(text: &[u8]) -> Result<(), LineFault>
    ensures value { result ≡ needs_question text.now }
    ensures fault { IfErr result (λ e. e ≡ Missing) }
{
    let (_, rest) = read_word(text)?;
    let _ = read_word(rest)?;
    Ok(())
}

/// `NAME` and no more.
#[tactic(auto, unfolding(crate::specs::Parts::name_of, crate::specs::Parts::only_name))]
pub(crate) fn read_only_name(alloc: Global, text: &[u8]) -> Result<Name, LineFault>
    ensures value { Gives result (only_name text.now) }
    ensures no_memory { IsErrOf result NoMemory → IsTrue (is_ok (word_in text.now)) }
{
    let (word, rest) = read_word(text)?;
    let name = read_name(alloc, word)?;
    read_end(rest)?;
    Ok(name)
}
