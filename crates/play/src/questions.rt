//! Names and questions in a line.

use dns_name::Name;
use dns_text::{Question, next_word, read_type};
use std::alloc::Global;

/// The name that a text begins with.
pub fn name_in(alloc: Global, text: &[u8]) -> Option<Name> {
    let (word, _) = next_word(text)?;
    Name::from_text(alloc, word).ok()
}

/// The question that a text begins with: a name and a type.
pub fn question_in(alloc: Global, text: &[u8]) -> Option<Question> {
    let owner = name_in(alloc, text)?;
    let (_, rest) = next_word(text)?;
    let (word, _) = next_word(rest)?;
    let kind = read_type(word).ok()?;
    Some(Question { owner, kind })
}
