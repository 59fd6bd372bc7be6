//! The data of a set, separated by bars.

ghost use Rattle.std.specs.Prelude.{◌≡◌, ◌<◌, [], ◌∷◌, length, MatchOption};
ghost use Rattle.command_text.specs.Bar.{pieces};

use dns_text::next_word;

/// The text before the first word that is a bar alone, and the text after it. None if there is no such word.
pub fn cut_at_bar(text: &[u8]) -> Option<(&[u8], &[u8])>
    ensures cut { MatchOption result (pieces text.now ≡ text.now ∷ []) (λ r. pieces text.now ≡ r.0.now ∷ pieces r.1.now) }
    ensures shorter { MatchOption result Unit (λ r. length r.1.now < length text.now) }
{
    let mut rest = text;
    while let Some((word, after)) = next_word(rest) {
        if word == b"|".as_slice() {
            return Some((&text[..text.len() - after.len() - 1], after));
        }
        rest = after;
    }
    None
}
