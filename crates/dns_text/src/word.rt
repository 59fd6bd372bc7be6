//! Words of a line.

ghost use Rattle.std.specs.Prelude.{◌≡◌, ◌<◌, length, option_map, IfSome};
ghost use Rattle.dns_text.specs.Word.{after_octet, cut_word, skip_blanks, next_word, only_word, cut_at};

/// The state within a word after some of its octets.
#[derive(Clone, Copy)]
pub enum Within {
    /// Outside quotes.
    Plain,
    /// Inside quotes.
    Quotes,
    /// Behind a backslash, outside quotes.
    Escape,
    /// Behind a backslash, inside quotes.
    QuotedEscape,
}

/// The state after one more octet of a word; none if the octet is a blank that ends the word.
fn after_octet(within: Within, b: u8) -> Option<Within>
    ensures { result ≡ after_octet within b }
{
    match within {
        Within::QuotedEscape => Some(Within::Quotes),
        Within::Escape => match b {
            b' ' | b'\t' => None,
            _ => Some(Within::Plain),
        },
        Within::Plain => match b {
            b'\\' => Some(Within::Escape),
            b'"' => Some(Within::Quotes),
            b' ' | b'\t' => None,
            _ => Some(Within::Plain),
        },
        Within::Quotes => match b {
            b'\\' => Some(Within::QuotedEscape),
            b'"' => Some(Within::Plain),
            _ => Some(Within::Quotes),
        },
    }
}

/// The word at the front of a text, and the text from the blank after it on.
#[tactic(auto, unfolding(crate::specs::Word::cut_word))]
fn cut_word(text: &[u8]) -> (&[u8], &[u8])
    ensures { (result.0.now, result.1.now) ≡ cut_word Within.Plain text.now }
{
    let mut within = Within::Plain;
    for (i, b) in text.iter().enumerate() {
        let Some(next) = after_octet(within, *b) else {
            return (&text[..i], &text[i..]);
        };
        within = next;
    }
    (text, &[])
}

/// The text from the first octet that is no blank.
fn skip_blanks(text: &[u8]) -> &[u8]
    ensures { result.now ≡ skip_blanks text.now }
{
    let mut rest = text;
    while let [b' ' | b'\t', more @ ..] = rest {
        rest = more;
    }
    rest
}

/// The first word of a text as it is written, with its quotes, and the text after it.
pub fn next_word(text: &[u8]) -> Option<(&[u8], &[u8])>
    ensures value { option_map (λ r. (r.0.now, r.1.now)) result ≡ next_word text.now }
    ensures less { IfSome result (λ r. length r.1.now < length text.now) }
{
    first_word(text)
}

/// The same, without a bound on the length of the rest.
fn first_word(text: &[u8]) -> Option<(&[u8], &[u8])>
    ensures { option_map (λ r. (r.0.now, r.1.now)) result ≡ next_word text.now }
{
    let rest = skip_blanks(text);
    if rest.is_empty() {
        return None;
    }
    Some(cut_word(rest))
}

/// The only word of a text.
pub(crate) fn only_word(text: &[u8]) -> Option<&[u8]>
    ensures { option_map (λ r. r.now) result ≡ only_word text.now }
{
    let (word, rest) = next_word(text)?;
    match next_word(rest) {
        None => Some(word),
        Some(_) => None,
    }
}

/// The text before the first such octet, and the text after it.
pub(crate) fn cut_at(octet: u8, text: &[u8]) -> Option<(&[u8], &[u8])>
    ensures value { option_map (λ r. (r.0.now, r.1.now)) result ≡ cut_at octet text.now }
    ensures less { IfSome result (λ r. length r.1.now < length text.now) }
{
    for (i, b) in text.iter().enumerate() {
        if *b == octet {
            return Some((&text[..i], &text[i + 1..]));
        }
    }
    None
}
