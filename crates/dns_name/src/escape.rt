//! Escapes in text, of names and of other words.

ghost use Rattle.std.specs.Prelude.{◌≡◌, ◌+◌, ◌<◌, ◌≤◌, length, IfSome};
ghost use Rattle.dns_name.specs.Reading.{escape_in};

/// The octet of an escape, from the text after its backslash, and how many octets of text the escape takes, with the
/// backslash. Three digits are the octet's number; any other printable octet is itself (RFC 1035, section 5.1). None if
/// the escape is unfinished, above 255 or not printable.
pub fn read_escape(text: &[u8]) -> Option<(u8, usize)>
    ensures value { result ≡ escape_in text.now }
    ensures within { IfSome result (λ a. (0 < a.1) × (a.1 ≤ length text.now + 1)) }
{
    let x = *text.first()?;
    if !x.is_ascii_digit() {
        return if x.is_ascii_graphic() {
            Some((x, 2))
        } else {
            None
        };
    }
    match text {
        [_, y, z, ..] => {
            if !y.is_ascii_digit() || !z.is_ascii_digit() {
                return None;
            }
            let value = u16::from(x - b'0') * 100
                + u16::from(*y - b'0') * 10
                + u16::from(*z - b'0');
            if value < 256 {
                Some((value as u8, 4))
            } else {
                None
            }
        }
        _ => None,
    }
}
