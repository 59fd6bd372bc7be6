//! The octets with which an operator's line may begin.

ghost use Rattle.std.specs.Prelude.{◌↔◌, IsTrue};
ghost use Rattle.std.specs.List.{AllByRecursion};
ghost use Rattle.command_text.specs.Words.{commands};
ghost use Rattle.operators.specs.Operator.{BeginsLine, BeginsAsLine};

/// Whether a line may begin with this octet: every command begins with a small letter. What browsers send begins with a capital
/// letter (HTTP), or with an octet that is no character (TLS, WebRTC).
pub(crate) fn begins_line(octet: u8) -> bool
    ensures { IsTrue result ↔ BeginsLine octet }
{
    matches!(octet, b'a'..=b'z' | b'#' | b' ' | b'\t' | b'\r' | b'\n')
}

/// Whether these octets begin as a line may.
pub(crate) fn begins_as_line(octets: &[u8]) -> bool
    ensures { IsTrue result ↔ BeginsAsLine octets.now }
{
    match octets.first() {
        Some(first) => begins_line(*first),
        None => false,
    }
}

/// Every command begins as a line may, so no operator is turned away.
pub(crate) fn commands_law()
    ensures { AllByRecursion (λ row. BeginsAsLine row.word) commands }
{}
