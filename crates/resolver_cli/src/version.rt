//! The version of the program, for whoever asks for it alone.

ghost use Rattle.std.specs.Prelude.{◌≡◌, ◌↔◌, codes, map, IsTrue};
ghost use Rattle.resolver_cli.specs.Version.{AsksVersion};

use operators::CliFault;
use resolver_args::VERSION;

/// Whether a word is the option that asks for the version.
fn is_option(word: &str) -> bool
    ensures { IsTrue result ↔ (word.now ≡ codes "--version") }
{
    word == "--version"
}

/// Whether these arguments ask for the version alone. The first is the program's own name, and is not looked at.
pub(crate) fn asks_version(words: &[String]) -> bool
    ensures { IsTrue result ↔ AsksVersion (map (λ word. word.bytes.items) words.now) }
{
    words.len() == 2 && is_option(words[1].as_str())
}

/// Writes the version as a line to standard output.
pub(crate) fn show_version<R: Print>(rt: &R) -> Result<(), CliFault> {
    match println!(rt; "resolver {VERSION}") {
        Ok(()) => Ok(()),
        Err(_) => Err(CliFault::failed_write()),
    }
}
