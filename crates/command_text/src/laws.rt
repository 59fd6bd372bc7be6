//! Laws of the definitions alone.

ghost use Rattle.std.specs.Prelude.{◌≡◌, ℕ, List, [], ◌∷◌, None, codes};
ghost use Rattle.std.specs.List.{AllByRecursion};
ghost use Rattle.dns_text.specs.Word.{next_word, AreWords};
ghost use Rattle.command_text.specs.Addrs.{words_of};
ghost use Rattle.command_text.specs.Bar.{BarsEndPieces, WordsGoOnInPieces, pieces};
ghost use Rattle.command_text.specs.CommandWords.{ReadsCommands};
ghost use Rattle.command_text.specs.Line.{IsUnknown};
ghost use Rattle.command_text.specs.Words.{script_words};
ghost use Rattle.command_text.specs.declared.words.Channel.TheVariants.{Script, Control};

use dns_text::written_law;

/// The pieces of a text, by its words: a word that is a bar alone ends a piece, with the blanks before it.
/// Any other word is part of its piece.
pub fn bars_are()
    ensures none { (text : List ℕ) → next_word text ≡ None → pieces text ≡ text ∷ [] }
    ensures bar { BarsEndPieces }
    ensures word { WordsGoOnInPieces }
{}

/// The words that addresses are read from are those of the text and no others.
pub fn words_are()
    ensures only { (text : List ℕ) (words : List (List ℕ)) → AreWords text words → words_of text ≡ words }
    ensures some { (text : List ℕ) → AreWords text (words_of text) }
{}

/// The control socket does not know the lines that only scripts have, and scripts do not know `stop`, `status` and `stats`,
/// whatever follows the word.
pub fn channels_are_apart()
    ensures control { AllByRecursion (IsUnknown Control) script_words }
    ensures script { AllByRecursion (IsUnknown Script) (codes "stop" ∷ codes "status" ∷ codes "stats" ∷ []) }
{}

/// The line that gives a command is read back as that command, in a script and on the control socket.
pub fn commands_are_read_back()
    ensures { ReadsCommands }
{
    written_law();
}
