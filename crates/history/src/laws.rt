//! The laws of undo, redo, flush, refusal and of the name to forget first, by the definitions alone.

ghost use Rattle.std.specs.Prelude.{◌≡◌, ◌≤◌, ℕ, List, Option, true, max, fold, map};
ghost use Rattle.dns_name.specs.Labels.{Labels, IsAtOrBelow};
ghost use Rattle.dns_text.specs.declared.record.Question.{Question};
ghost use Rattle.history.specs.declared.event.Entry.{Entry};
ghost use Rattle.history.specs.Event.{moment_of};
ghost use Rattle.history.specs.declared.event.Event.{Event};
ghost use Rattle.history.specs.declared.event.Event.TheVariants.{Sweep};
ghost use Rattle.history.specs.declared.event.Command.{Command};
ghost use Rattle.history.specs.declared.event.Settings.{Settings};
ghost use Rattle.history.specs.declared.event.Reply.{Reply};
ghost use Rattle.history.specs.History.{Past, past_of};
ghost use Rattle.history.specs.Flushes.{ForgetsBefore, LastFlushDecides};
ghost use Rattle.history.specs.Journal.{commands_of, tickets_done, tickets_of, IsUndoneByMarks};
ghost use Rattle.history.specs.Marks.{AreAscending};
ghost use Rattle.history.specs.Oldest.{IsOldest};
ghost use Rattle.history.specs.OldestFound.{oldest_of};
ghost use Rattle.history.specs.Previews.{NextUndoIsShown, NoUndoIsShown, PreviewGoesByMarks, PreviewIsRefusedAlike, PreviewSeesAhead};
ghost use Rattle.history.specs.Refusal.{ChangesOnlyClock, RefusalChangesOnlyClock};
ghost use Rattle.history.specs.Undo.{TakesBack};
ghost use Rattle.history.specs.Redo.{StandsAgain, UndoIsPutBack};
ghost use Rattle.history.specs.Servers.{servers_of};

use crate::event::{Event, Reply};

/// A command that is undone at once leaves what was in force before it. So local zones, records and stubs are what they were, and
/// from both moments on every cell shows what it would have shown.
/// The clock, the next ticket and what can be undone and redone may have changed.
pub fn undo_takes_back()
    ensures { (bound : ℕ) (history : List Event) (c : Command) → 1 ≤ bound → TakesBack bound history c }
{}

/// A redo right after an undo puts back what was in force before the undo, marks and all, and moves nothing but the clock.
/// So a command that is undone and redone at once is in force as though neither had been given.
pub fn redo_puts_back()
    ensures command { (bound : ℕ) (history : List Event) (c : Command) → 1 ≤ bound → StandsAgain bound history c }
    ensures undo { (settings : Settings) (history : List Event) → UndoIsPutBack settings history }
{}

/// What a preview shows is what a lookup at the same moment sees right after the undo or redo. One that would be refused is refused for
/// the same reason. Of the commands, those are in force that the marks after it leave unstruck.
/// The command that `what_undo` shows is the one that an undo takes back. It shows none only if an undo finds none.
pub fn preview_law()
    ensures granted { PreviewSeesAhead }
    ensures refused { PreviewIsRefusedAlike }
    ensures choice { PreviewGoesByMarks }
    ensures next { NextUndoIsShown }
    ensures none { NoUndoIsShown }
{}

/// A flush forgets what was before it: a cell that it covers depends only on what is in force after it.
/// So whichever commands are chosen to be in force, a cell is the same if of them only the last flush that covers it is in force.
pub fn flush_forgets()
    ensures after { (question : Question) (flush : Entry) → ForgetsBefore question flush }
    ensures last { (question : Question) → LastFlushDecides question }
{}

/// The name to forget first is the one whose last find ends first, over each choice of the commands of the journal. No other is.
pub fn oldest_law()
    ensures oldest { (past : Past) (t : ℕ) → IsOldest past t (oldest_of past t) }
    ensures only { (past : Past) (t : ℕ) (name : Option Labels) → IsOldest past t name → name ≡ oldest_of past t }
{}

/// The clock is the greatest moment given, by struck and refused commands too. It begins at 0.
pub fn clock_is_greatest()
    ensures { (bound : ℕ) (history : List Event) → (past_of bound history).now ≡ fold max 0 (map moment_of history) }
{}

/// A refused command, undo or redo changes nothing but the clock.
pub fn refusal_changes_only_the_clock()
    ensures { RefusalChangesOnlyClock }
{}

/// A sweep changes nothing but the clock.
pub fn sweep_changes_only_the_clock()
    ensures { (bound : ℕ) (history : List Event) (m : ℕ) → ChangesOnlyClock bound history (Sweep m) }
{}

/// The commands that can be undone are in the order of tickets, each once. So a redo puts a command back at the place that it had.
pub fn done_is_in_order()
    ensures { (bound : ℕ) (history : List Event) → AreAscending (past_of bound history).marks.done }
{}

/// Two values that `==` calls equal are one value, and each value is equal to itself.
pub fn equality_law()
    ensures events_exact { (a b : Event) → ⟦<Event as PartialEq>⟧.eq a b ≡ true → a ≡ b }
    ensures replies_exact { (a b : Reply) → ⟦<Reply as PartialEq>⟧.eq a b ≡ true → a ≡ b }
    ensures event_itself { (a : Event) → ⟦<Event as PartialEq>⟧.eq a a ≡ true }
    ensures reply_itself { (a : Reply) → ⟦<Reply as PartialEq>⟧.eq a a ≡ true }
{}

/// The commands of the journal are in the order of tickets. Those that are done are just those that can be undone, and the others
/// just those that can be redone.
pub fn journal_law()
    ensures order { (bound : ℕ) (history : List Event) → AreAscending (tickets_of (commands_of (past_of bound history))) }
    ensures done { (bound : ℕ) (history : List Event) → tickets_done (past_of bound history) ≡ (past_of bound history).marks.done }
    ensures undone { (bound : ℕ) (history : List Event) (ticket : ℕ) → IsUndoneByMarks (past_of bound history) ticket }
{}

/// A name is at or below the zone whose servers are asked about it.
pub fn servers_law()
    ensures { (settings : Settings) (past : Past) (name : Labels) (t : ℕ) → IsAtOrBelow name (servers_of settings past name t).zone }
{}
