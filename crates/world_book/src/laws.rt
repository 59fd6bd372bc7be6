//! Laws: the replay of a log is the replay of its deeds.

ghost use Rattle.std.specs.Prelude.{◌≡◌, ℕ, Bool, List, Some, true};
ghost use Rattle.change_law.specs.Face.{IsSame};
ghost use Rattle.world_book.specs.Course.{face_by, struck_with, struck_without};
ghost use Rattle.history.specs.declared.event.Entry.{Entry};
ghost use Rattle.history.specs.Marks.{Marks, is_struck, strike, restore};
ghost use Rattle.world_book.specs.Deeds.{deeds_of, empty_face, face_of};

/// For any choice of commands, a replay of the deeds of a log shows what is in force of the log.
pub fn deeds_law()
    ensures { (chosen : ℕ → Bool) (log : List Entry) → IsSame (face_by true chosen empty_face (deeds_of log)) (face_of chosen log) }
{}

/// What an undo and a redo strike, by the marks and by the course.
pub fn struck_law()
    ensures undo { (marks : Marks) (t : ℕ) → is_struck (strike marks t) ≡ struck_with (is_struck marks) (Some t) }
    ensures redo { (marks : Marks) (t : ℕ) → is_struck (restore marks t) ≡ struck_without (is_struck marks) (Some t) }
{}
