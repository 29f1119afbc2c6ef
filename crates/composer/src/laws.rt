//! What follows from the definitions of specs/Composing.antt, for all rules and all compositions.
//! A caller of these learns them; nothing runs.

ghost use Rattle.std.specs.Prelude.{◌≡◌, ◌<◌, ◌+◌, List, [], ◌++◌, length, take, drop};
ghost use Rattle.mz_base.specs.Kana.{AreRules};
ghost use Rattle.mz_base.specs.declared.romaji.Rule.{Rule};
ghost use Rattle.composer.specs.Composing.{Composing, backspaced, cursor_of, deleted, fixed, front_of, moved_end, moved_home, moved_left, moved_right, preedit_of, reading_of, without_last};

use crate::composer::MOST_SHOWN;

/// Backspace takes the one shown character that stands before the cursor, if there is one, be it pending or kana.
pub fn backspace_takes_one_shown()
    ensures { (rules : List Rule) (c : Composing) → AreRules rules →
        preedit_of rules (backspaced rules c) ≡ without_last (front_of rules c) ++ c.right }
{}

/// After delete and after a move nothing is left that more typing could still change: the run is empty.
pub fn moves_leave_no_run()
    ensures delete { (rules : List Rule) (c : Composing) → (deleted rules c).run ≡ [] }
    ensures left { (rules : List Rule) (c : Composing) → (moved_left rules c).run ≡ [] }
    ensures right { (rules : List Rule) (c : Composing) → (moved_right rules c).run ≡ [] }
    ensures home { (rules : List Rule) (c : Composing) → (moved_home rules c).run ≡ [] }
    ensures end { (rules : List Rule) (c : Composing) → (moved_end rules c).run ≡ [] }
{}

/// A move shows the reading from before.
pub fn moves_show_the_reading()
    ensures left { (rules : List Rule) (c : Composing) → preedit_of rules (moved_left rules c) ≡ reading_of rules c }
    ensures right { (rules : List Rule) (c : Composing) → preedit_of rules (moved_right rules c) ≡ reading_of rules c }
    ensures home { (rules : List Rule) (c : Composing) → preedit_of rules (moved_home rules c) ≡ reading_of rules c }
    ensures end { (rules : List Rule) (c : Composing) → preedit_of rules (moved_end rules c) ≡ reading_of rules c }
{}

/// Left and then right only fix the run, where the finished run and what stands before it are not empty.
pub fn right_undoes_left()
    ensures { (rules : List Rule) (c : Composing) → 0 < length (fixed rules c).left → moved_right rules (moved_left rules c) ≡ fixed rules c }
{}

/// Delete takes from the reading the one character after the cursor, which stands behind the finished run, if there is one.
pub fn delete_takes_one_of_the_reading()
    ensures { (rules : List Rule) (c : Composing) → let cursor = cursor_of rules (fixed rules c) in
        reading_of rules (deleted rules c) ≡ take cursor (reading_of rules c) ++ drop (cursor + 1) (reading_of rules c) }
{}

/// The most characters of a preedit to which one is added. The definition cites the constant, so a wrong one would move it
/// along.
pub fn limits_are()
    ensures shown { MOST_SHOWN ≡ 256 }
{}
