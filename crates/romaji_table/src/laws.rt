ghost use Rattle.std.specs.Prelude.{◌≡◌, ℕ, List, ◌++◌, ◌∷◌, Ok, false};
ghost use Rattle.std.specs.List.{All, Contains, list_any};
ghost use Rattle.mz_base.specs.Kana.{AreDistinct, AreRules};
ghost use Rattle.std.specs.List.Sorted.{IsPermutation};
ghost use Rattle.mz_base.specs.Latest.{latest};
ghost use Rattle.mz_base.specs.declared.romaji.Rule.{Rule};
ghost use Rattle.romaji_table.specs.Inputs.{RiseByInput, same_input};
ghost use Rattle.romaji_table.specs.Rows.{line_rules, romaji_rows};

/// Of repeated inputs the last row holds.
pub fn law_of_repeats()
    // Each rule that is kept is a row, and no two have one input.
    ensures rows { (rows : List Rule) → All (Contains rows) (latest same_input rows) }
    ensures distinct { (rows : List Rule) → AreDistinct (latest same_input rows) }

    // A row that no later row repeats is kept.
    ensures last { (before after : List Rule) (row : Rule) → list_any (same_input row) after ≡ false → Contains (latest same_input (before ++ row ∷ after)) row }
{}

/// The rules that a file gives are those of a table.
pub fn rows_are_rules()
    ensures { (bytes : List ℕ) (rules : List Rule) → romaji_rows bytes ≡ Ok rules → AreRules rules }
{}

/// The rules that a file gives are the rows of its lines that no later row of their input repeats, and the inputs rise.
pub fn rows_rise()
    ensures same { (bytes : List ℕ) (rows : List Rule) (rules : List Rule) → line_rules bytes ≡ Ok rows → romaji_rows bytes ≡ Ok rules → IsPermutation (latest same_input rows) rules }
    ensures rise { (bytes : List ℕ) (rules : List Rule) → romaji_rows bytes ≡ Ok rules → RiseByInput rules }
{}
