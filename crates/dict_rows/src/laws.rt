ghost use Rattle.std.specs.Prelude.{◌≡◌, ℕ, List, Ok};
ghost use Rattle.mz_base.specs.declared.data.WordRow.{WordRow};
ghost use Rattle.dict_rows.specs.Rows.{word_rows};
ghost use Rattle.dict_rows.specs.Words.{AreWords};

/// After rows within their limits a file gives rows within their limits.
pub fn rows_are_words()
    ensures { (ids : ℕ) (before : List WordRow) (bytes : List ℕ) (rows : List WordRow) → word_rows ids before bytes ≡ Ok rows → AreWords ids before → AreWords ids rows }
{}
