//! What follows from the definitions of specs/Kana.antt, Folds.antt, Rows.antt, Latest.antt, Ordered.antt and
//! ByName.antt, for all rules, texts and files.
//! A caller of these learns them; nothing runs.

ghost use Rattle.std.specs.Prelude.{◌≡◌, ◌↔◌, ℕ, ◌<◌, ◌≤◌, IsTrue, true, false, Bool, not, List, [], ◌∷◌, ◌++◌, Some, None, filter, length};
ghost use Rattle.std.specs.Cmp.{IsStrictWeakOrder};
ghost use Rattle.std.specs.List.{Contains};
ghost use Rattle.std.specs.List.Sorted.{IsPermutation, IsSortedBy, IsStableBy};
ghost use Rattle.mz_base.specs.ByName.{RiseByName, latest_by_name, same_name};
ghost use Rattle.mz_base.specs.Folds.{katakana, hiragana, full_width, half_width};
ghost use Rattle.mz_base.specs.Latest.{latest};
ghost use Rattle.mz_base.specs.Ordered.{in_order};
ghost use Rattle.mz_base.specs.Kana.{AreRules, fits, longest, turn, after_output, waits, kana, finish};
ghost use Rattle.mz_base.specs.declared.romaji.Rule.{Rule};

/// Where nothing is typed, or more may come, nothing is shown yet and the text is pending.
pub fn kana_waits()
    ensures { (rules : List Rule) (text : List ℕ) → IsTrue (waits rules text) →
        kana rules text ≡ record { output = []; pending = text } }
{}

/// Any other text gives a turn's output, and then the kana of what the turn leaves.
pub fn kana_goes_on()
    ensures { (rules : List Rule) (text : List ℕ) → AreRules rules → waits rules text ≡ false →
        let step = turn (longest rules text) text in
        kana rules text ≡ after_output step.output (kana rules step.pending) }
{}

/// What is pending waits, and what is typed after a text changes none of its kana: only what is pending goes on with it.
pub fn kana_grows()
    ensures waits { (rules : List Rule) (text : List ℕ) → AreRules rules → IsTrue (waits rules (kana rules text).pending) }
    ensures grows { (rules : List Rule) (text more : List ℕ) → AreRules rules →
        let shown = kana rules text in
        kana rules (text ++ more) ≡ after_output shown.output (kana rules (shown.pending ++ more)) }
{}

/// Of no text the finished text is empty; any other gives a turn's output, and then the finished text of what the
/// turn leaves.
pub fn finish_goes_on()
    ensures ends { (rules : List Rule) → finish rules [] ≡ [] }
    ensures goes_on { (rules : List Rule) (text : List ℕ) → AreRules rules → 0 < length text →
        let step = turn (longest rules text) text in
        finish rules text ≡ step.output ++ finish rules step.pending }
{}

/// The longest rule is one of the rules, it fits, and none that fits is longer. There is none exactly where no rule
/// fits.
pub fn longest_is_longest()
    ensures one_of { (rules : List Rule) (text : List ℕ) (rule : Rule) → longest rules text ≡ Some rule → Contains rules rule }
    ensures fits { (rules : List Rule) (text : List ℕ) (rule : Rule) → longest rules text ≡ Some rule → IsTrue (fits text rule) }
    ensures none_longer { (rules : List Rule) (text : List ℕ) (rule other : Rule) → longest rules text ≡ Some rule →
        Contains rules other → IsTrue (fits text other) → length other.input ≤ length rule.input }
    ensures none { (rules : List Rule) (text : List ℕ) → (longest rules text ≡ None) ↔ ((rule : Rule) → Contains rules rule → fits text rule ≡ false) }
{}

/// A fold applied twice is applied once.
pub fn folds_hold()
    ensures katakana { (text : List ℕ) → katakana (katakana text) ≡ katakana text }
    ensures hiragana { (text : List ℕ) → hiragana (hiragana text) ≡ hiragana text }
    ensures full_width { (text : List ℕ) → full_width (full_width text) ≡ full_width text }
    ensures half_width { (text : List ℕ) → half_width (half_width text) ≡ half_width text }
{}

/// Of hiragana and katakana the later fold alone counts.
pub fn kana_folds_undo()
    ensures hiragana { (text : List ℕ) → hiragana (katakana text) ≡ hiragana text }
    ensures katakana { (text : List ℕ) → katakana (hiragana text) ≡ katakana text }
{}

/// Three of the folds keep the number of characters.
pub fn folds_keep_length()
    ensures katakana { (text : List ℕ) → length (katakana text) ≡ length text }
    ensures hiragana { (text : List ℕ) → length (hiragana text) ≡ length text }
    ensures full_width { (text : List ℕ) → length (full_width text) ≡ length text }
{}

/// Of repeated rows the later holds: a further row takes the place of the one that it repeats, and goes last. `same` says
/// which rows repeat each other, as two rules of one input do.
pub fn later_row_holds<T>()
    ensures none { (same : T → T → Bool) → latest same [] ≡ [] }
    ensures further { (same : T → T → Bool) (rows : List T) (row : T) →
        latest same (rows ++ row ∷ []) ≡ filter (λ other. not (same other row)) (latest same rows) ++ row ∷ [] }
{}

/// Items in order are the same items, and none comes before an earlier one. Those of which neither comes before the
/// other stand as they stood.
pub fn order_holds<T>()
    ensures same { (before : T → T → Bool) (items : List T) → IsPermutation items (in_order before items) }
    ensures sorted { (before : T → T → Bool) (items : List T) → IsStrictWeakOrder before → IsSortedBy before (in_order before items) }
    ensures stable { (before : T → T → Bool) (items : List T) → IsStrictWeakOrder before → IsStableBy before items (in_order before items) }
{}

/// Rows in the order of their names are those that no later row of their name repeats, and the names rise.
pub fn names_rise<T>()
    ensures same { (name : T → List ℕ) (rows : List T) → IsPermutation (latest (same_name name) rows) (latest_by_name name rows) }
    ensures rise { (name : T → List ℕ) (rows : List T) → RiseByName name (latest_by_name name rows) }
{}
