ghost use Rattle.std.specs.Prelude.{◌≡◌};
ghost use Rattle.session_meaning.specs.HistoryLaws.{RelearnedIsSame};

/// The most pairs of a history.
pub const MOST_PAIRS: usize = 1_000;

/// The number of this limit. Definitions cite the constant, so a wrong one would move them along.
pub fn history_limit_is()
    ensures { MOST_PAIRS ≡ 1000 }
{}

/// A history comes again where its pairs are learned from the last to the first.
pub fn relearned_history_is_same()
    ensures { RelearnedIsSame }
{}
