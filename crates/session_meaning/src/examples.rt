ghost use Rattle.session_meaning.specs.Examples.{KyoSuggests, KyouhaConverts, KyouhaIsCommitted, KyouhaNarrows, SecondIsLearned, SecondIsTaken, ThirdPasses};

/// kyo shows きょ, and suggests 今日 and 京.
pub fn kyo_suggests()
    ensures { KyoSuggests }
{}

/// The second suggestion is committed, and learned with its own reading.
pub fn second_is_taken()
    ensures line { SecondIsTaken }
    ensures learned { SecondIsLearned }
{}

/// There is no third suggestion.
pub fn third_passes()
    ensures { ThirdPasses }
{}

/// kyouha is one segment of eight values.
pub fn kyouha_converts()
    ensures { KyouhaConverts }
{}

/// Made narrower, it is 今日 before は.
pub fn kyouha_narrows()
    ensures { KyouhaNarrows }
{}

/// A character commits what is converted, and begins anew.
pub fn kyouha_is_committed()
    ensures { KyouhaIsCommitted }
{}
