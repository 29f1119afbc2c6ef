ghost use Rattle.conversion_meaning.specs.Examples.{Kyouha, KyouhaCut, KyouhaAnswer, KyouhaChosen, KyouhaCutAnswer, KyouhaCutLists, KyouhaCutSegments, KyouhaFaults, KyouhaValues, KyoSuggestions, Mo, MoInOrder, Digits, DigitsAnswer, Spelled};

/// きょうは in the example's set: its entries, its best path and the certificate.
pub fn kyouha()
    ensures { Kyouha }
{}

/// The same with a bound after き.
pub fn kyouha_cut()
    ensures { KyouhaCut }
{}

/// Two words of one cost.
pub fn mo()
    ensures { Mo }
{}

/// A run of digits.
pub fn digits()
    ensures { Digits }
{}

/// What is wrong with changed certificates of きょうは.
pub fn kyouha_faults()
    ensures { KyouhaFaults }
{}

/// All paths of two words of one cost and a character, in order.
pub fn mo_in_order()
    ensures { MoInOrder }
{}

/// The values of きょうは: three of its paths repeat an earlier value.
pub fn kyouha_values()
    ensures { KyouhaValues }
{}

/// The answer to きょうは with a bound after き.
pub fn kyouha_cut_answer()
    ensures { KyouhaCutAnswer }
{}

/// The segments of that answer.
pub fn kyouha_cut_segments()
    ensures { KyouhaCutSegments }
{}

/// The answer to きょうは, its segment's candidates with those of the rules.
pub fn kyouha_answer()
    ensures { KyouhaAnswer }
{}

/// The answer with a bound after き.
pub fn kyouha_cut_lists()
    ensures { KyouhaCutLists }
{}

/// The answer to きょうは where 京は was chosen before.
pub fn kyouha_chosen()
    ensures { KyouhaChosen }
{}

/// The answer to a number.
pub fn digits_answer()
    ensures { DigitsAnswer }
{}

/// Numbers with their units.
pub fn spelled_numbers()
    ensures { Spelled }
{}

/// What is suggested for きょ.
pub fn kyo_suggestions()
    ensures { KyoSuggestions }
{}
