ghost use Rattle.std.specs.Prelude.{◌≡◌, [], ◌∷◌};

/// The kanji of the digits 0 to 9.
pub const KANJI_DIGITS: [char; 10] = ['〇', '一', '二', '三', '四', '五', '六', '七', '八', '九'];

/// The most digits of a number that is written in other ways.
pub const MOST_DIGITS: usize = 16;

/// The numbers of the rules of a conversion, in their order: what was chosen before comes first of all that the others leave.
pub const RULE_ORDER: [u8; 6] = [2, 3, 4, 5, 6, 1];

/// The order of the rules. Definitions cite the constant, so another one would move them along.
pub fn rule_order_is()
    ensures { RULE_ORDER ≡ 2 ∷ 3 ∷ 4 ∷ 5 ∷ 6 ∷ 1 ∷ [] }
{}

/// The number of this limit. Definitions cite the constant, so a wrong one would move them along.
pub fn digit_limit_is()
    ensures { MOST_DIGITS ≡ 16 }
{}
