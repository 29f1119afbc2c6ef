ghost use Rattle.std.specs.Prelude.{◌≡◌};

use crate::reader::FIRST_COST_LINE;

/// The most bytes that the costs of a matrix take: 64 MiB, four for each pair of the most ids.
pub const MOST_BYTES: usize = 1 << 26;

/// The number of each constant of this crate. Definitions cite them, so a wrong one would move them along.
pub fn limits_are()
    ensures bytes { MOST_BYTES ≡ 67108864 }
    ensures first_cost_line { FIRST_COST_LINE ≡ 2 }
{}
