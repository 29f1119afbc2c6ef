ghost use Rattle.std.specs.Prelude.{◌≡◌};

/// The most suggestions for a base.
pub const MOST_SUGGESTIONS: usize = 9;

/// The number of this limit. Definitions cite the constant, so a wrong one would move them along.
pub fn suggestion_limit_is()
    ensures { MOST_SUGGESTIONS ≡ 9 }
{}
