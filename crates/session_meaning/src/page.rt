ghost use Rattle.std.specs.Prelude.{◌≡◌};

/// The places of a page of candidates.
pub const PAGE_PLACES: usize = 9;

/// The number of this limit. Definitions cite the constant, so a wrong one would move them along.
pub fn page_limit_is()
    ensures { PAGE_PLACES ≡ 9 }
{}
