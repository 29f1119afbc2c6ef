ghost use Rattle.std.specs.Prelude.{◌≡◌, ◌^◌};

use crate::MOST_REPORT_BYTES;

/// The most bytes of a report. Definitions cite the constant, so a wrong one would move them along.
pub fn limits_are()
    ensures report { MOST_REPORT_BYTES ≡ 2 ^ 30 }
{}
