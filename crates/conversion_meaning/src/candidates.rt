ghost use Rattle.std.specs.Prelude.{◌≡◌};
ghost use Rattle.conversion_meaning.specs.AnswerLaws.{ValueCostsRise, ValuesAreFew, ValuesAreOnce};

/// The most paths of a span that values are taken from.
pub const MOST_PATHS: usize = 1_000;

/// The most values of a span.
pub const MOST_VALUES: usize = 50;

/// The numbers of these limits. Definitions cite the constants, so a wrong one would move them along.
pub fn limits_are()
    ensures paths { MOST_PATHS ≡ 1000 }
    ensures values { MOST_VALUES ≡ 50 }
{}

/// No value of a span comes twice.
pub fn values_are_once()
    ensures { ValuesAreOnce }
{}

/// The costs of a span's values never fall.
pub fn value_costs_rise()
    ensures { ValueCostsRise }
{}

/// A span has no more values than [`MOST_VALUES`].
pub fn values_are_few()
    ensures { ValuesAreFew }
{}
