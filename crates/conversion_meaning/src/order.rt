ghost use Rattle.conversion_meaning.specs.Laws.{OneIsBefore, BeforeGoesOn};

/// Of two different paths exactly one is before the other.
pub fn one_is_before()
    ensures { OneIsBefore }
{}

/// 'Before' is transitive.
pub fn before_goes_on()
    ensures { BeforeGoesOn }
{}
