ghost use Rattle.conversion_meaning.specs.Laws.{BestGivesLeastCost, BestGoesOn, BestIsOne, NothingIsBest, OneIsBest};

/// In a well-formed lattice each span has a best path.
pub fn one_is_best()
    ensures { OneIsBest }
{}

/// No span has two best paths.
pub fn best_is_one()
    ensures { BestIsOne }
{}

/// The best path over a span is the best list before its best last entry, and then this entry.
pub fn best_goes_on()
    ensures { BestGoesOn }
{}

/// Nothing is the best path from a position to itself.
pub fn nothing_is_best()
    ensures { NothingIsBest }
{}

/// The best list before an entry gives the entry's least cost.
pub fn best_gives_least_cost()
    ensures { BestGivesLeastCost }
{}
