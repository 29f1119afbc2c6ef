ghost use Rattle.conversion_meaning.specs.Laws.{EntriesAreFew, PathCostsAreSmall, LeastCostsAreSmall};

/// A key has so few entries that 32 bits hold an ordinal.
pub fn entries_are_few()
    ensures { EntriesAreFew }
{}

/// A path costs so little that 64 bits hold it, and any sum that is made on the way.
pub fn path_costs_are_small()
    ensures { PathCostsAreSmall }
{}

/// The same of the least cost of an entry.
pub fn least_costs_are_small()
    ensures { LeastCostsAreSmall }
{}
