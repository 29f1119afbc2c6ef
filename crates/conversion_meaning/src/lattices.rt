ghost use Rattle.conversion_meaning.specs.Laws.{CursorsAreFirst, EndsAreFound, SourcesComeFirst, WholeHasAll};

/// An entry that ends where another begins comes before it in the list.
pub fn sources_come_first()
    ensures { SourcesComeFirst }
{}

/// All entries are entries of the whole key.
pub fn whole_has_all()
    ensures { WholeHasAll }
{}

/// In the order of ends the first entry that does not end before a position stands at its cursor.
pub fn cursors_are_first()
    ensures { CursorsAreFirst }
{}

/// An entry that ends at a position stands in the order of ends from the position's cursor on.
pub fn ends_are_found()
    ensures { EndsAreFound }
{}
