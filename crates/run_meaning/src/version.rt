ghost use Rattle.run_meaning.specs.VersionLaws.{DataStay, LastIsUsed, LinesHaveVersion, TakenAreUsed, TakesAreTyped};

/// Over events in which a client has no take, its set, history and dictionary stay the same, or it goes to precomposition and
/// has none.
pub fn data_stay_without_a_take()
    ensures { DataStay }
{}

/// A step for which data were taken ends with just these, or in precomposition. So what a client composes has the data of its
/// last take, where no take waits for its next command.
pub fn the_last_take_is_used()
    ensures step { TakenAreUsed }
    ensures last { LastIsUsed }
{}

/// A take comes only for a character that is typed in precomposition, or in conversion, which commits first.
pub fn takes_are_typed()
    ensures { TakesAreTyped }
{}

/// The version of a line is 0 in precomposition, else the job of the last take before it.
pub fn lines_have_the_version()
    ensures { LinesHaveVersion }
{}
