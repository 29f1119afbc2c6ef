ghost use Rattle.session_meaning.specs.Laws.{DataStay, LearnedIsResult, LineHasMode, LineHasVersion, QuietStays, ResultIsLast, TakesComeFirst};

/// A command that passes, finds the preedit full, or compares a text, changes nothing but that no conversion is new.
pub fn quiet_commands_change_nothing()
    ensures { QuietStays }
{}

/// A line has the mode and the version of the session after it.
pub fn lines_tell_the_session()
    ensures mode { LineHasMode }
    ensures version { LineHasVersion }
{}

/// A text that is committed is the last commit.
pub fn results_are_last()
    ensures { ResultIsLast }
{}

/// What is learned, joined, is what is committed.
pub fn learned_is_committed()
    ensures { LearnedIsResult }
{}

/// Data are taken in precomposition, or by a command that commits and learns.
pub fn takes_come_first()
    ensures { TakesComeFirst }
{}

/// The data after a step are those before, or those that were taken, or there are none.
pub fn data_stay()
    ensures { DataStay }
{}
