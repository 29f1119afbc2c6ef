ghost use Rattle.run_meaning.specs.JournalLaws.{CommitsAreLearned, EntriesAreItsOwn, EntriesAreNumbered, LearnsAreEntered, OthersHaveNone, UsersAreThere};

/// The journal of a client's user has the client's learns numbered 1, 2, .., as many as it made; then, if it has ended, its end
/// with their number, and nothing of it afterwards. The journal of another user has nothing of it.
pub fn entries_are_numbered()
    ensures own { EntriesAreNumbered }
    ensures others { OthersHaveNone }
{}

/// A learn enters the pairs of the next command, which commits; and a step that commits comes when they are entered.
pub fn commits_are_learned()
    ensures learns { LearnsAreEntered }
    ensures steps { CommitsAreLearned }
{}

/// Their pairs are those that the client's own events make of it alone, with the job log and its user's journal.
pub fn entries_are_its_own()
    ensures { EntriesAreItsOwn }
{}

/// In a world that can be run the user of each client is there, as the laws of journals want it.
pub fn users_are_there()
    ensures { UsersAreThere }
{}
