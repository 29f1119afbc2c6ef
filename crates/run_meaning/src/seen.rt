ghost use Rattle.run_meaning.specs.SeenLaws.{LearnsAreSeen, NamedIsPublished, NamedNeverFall, SeenOnlyGrow, TakesSeeAll};

/// The job of a take or an await stands published, and is no lower than each that the client named before.
pub fn jobs_are_none_older()
    ensures published { NamedIsPublished }
    ensures never_fall { NamedNeverFall }
{}

/// A take sees the whole journal of the client's user. So what it sees begins with what each take of the client saw before, and
/// has all learns of the client.
pub fn journals_are_none_older()
    ensures all { TakesSeeAll }
    ensures grow { SeenOnlyGrow }
    ensures learns { LearnsAreSeen }
{}
