ghost use Rattle.run_meaning.specs.GrowthLaws.{ClosedIsFull, ClosedStays, LogsGrow, OthersAreLeft, OwnIsDone};

/// An event of one client leaves each other client as it was, and an event of none leaves all.
pub fn others_are_left()
    ensures { OthersAreLeft }
{}

/// An event of a client makes of it what its deed makes, which may come: a take has the data of its job and of the user's whole
/// journal, a take or a wait names a job that stands published, and a wait finds none only where the job log is closed.
pub fn own_deeds_are_done()
    ensures { OwnIsDone }
{}

/// The job log, each journal and the events only grow.
pub fn logs_grow()
    ensures { LogsGrow }
{}

/// A closed log has all jobs, and stays closed and as it is.
pub fn closed_logs_stay()
    ensures full { ClosedIsFull }
    ensures stays { ClosedStays }
{}
