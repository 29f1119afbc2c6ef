ghost use Rattle.run_meaning.specs.OrderLaws.{CertificatesAside, RunIsComplete, RunIsPlayed, RunsAside, WaitsEnd};

/// The order of a run is legal, and its play is the run.
pub fn run_is_played()
    ensures { RunIsPlayed }
{}

/// Where the first set reads it is complete.
pub fn run_is_complete()
    ensures { RunIsComplete }
{}

/// In a run a wait ends as not yet exactly where no job of its number or a higher one reads.
pub fn waits_of_a_run_end()
    ensures { WaitsEnd }
{}

/// Whether certificates are kept changes nothing else: of no list of events, and of no run.
pub fn certificates_stand_aside()
    ensures lists { CertificatesAside }
    ensures runs { RunsAside }
{}
