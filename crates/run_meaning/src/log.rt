ghost use Rattle.run_meaning.specs.LogLaws.{ClosedHasEach, JobsComeOnce, NewestIsHighest, NewestPasses, PublishedRead, PublishedRise, ReloadsComeOnce};

/// Published jobs rise, and each reads. So a higher job stands published exactly where the newest is higher.
pub fn published_jobs_rise()
    ensures rise { PublishedRise }
    ensures read { PublishedRead }
    ensures newest { NewestPasses }
{}

/// The newest published job of a closed log is the highest that reads, whatever the order.
pub fn newest_is_highest()
    ensures { NewestIsHighest }
{}

/// Each job and each reload stands at most once, and in a closed log each job once.
pub fn each_comes_once()
    ensures jobs { JobsComeOnce }
    ensures closed { ClosedHasEach }
    ensures reloads { ReloadsComeOnce }
{}
