ghost use Rattle.run_meaning.specs.Examples.{CertifyingRun, IsReplaced, LowerReload, NoReload, NoSuchEnd, NoSuchJob, NoSuchReload, NoSuchStep, OneClientLines, OneClientRun, RefusedReload, ReloadingRun, ReloadingTake, SecondAlone, SecondLog, SecondSolo, SkippedJob, TakenAfter, TakenBefore, TwoClientsJournal, TwoClientsRun, WaitingJobs, WaitingLines, WaitingRun};

/// One client types a character and commits it.
pub fn one_client_runs()
    ensures run { OneClientRun }
    ensures lines { OneClientLines }
{}

/// A client waits for job 3, of which job 2 before it is refused, and for job 9, which is none.
pub fn waits_end()
    ensures run { WaitingRun }
    ensures lines { WaitingLines }
    ensures jobs { WaitingJobs }
{}

/// A job that comes after a higher one is skipped.
pub fn a_late_job_is_skipped()
    ensures { SkippedJob }
{}

/// What one client learns changes what another client of the user sees where its take comes after, and not where it comes
/// before.
pub fn a_take_has_the_learns_before_it()
    ensures after { TakenAfter }
    ensures before { TakenBefore }
{}

/// The clients of a user run one after the other.
pub fn two_clients_run()
    ensures run { TwoClientsRun }
    ensures journal { TwoClientsJournal }
{}

/// The highest reload that reads is in force, whatever came after it.
pub fn the_highest_reload_is_in_force()
    ensures refused { RefusedReload }
    ensures lower { LowerReload }
    ensures none { NoReload }
{}

/// Reloads come after the job of their number, or at the end.
pub fn reloads_come()
    ensures run { ReloadingRun }
    ensures taken { ReloadingTake }
{}

/// A conversion leaves its certificate.
pub fn a_conversion_is_certified()
    ensures { CertifyingRun }
{}

/// A conversion keeps its data while another job comes, and the character after it has those of that job and what was learned.
pub fn data_are_replaced_between_compositions()
    ensures { IsReplaced }
{}

/// Each cause for which an event is not legal.
pub fn these_are_not_legal()
    ensures jobs { NoSuchJob }
    ensures reloads { NoSuchReload }
    ensures steps { NoSuchStep }
    ensures ends { NoSuchEnd }
{}

/// The lines that a run leaves of the second client are those that its own events alone lead to, and those of its commands
/// with the answers that these events name.
pub fn the_second_is_served_alone()
    ensures log { SecondLog }
    ensures alone { SecondAlone }
    ensures solo { SecondSolo }
{}
