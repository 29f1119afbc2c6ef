ghost use Rattle.mozc_cli.specs.Reports.{ReplaysAreReported, RunsAreReported};

use run_meaning::{
    events_are_noted, jobs_are_none_older, journals_are_none_older, run_is_complete, run_is_played,
    the_last_take_is_used,
};

/// Each report of a run is the one-thread run of the complete schedule that it prints, the order of a run. In it each client
/// composes with the data of its last take, and sees nothing older than it saw before.
pub fn runs_are_reported()
    ensures { RunsAreReported }
{
    run_is_played();
    run_is_complete();
    events_are_noted();
    the_last_take_is_used();
    jobs_are_none_older();
    journals_are_none_older();
}

/// So is each report of a replay, of the schedule in its file, each line of which reads.
pub fn replays_are_reported()
    ensures { ReplaysAreReported }
{
    events_are_noted();
    the_last_take_is_used();
    jobs_are_none_older();
    journals_are_none_older();
}
