ghost use Rattle.std.specs.Prelude.{◌∷◌, [], codes};
ghost use Rattle.mz_base.specs.declared.event.Event.TheVariants as event;
ghost use Rattle.mz_base.specs.declared.event.Outcome.TheVariants.{Published, Skipped};
ghost use Rattle.schedule.specs.Examples.{ReadsAs, until, whole};

/// A schedule alone, and one in a report. Events keep the numbers of their lines in the file.
pub fn schedules_read()
    ensures alone { ReadsAs (codes "job\t1\tpublished\ndict\tu\t2\n\nlearn\tc2\ntake\tc1\t1\nclose") (whole ((1, event.Job 1 Published) ∷ (2, event.Dict 1 2) ∷ (4, event.Learn 2) ∷ (5, event.Take 1 1) ∷ (6, event.Close) ∷ []) 6) }
    ensures report { ReadsAs (codes "jobs\njob\t1\tpublished\nschedule\njob\t2\tskipped\nawait\tc1\t2\ncertificates\nstep\tc1\n") (whole ((4, event.Job 2 Skipped) ∷ (5, event.Await 1 2) ∷ []) 7) }
    ensures nothing { ReadsAs [] (whole [] 0) }
    ensures certificates { ReadsAs (codes "certificates\nstep\tc1\n") (whole [] 2) }
{}

/// The first line that does not read ends the schedule, and its number counts all lines of the file.
pub fn bad_lines_are_told()
    ensures second_heading { ReadsAs (codes "end\tc1\nschedule\nstep\tc1\nschedule\nstep\tc1\n") (until ((3, event.Step 1) ∷ []) 4 5) }
    ensures user { ReadsAs (codes "\nstep\tu\n") (until [] 2 2) }
    ensures tab { ReadsAs (codes "notyet\tc1\t\n") (until [] 1 1) }
    ensures wide { ReadsAs (codes "take\tc1\t4294967295\ntake\tc1\t4294967296\n") (until ((1, event.Take 1 4294967295) ∷ []) 2 2) }
    ensures digits { ReadsAs (codes "take\tc1\t0000000001\ntake\tc1\t00000000001\n") (until ((1, event.Take 1 1) ∷ []) 2 2) }
    ensures comment { ReadsAs (codes "# comment\n") (until [] 1 1) }
    ensures outcome { ReadsAs (codes "job\t1\tdone\n") (until [] 1 1) }
{}
