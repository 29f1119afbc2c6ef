ghost use Rattle.std.specs.Prelude.{◌≡◌, ◌-◌, ◌^◌, ℕ, List, All};
ghost use Rattle.mz_base.specs.declared.event.Event.{Event};
ghost use Rattle.mz_base.specs.declared.logs.Names.{Names};
ghost use Rattle.schedule.specs.Names.{IsNamed};
ghost use Rattle.schedule.specs.Written.{CanBeTold, EventsCanBePrinted, IsInRange, ReadAgain, StandsAbove, StandsBelow};

use crate::event_line::MOST_NUMBER;

/// What is printed of events reads as these events, below the first line `schedule` and above nothing or `certificates`.
pub fn printed_schedules_read()
    ensures { (names : Names) (events : List Event) (above below : List ℕ) → CanBeTold names →
        All (IsNamed names) events → All IsInRange events → StandsAbove above → StandsBelow below → ReadAgain names above events below }
{}

/// The events of a file name users and clients that are there, and their numbers are in range: they can be printed.
pub fn read_events_can_be_printed()
    ensures { (names : Names) (lines : List (List ℕ)) → EventsCanBePrinted names lines }
{}

/// The highest number of a job, and of a reload. The definition cites the constant, so a wrong one would move it along.
pub fn limits_are()
    ensures number { MOST_NUMBER ≡ 2 ^ 32 - 1 }
{}
