ghost use Rattle.std.specs.Prelude.{◌≡◌, ◌^◌, ℕ, List, Some};
ghost use Rattle.mz_base.specs.Data.{AreDataSound, DataLists};
ghost use Rattle.mz_base.specs.declared.event.Event.{Event};
ghost use Rattle.conversion_meaning.specs.Lattices.{AreBounds, IsKey};
ghost use Rattle.report.specs.Names.{AreNamed};
ghost use Rattle.run_meaning.specs.Plays.{play};
ghost use Rattle.run_meaning.specs.States.{State};
ghost use Rattle.run_meaning.specs.Worlds.{IsWorld, World};
ghost use Rattle.world_files.specs.Conversions.{AnswerHolds};

use crate::reading::MOST_READ_BYTES;

/// The most bytes that a command reads. The definition cites the constant, so a wrong one would move it along.
pub fn limits_are()
    ensures bytes { MOST_READ_BYTES ≡ 2 ^ 30 }
{}

/// What converting a key writes reads as its answer, and testing that by the same data set finds no fault.
pub fn answers_hold()
    ensures { (set : DataLists) (key bounds : List ℕ) → AreDataSound set → IsKey key → AreBounds key bounds →
        AnswerHolds set key bounds }
{}

/// The logs of each play name only users, clients and reloads that are there, as a report's text asks.
pub fn played_logs_are_named()
    ensures { (world : World) (events : List Event) (state : State) → IsWorld world → play world events ≡ Some state →
        AreNamed state.logs }
{}
