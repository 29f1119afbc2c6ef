ghost use Rattle.std.specs.Prelude.{◌≡◌, IfOk, OnOk, Some};
ghost use Rattle.run_meaning.specs.Orders.{run};
ghost use Rattle.run_meaning.specs.Plays.{is_complete, play};
ghost use Rattle.run_meaning.specs.Worlds.{IsWorld};
ghost use Rattle.core_steps.specs.Cores.{IsStepped, beginning, now};

use crate::error::StepError;
use crate::plans::World;
use crate::running::Running;
use mz_base::{DataSet, Event, Logs, NoMemory};
use std::alloc::Global;
use std::marker::Model;

/// A run of several clients, as far as it is: a world, and what the events that came made of it.
#[derive(Drop)]
pub struct Core<D: DataSet> {
    running: Running<D>,
}

impl<D: DataSet> Model for Core<D> {
    ghost use Rattle.core_steps.specs.Cores.{Ran};
    ghost use Rattle.core_steps.specs.Kepts.{IsKept, ran};

    ghost Value = { Ran };

    ghost view = { λ c. ran c.running };

    ghost invariant = { λ c. IsKept c.running };
}

impl<D: DataSet + Drop> Core<D> {
    /// A run before any event. Its later calls allocate here.
    pub fn new(alloc: Global, world: World<D>) -> Result<Core<D>, NoMemory>
        requires { IsWorld world }
        ensures { IfOk result (λ core. core ≡ beginning world) }
    {
        Ok(Core {
            running: Running::new(alloc, world)?,
        })
    }

    /// One event. Where it is refused, all is as before.
    pub fn step(&mut self, event: &Event) -> Result<(), StepError>
        ensures { IsStepped self.old event.now result self.new }
    {
        self.running.step(event)
    }

    /// The whole run, in its order. It is for a run before any event.
    pub fn run(&mut self) -> Result<(), NoMemory>
        requires { self.old ≡ beginning self.old.world }
        ensures { OnOk result (self.new ≡ now self.old (run self.old.world)) }
    {
        self.running.run()
    }

    /// What was noted so far.
    pub fn logs(&self) -> &Logs
        ensures { result.now ≡ self.now.state.logs }
    {
        &self.running.logs
    }

    /// Whether each job, reload and command came, the log is closed, and each client ended. It walks all of them.
    pub fn is_complete(&self) -> bool
        ensures { result ≡ is_complete self.now.world self.now.state }
    {
        self.running.is_complete()
    }

    /// What stands is what the events that are noted lead to. Nothing runs.
    pub fn is_played(&self)
        ensures { play self.now.world self.now.state.logs.events ≡ Some self.now.state }
    {
        self.running.is_played();
    }
}
