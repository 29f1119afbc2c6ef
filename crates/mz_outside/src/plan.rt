//! Which calls of a store or a sink in memory are to fail.
ghost use Rattle.std.specs.Prelude.{◌≡◌, [], ◌∷◌, ◌++◌, OnOk, OnErr};
ghost use Rattle.mz_outside.specs.Plan.{FaultPlan, next_fails, with_fault, after_call};

use std::alloc::{AllocError, Global};
use std::marker::Model;

/// The calls that are to fail, how many were made, and how many have failed.
#[derive(Drop)]
pub(crate) struct Plan {
    failing: Vec<u64>,
    calls: u64,
    faults: u64,
}

impl Model for Plan {
    ghost Value = { FaultPlan };

    ghost view = { λ p. record { failing = p.failing.items; calls = p.calls; faults = p.faults } };
}

impl Plan {
    pub(crate) fn new(alloc: Global) -> Self
        ensures { result ≡ record { failing = []; calls = 0; faults = 0 } }
    {
        Plan {
            failing: Vec::new(alloc),
            calls: 0,
            faults: 0,
        }
    }

    /// Has a call fail. The first call is 1.
    pub(crate) fn fail_at(&mut self, call: u64) -> Result<(), AllocError>
        ensures ok { OnOk result (self.new ≡ record self.old { failing = self.old.failing ++ call ∷ [] }) }
        ensures err { OnErr result (self.new ≡ self.old) }
    {
        self.failing.push(call)?;
        Ok(())
    }

    /// Counts a call, and answers whether it is to fail, which is counted too.
    pub(crate) fn next_fails(&mut self) -> bool
        ensures fails { result ≡ next_fails self.old }
        ensures counted { self.new ≡ after_call self.old }
    {
        self.calls = self.calls.saturating_add(1);
        let fails = self.failing.contains(&self.calls);
        if fails {
            self.raise();
        }
        fails
    }

    /// Counts a fault.
    pub(crate) fn raise(&mut self)
        ensures { self.new ≡ with_fault self.old }
    {
        self.faults = self.faults.saturating_add(1);
    }
}
