//! A store in memory.
ghost use Rattle.std.specs.Prelude.{◌≡◌, [], ◌∷◌, ◌++◌, Some, OnOk, OnErr};
ghost use Rattle.mz_outside.specs.FileList.{file_named};
ghost use Rattle.mz_outside.specs.Plan.{after_call};
ghost use Rattle.mz_outside.specs.Memory.{StoreInMemory, Reads};

use crate::file_list::FileList;
use crate::plan::Plan;
use crate::{Store, StoreFault};
use std::alloc::{AllocError, Global};
use std::marker::Model;

/// Files in memory. It tells them all, and fails at the reads that it is told to.
#[derive(Drop)]
pub struct MemoryStore {
    files: FileList,
    plan: Plan,
}

impl Model for MemoryStore {
    ghost Value = { StoreInMemory };

    ghost view = { λ s. record { files = s.files; plan = s.plan } };
}

impl MemoryStore {
    /// A store with no file, which fails never.
    pub fn new(alloc: Global) -> Self
        ensures { result ≡ record { files = []; plan = record { failing = []; calls = 0; faults = 0 } } }
    {
        MemoryStore {
            files: FileList::new(alloc),
            plan: Plan::new(alloc),
        }
    }

    /// Adds a file. Where there is one of this name, that one is still the one that is read.
    pub fn add(&mut self, name: &str, bytes: &[u8]) -> Result<(), AllocError>
        ensures ok { OnOk result (self.new ≡ record self.old { files = self.old.files ++ record { name = name.now; bytes = bytes.now } ∷ [] }) }
        ensures err { OnErr result (self.new ≡ self.old) }
    {
        self.files.add(name, bytes)
    }

    /// Has a read fail. The first read is 1.
    pub fn fail_at(&mut self, call: u64) -> Result<(), AllocError>
        ensures ok { OnOk result (self.new ≡ record self.old { plan = record self.old.plan { failing = self.old.plan.failing ++ call ∷ [] } }) }
        ensures err { OnErr result (self.new ≡ self.old) }
    {
        self.plan.fail_at(call)
    }
}

impl Store for MemoryStore {
    ghost files = { λ s. Some (file_named s.files) };

    ghost faults = { λ s. s.plan.faults };

    fn read(&mut self, name: &str) -> Result<Vec<u8>, StoreFault>
        ensures answer { Reads self.old name.now result }
        ensures counted { self.new ≡ record self.old { plan = after_call self.old.plan } }
    {
        if self.plan.next_fails() {
            return Err(StoreFault::Failed);
        }
        self.files.read(name)
    }
}
