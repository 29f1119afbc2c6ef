//! A store and a sink that never fail: their counts of faults are 0 at all times.
ghost use Rattle.std.specs.Prelude.{◌≡◌, ℕ, ◌+◌, ◌-◌, ◌^◌, min, List, [], ◌∷◌, ◌++◌, length, None, Some, OnOk, OnErr};
ghost use Rattle.mz_outside.specs.FileList.{NamedFile, file_named};

use crate::file_list::FileList;
use crate::{Sink, SinkFault, Store, StoreFault};
use std::alloc::{AllocError, Global};
use std::marker::Model;

/// Files in memory, which it tells. No read fails.
#[derive(Drop)]
pub struct SureStore {
    files: FileList,
}

impl Model for SureStore {
    ghost Value = { List NamedFile };

    ghost view = { λ s. s.files };
}

impl SureStore {
    /// A store with no file.
    pub fn new(alloc: Global) -> Self
        ensures { result ≡ [] }
    {
        SureStore {
            files: FileList::new(alloc),
        }
    }

    /// Adds a file. Where there is one of this name, that one is still the one that is read.
    pub fn add(&mut self, name: &str, bytes: &[u8]) -> Result<(), AllocError>
        ensures ok { OnOk result (self.new ≡ self.old ++ record { name = name.now; bytes = bytes.now } ∷ []) }
        ensures err { OnErr result (self.new ≡ self.old) }
    {
        self.files.add(name, bytes)
    }
}

impl Store for SureStore {
    ghost files = { λ s. Some (file_named s) };

    ghost faults = { λ _. 0 };

    fn read(&mut self, name: &str) -> Result<Vec<u8>, StoreFault> {
        self.files.read(name)
    }
}

/// Counts the bytes that it takes, up to `u64::MAX`, and keeps none: what is kept takes memory, which may be refused.
/// So it never fails, and tells how much came and not what.
#[derive(Drop)]
pub struct SureSink {
    taken: u64,
}

impl Model for SureSink {
    ghost Value = { ℕ };

    ghost view = { λ s. s.taken };
}

impl SureSink {
    pub fn new() -> Self
        ensures { result ≡ 0 }
    {
        SureSink { taken: 0 }
    }

    /// How many bytes came.
    pub fn taken(&self) -> u64
        ensures { result ≡ self.now }
    {
        self.taken
    }
}

impl Sink for SureSink {
    ghost bytes = { λ _. None };

    ghost faults = { λ _. 0 };

    fn write(&mut self, piece: &[u8]) -> Result<usize, SinkFault>
        ensures whole { result ≡ Ok (length piece.now) }
        ensures counted { self.new ≡ min (self.old + length piece.now) (2 ^ 64 - 1) }
    {
        self.taken = self.taken.saturating_add(piece.len() as u64);
        Ok(piece.len())
    }
}
