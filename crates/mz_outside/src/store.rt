//! Files that are read whole, by name.
ghost use Rattle.std.specs.Prelude.{◌≡◌, ℕ, List, Option};
ghost use Rattle.mz_outside.specs.Reading.{IsRead};
ghost use Rattle.mz_outside.specs.declared.store.StoreFault.TheVariants.{NoMemory};

use std::alloc::{AllocError, AllocFailed};

/// Why a file was not read.
#[derive(Clone, Copy, Debug, PartialEq, Eq)]
pub enum StoreFault {
    /// There is no file of this name.
    Absent,
    /// The store failed, and may answer otherwise another time.
    Failed,
    NoMemory,
}

impl From<AllocError> for StoreFault {
    ghost from_gives = { λ _ e. e ≡ NoMemory };

    fn from(_: AllocError) -> Self {
        StoreFault::NoMemory
    }
}

impl<T: Drop> From<AllocFailed<T>> for StoreFault {
    ghost from_gives = { λ _ e. e ≡ NoMemory };

    fn from(_: AllocFailed<T>) -> Self {
        StoreFault::NoMemory
    }
}

/// Files by name, and a count of what failed. A name is the bytes of its text.
pub trait Store {
    /// The bytes of each file that there is, where the store tells its files.
    ghost files: { Self → Option (List ℕ → Option (List ℕ)) };

    /// How often a read has failed.
    ghost faults: { Self → ℕ };

    /// All the bytes of a file.
    fn read(&mut self, name: &str) -> Result<Vec<u8>, StoreFault>
        ensures { IsRead (files self.old) (files self.new) (faults self.old) (faults self.new) name.now result };
}
