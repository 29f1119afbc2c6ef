ghost use Rattle.std.specs.Prelude.{◌≡◌};

use mz_base::NoMemory;
use std::alloc::{AllocError, AllocFailed};

/// Why a report was not written.
#[derive(Clone, Copy, Debug, PartialEq, Eq)]
pub enum PrintError {
    /// The report has more than `MOST_REPORT_BYTES` bytes.
    TooLarge,
    NoMemory,
}

impl From<AllocError> for PrintError {
    ghost use Rattle.report.specs.declared.error.PrintError.TheVariants.{NoMemory};

    ghost from_gives = { λ _ e. e ≡ NoMemory };

    fn from(_error: AllocError) -> PrintError {
        PrintError::NoMemory
    }
}

impl<T: Drop> From<AllocFailed<T>> for PrintError {
    ghost use Rattle.report.specs.declared.error.PrintError.TheVariants.{NoMemory};

    ghost from_gives = { λ _ e. e ≡ NoMemory };

    fn from(_error: AllocFailed<T>) -> PrintError {
        PrintError::NoMemory
    }
}

impl From<NoMemory> for PrintError {
    ghost use Rattle.report.specs.declared.error.PrintError.TheVariants.{NoMemory};

    ghost from_gives = { λ _ e. e ≡ NoMemory };

    fn from(_error: NoMemory) -> PrintError {
        PrintError::NoMemory
    }
}
