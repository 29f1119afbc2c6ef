ghost use Rattle.std.specs.Prelude.{◌≡◌};

use mz_base::NoMemory;
use std::alloc::{AllocError, AllocFailed};

/// Why a file gave no dictionary.
#[derive(Clone, Copy, Debug, PartialEq, Eq)]
pub enum ImportError {
    /// The line, from 1, is no text.
    NotUtf8(u64),
    /// The row of this line is one too many.
    Limit(u64),
    NoMemory,
}

impl From<AllocError> for ImportError {
    ghost use Rattle.user_dict.specs.declared.error.ImportError.TheVariants.{NoMemory};

    ghost from_gives = { λ _ e. e ≡ NoMemory };

    fn from(_error: AllocError) -> ImportError {
        ImportError::NoMemory
    }
}

impl<T: Drop> From<AllocFailed<T>> for ImportError {
    ghost use Rattle.user_dict.specs.declared.error.ImportError.TheVariants.{NoMemory};

    ghost from_gives = { λ _ e. e ≡ NoMemory };

    fn from(_error: AllocFailed<T>) -> ImportError {
        ImportError::NoMemory
    }
}

impl From<NoMemory> for ImportError {
    ghost use Rattle.user_dict.specs.declared.error.ImportError.TheVariants.{NoMemory};

    ghost from_gives = { λ _ e. e ≡ NoMemory };

    fn from(_error: NoMemory) -> ImportError {
        ImportError::NoMemory
    }
}
