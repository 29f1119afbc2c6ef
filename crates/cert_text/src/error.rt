ghost use Rattle.std.specs.Prelude.{◌≡◌};

use mz_base::NoMemory;
use std::alloc::{AllocError, AllocFailed};

/// Why a certificate was not read.
#[derive(Debug, Drop)]
pub enum TextError {
    /// The first of the four lines that is missing or does not read, from 1.
    Line(u64),
    NoMemory,
}

impl From<AllocError> for TextError {
    ghost use Rattle.cert_text.specs.declared.error.TextError.TheVariants.{NoMemory};

    ghost from_gives = { λ _ e. e ≡ NoMemory };

    fn from(_error: AllocError) -> TextError {
        TextError::NoMemory
    }
}

impl<T: Drop> From<AllocFailed<T>> for TextError {
    ghost use Rattle.cert_text.specs.declared.error.TextError.TheVariants.{NoMemory};

    ghost from_gives = { λ _ e. e ≡ NoMemory };

    fn from(_error: AllocFailed<T>) -> TextError {
        TextError::NoMemory
    }
}

impl From<NoMemory> for TextError {
    ghost use Rattle.cert_text.specs.declared.error.TextError.TheVariants.{NoMemory};

    ghost from_gives = { λ _ e. e ≡ NoMemory };

    fn from(_error: NoMemory) -> TextError {
        TextError::NoMemory
    }
}
