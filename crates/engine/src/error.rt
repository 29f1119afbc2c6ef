ghost use Rattle.std.specs.Prelude.{◌≡◌};
ghost use Rattle.engine.specs.Answers.{located};

use mz_base::{Fault, NoMemory, ReadError, Role};
use std::alloc::{AllocError, AllocFailed};

/// Why a data set was not built.
#[derive(Clone, Copy, Debug, PartialEq, Eq)]
pub enum BuildError {
    /// The first fault of its files.
    Fault(Fault),
    NoMemory,
}

impl From<AllocError> for BuildError {
    ghost use Rattle.engine.specs.declared.error.BuildError.TheVariants.{NoMemory};

    ghost from_gives = { λ _ e. e ≡ NoMemory };

    fn from(_error: AllocError) -> BuildError {
        BuildError::NoMemory
    }
}

impl<T: Drop> From<AllocFailed<T>> for BuildError {
    ghost use Rattle.engine.specs.declared.error.BuildError.TheVariants.{NoMemory};

    ghost from_gives = { λ _ e. e ≡ NoMemory };

    fn from(_error: AllocFailed<T>) -> BuildError {
        BuildError::NoMemory
    }
}

impl From<NoMemory> for BuildError {
    ghost use Rattle.engine.specs.declared.error.BuildError.TheVariants.{NoMemory};

    ghost from_gives = { λ _ e. e ≡ NoMemory };

    fn from(_error: NoMemory) -> BuildError {
        BuildError::NoMemory
    }
}

/// What a reader answers for the nth file of a role.
pub fn located<T>(role: Role, nth: u32, read: Result<T, ReadError>) -> Result<T, BuildError>
    ensures { result ≡ located role nth read }
{
    match read {
        Ok(value) => Ok(value),
        Err(ReadError::Fault(kind)) => Err(BuildError::Fault(Fault { role, nth, kind })),
        Err(ReadError::NoMemory) => Err(BuildError::NoMemory),
    }
}
