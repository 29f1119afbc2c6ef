ghost use Rattle.std.specs.Prelude.{◌≡◌};
ghost use Rattle.mz_base.specs.Faults.{same_role};

use crate::NoMemory;
use std::alloc::{AllocError, AllocFailed};
use std::fmt;
use thiserror::Error;

/// The kind of a data file, in the order in which a set's faults are looked for.
#[derive(Clone, Copy, Debug, PartialEq, Eq)]
pub enum Role {
    Connection,
    Id,
    Unk,
    Segment,
    UserPos,
    Romaji,
    Dictionary,
    Symbol,
    Kanji,
}

/// Whether two roles are one.
#[tactic(auto, unfolding(crate::specs::Faults::same_role))]
pub fn same_role(role: Role, other: Role) -> bool
    ensures { result ≡ same_role role other }
{
    role == other
}

/// What is wrong with a data file. A number without a name is the line, from 1.
#[derive(Clone, Copy, Debug, PartialEq, Eq)]
pub enum FaultKind {
    NotUtf8(u64),
    /// A field is missing, or one is too many.
    Fields(u64),
    /// A field that may not be empty is.
    Empty(u64),
    /// A character class that there is not.
    Class(u64),
    /// A field that is no number.
    Number(u64),
    /// A number outside its limits.
    Range(u64),
    /// A feature that no id has.
    NoFeature(u64),
    /// A pending text that has no fewer characters than the input.
    LongPending(u64),
    /// A field that is too long, or a row too many.
    Limit(u64),
    /// The first line is no size.
    Size,
    /// The number of lines that the size asks for, and the number found.
    Count { wanted: u64, found: u64 },
}

impl fmt::Display for FaultKind {
    ghost use Rattle.std.specs.Prelude.{Some};
    ghost use Rattle.mz_base.specs.Faults.{kind_text};

    ghost output = { λ kind. Some (kind_text kind) };

    fn fmt<W: fmt::Write>(&self, f: &mut fmt::Formatter<W>) -> fmt::Result {
        match self {
            FaultKind::NotUtf8(line) => write!(f, "not-utf8 {line}"),
            FaultKind::Fields(line) => write!(f, "fields {line}"),
            FaultKind::Empty(line) => write!(f, "empty {line}"),
            FaultKind::Class(line) => write!(f, "class {line}"),
            FaultKind::Number(line) => write!(f, "number {line}"),
            FaultKind::Range(line) => write!(f, "range {line}"),
            FaultKind::NoFeature(line) => write!(f, "no-feature {line}"),
            FaultKind::LongPending(line) => write!(f, "long-pending {line}"),
            FaultKind::Limit(line) => write!(f, "limit {line}"),
            FaultKind::Size => write!(f, "size"),
            FaultKind::Count { wanted, found } => write!(f, "count {wanted} {found}"),
        }
    }
}

/// The first fault of a data set: the file among those of its role, from 1, and what is wrong with it.
#[derive(Clone, Copy, Debug, PartialEq, Eq)]
pub struct Fault {
    pub role: Role,
    pub nth: u32,
    pub kind: FaultKind,
}

/// Why a file was not read.
#[derive(Debug, Drop, PartialEq, Eq, Error)]
pub enum ReadError {
    #[error("the file has a fault")]
    Fault(FaultKind),
    #[error("memory ran out")]
    NoMemory,
}

impl From<AllocError> for ReadError {
    ghost use Rattle.mz_base.specs.declared.fault.ReadError.TheVariants.{NoMemory};

    ghost from_gives = { λ _ e. e ≡ NoMemory };

    fn from(_error: AllocError) -> ReadError {
        ReadError::NoMemory
    }
}

impl<T: Drop> From<AllocFailed<T>> for ReadError {
    ghost use Rattle.mz_base.specs.declared.fault.ReadError.TheVariants.{NoMemory};

    ghost from_gives = { λ _ e. e ≡ NoMemory };

    fn from(_error: AllocFailed<T>) -> ReadError {
        ReadError::NoMemory
    }
}

impl From<NoMemory> for ReadError {
    ghost use Rattle.mz_base.specs.declared.fault.ReadError.TheVariants.{NoMemory};

    ghost from_gives = { λ _ e. e ≡ NoMemory };

    fn from(_error: NoMemory) -> ReadError {
        ReadError::NoMemory
    }
}

impl From<FaultKind> for ReadError {
    ghost use Rattle.mz_base.specs.declared.fault.ReadError.TheVariants.{Fault};

    ghost from_gives = { λ kind e. e ≡ Fault kind };

    fn from(kind: FaultKind) -> ReadError {
        ReadError::Fault(kind)
    }
}
