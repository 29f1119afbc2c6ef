ghost use Rattle.std.specs.Prelude.{◌≡◌, ◌≤◌, IfOk, length};
ghost use Rattle.mz_base.specs.Lines.{lines_of, pointed};
ghost use Rattle.scenario.specs.ManifestAnswers.{GivesManifest};
ghost use Rattle.scenario.specs.Manifests.{manifest_of};

use crate::draft::Draft;
use mz_base::{Limit, NoMemory, Role, Seq, Text, cut_lines};
use std::alloc::{AllocError, AllocFailed, Global};
use thiserror::Error;

/// The most data sets of a manifest.
pub const MOST_SETS: usize = 8;

/// The most users of a manifest.
pub const MOST_USERS: usize = 16;

/// The most clients of a manifest.
pub const MOST_CLIENTS: usize = 16;

/// The most `USERDICT` lines of one user.
pub const MOST_DICTIONARIES: usize = 16;

/// The most threads that load data.
pub const MOST_LOADERS: u32 = 4;

/// What a run is made of. Each kind of line keeps the order of the file; sets and users are numbered from 1.
#[derive(Drop)]
pub struct Manifest {
    /// The names of the data sets.
    pub sets: Seq<Text>,
    pub files: Seq<FileLine>,
    /// The names of the users.
    pub users: Seq<Text>,
    /// The user dictionaries. The first of a user is its reload 1.
    pub dicts: Seq<DictLine>,
    pub clients: Seq<ClientLine>,
    /// How many threads load data, from 1.
    pub loaders: u32,
    /// Whether the report has certificates.
    pub certificates: bool,
}

/// A file of a data set.
#[derive(Drop)]
pub struct FileLine {
    pub set: u32,
    pub role: Role,
    pub path: Text,
}

/// A user's dictionary.
#[derive(Drop)]
pub struct DictLine {
    pub user: u32,
    pub path: Text,
}

/// A client of a user.
#[derive(Drop)]
pub struct ClientLine {
    pub name: Text,
    pub user: u32,
    /// The path of the script.
    pub script: Text,
}

/// Why a manifest was not read.
#[derive(Debug, Drop, PartialEq, Eq, Error)]
pub enum ManifestError {
    /// The first line that is bad, from 1. Where a set or a romaji file is missing it is one after the last.
    #[error("a line of the manifest is bad")]
    Bad(u64),
    /// The limit, and the first line that passes one. It is not bad.
    #[error("the manifest passes a limit")]
    TooLarge(Limit, u64),
    #[error("memory ran out")]
    NoMemory,
}

impl From<AllocError> for ManifestError {
    ghost use Rattle.scenario.specs.declared.manifest.ManifestError.TheVariants.{NoMemory};

    ghost from_gives = { λ _ e. e ≡ NoMemory };

    fn from(_error: AllocError) -> ManifestError {
        ManifestError::NoMemory
    }
}

impl<T: Drop> From<AllocFailed<T>> for ManifestError {
    ghost use Rattle.scenario.specs.declared.manifest.ManifestError.TheVariants.{NoMemory};

    ghost from_gives = { λ _ e. e ≡ NoMemory };

    fn from(_error: AllocFailed<T>) -> ManifestError {
        ManifestError::NoMemory
    }
}

impl From<NoMemory> for ManifestError {
    ghost use Rattle.scenario.specs.declared.manifest.ManifestError.TheVariants.{NoMemory};

    ghost from_gives = { λ _ e. e ≡ NoMemory };

    fn from(_error: NoMemory) -> ManifestError {
        ManifestError::NoMemory
    }
}

/// The manifest in these bytes, or its first line that is bad or too large.
pub fn read_manifest(alloc: Global, bytes: &[u8]) -> Result<Manifest, ManifestError>
    ensures told { GivesManifest result (manifest_of (lines_of bytes.now)) }
    ensures sets { IfOk result (λ manifest. length manifest.sets ≤ MOST_SETS) }
    ensures files { IfOk result (λ manifest. length manifest.files ≤ length (lines_of bytes.now)) }
{
    let lines = cut_lines(alloc, bytes)?;
    read_lines(alloc, lines.as_slice())
}

/// The manifest of these lines, which stand without their ends, or the first that is bad or too large.
pub fn read_lines(alloc: Global, lines: &[&[u8]]) -> Result<Manifest, ManifestError>
    ensures told { GivesManifest result (manifest_of (pointed lines.now)) }
    ensures sets { IfOk result (λ manifest. length manifest.sets ≤ MOST_SETS) }
    ensures files { IfOk result (λ manifest. length manifest.files ≤ length (pointed lines.now)) }
{
    let mut draft = Draft::new(alloc);
    for (index, line) in lines.iter().enumerate() {
        draft.read_line(index as u64 + 1, line)?;
    }
    draft.finish(lines.len() as u64 + 1)
}
