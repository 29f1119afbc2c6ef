ghost use Rattle.std.specs.Prelude.{◌≡◌, find};
ghost use Rattle.std.specs.Option.{option_copied};
ghost use Rattle.engine.specs.Sets.{bytes_of, has_role};

use mz_base::{Role, Seq, Text, same_role};

/// A file of a data set.
#[derive(Drop)]
pub struct SetFile {
    pub role: Role,
    /// Where it was read, for the one who looks for a fault.
    pub path: Text,
    pub bytes: Seq<u8>,
}

/// The files of a data set, in the order of its manifest.
#[derive(Drop)]
pub struct SetFiles {
    pub files: Seq<SetFile>,
}

/// The bytes of the first file of a role.
pub fn bytes_of(files: &[SetFile], role: Role) -> Option<&[u8]>
    ensures { option_copied result ≡ bytes_of role files.now }
{
    match first_of(files, role) {
        Some(file) => Some(file.bytes.as_slice()),
        None => None,
    }
}

fn first_of(files: &[SetFile], role: Role) -> Option<&SetFile>
    ensures { option_copied result ≡ find (has_role role) files.now }
{
    files.iter().find(|file| has_role(file, role))
}

pub fn has_role(file: &SetFile, role: Role) -> bool
    ensures { result ≡ has_role role file.now }
{
    same_role(file.role, role)
}
