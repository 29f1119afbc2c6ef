//! What follows from the definition of a manifest, for all lines. A caller of these learns them; nothing runs.

ghost use Rattle.std.specs.Prelude.{◌≡◌, ◌≢◌, ◌⊎◌, ◌<◌, ℕ, List, length, Ok, Err};
ghost use Rattle.std.specs.List.{flat_map};
ghost use Rattle.scenario.specs.LineByLine.{IsFirstRefused, IsRead, IsUnfinished, set_named};
ghost use Rattle.scenario.specs.Manifests.{Told, manifest_of, nothing_told};
ghost use Rattle.scenario.specs.Sound.{IsSound};
ghost use Rattle.scenario.specs.declared.manifest.Manifest.{Manifest};
ghost use Rattle.scenario.specs.declared.manifest.ManifestError.{ManifestError};
ghost use Rattle.scenario.specs.declared.manifest.ManifestError.TheVariants.{NoMemory};

use crate::manifest::{MOST_CLIENTS, MOST_DICTIONARIES, MOST_LOADERS, MOST_SETS, MOST_USERS};
use crate::names::{MOST_NAME_BYTES, MOST_PATH_BYTES};
use crate::script::{MOST_COMMANDS, MOST_KEYS, MOST_NUMBER};

/// Each manifest is within its limits, and names only sets and users that it has. Its names are distinct within their
/// kind; names have 1 to 64 bytes and paths 1 to 1,024.
pub fn manifests_are_sound()
    ensures { (lines : List (List ℕ)) (manifest : Manifest) → manifest_of lines ≡ Ok manifest → IsSound manifest }
{}

/// The definition never says that memory ran out.
pub fn manifests_need_no_memory()
    ensures { (lines : List (List ℕ)) → manifest_of lines ≢ Err NoMemory }
{}

/// The number of each limit of a manifest and of a script. Definitions cite the constants, so a wrong one would move them along.
pub fn limits_are()
    ensures sets { MOST_SETS ≡ 8 }
    ensures users { MOST_USERS ≡ 16 }
    ensures clients { MOST_CLIENTS ≡ 16 }
    ensures dictionaries { MOST_DICTIONARIES ≡ 16 }
    ensures loaders { MOST_LOADERS ≡ 4 }
    ensures name_bytes { MOST_NAME_BYTES ≡ 64 }
    ensures path_bytes { MOST_PATH_BYTES ≡ 1024 }
    ensures commands { MOST_COMMANDS ≡ 100000 }
    ensures keys { MOST_KEYS ≡ 4096 }
    ensures number { MOST_NUMBER ≡ 999999999 }
{}

/// A manifest that reads has each of its lines read, one after the other. One that does not has a first line that is
/// refused, or lacks something after its last line.
pub fn manifests_go_line_by_line()
    ensures ok { (lines : List (List ℕ)) (manifest : Manifest) → manifest_of lines ≡ Ok manifest →
        (place : ℕ) → place < length lines → (next : Told) × IsRead nothing_told 1 lines place next }
    ensures err { (lines : List (List ℕ)) (refused : ManifestError) → manifest_of lines ≡ Err refused →
        IsFirstRefused nothing_told 1 lines refused ⊎ IsUnfinished nothing_told 1 lines refused }
{}

/// The sets of a manifest are the names of its `DATASET` lines, in order.
pub fn sets_are_named_in_order()
    ensures { (lines : List (List ℕ)) (manifest : Manifest) → manifest_of lines ≡ Ok manifest → manifest.sets ≡ flat_map set_named lines }
{}
