ghost use Rattle.std.specs.Prelude.{◌≡◌, ◌≢◌, ◌≤◌, IfOk, Err, length};
ghost use Rattle.mz_base.specs.Lines.{lines_of};
ghost use Rattle.scenario.specs.Sound.{IsSound};
ghost use Rattle.scenario.specs.declared.manifest.TheConstants.{MOST_SETS};
ghost use Rattle.world_files.specs.Manifests.{manifest_in, manifest_refusal};
ghost use Rattle.world_files.specs.Reading.{Tells};

use mz_base::Refusal;
use scenario::{Manifest, ManifestError, manifests_are_sound, read_manifest};
use std::alloc::Global;

/// The manifest in these bytes, or the refusal of its first line that is bad or too large.
pub fn manifest_in(alloc: Global, bytes: &[u8]) -> Result<Manifest, Refusal>
    ensures told { Tells (λ manifest. manifest) result (manifest_in bytes.now) }
    ensures sets { IfOk result (λ manifest. length manifest.sets ≤ MOST_SETS) }
    ensures files { IfOk result (λ manifest. length manifest.files ≤ length (lines_of bytes.now)) }
    ensures sound { IfOk result IsSound }
    ensures reads_nothing { result ≢ Err Refusal.ReadFault }
{
    manifests_are_sound();
    match read_manifest(alloc, bytes) {
        Ok(manifest) => Ok(manifest),
        Err(fault) => Err(manifest_refusal(fault)),
    }
}

fn manifest_refusal(fault: ManifestError) -> Refusal
    ensures { result ≡ manifest_refusal fault }
{
    match fault {
        ManifestError::Bad(line) => Refusal::BadManifest(line),
        ManifestError::TooLarge(limit, _) => Refusal::TooLarge(limit),
        ManifestError::NoMemory => Refusal::Memory,
    }
}
