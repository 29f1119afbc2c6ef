//! The files that say what a run is made of, and what its clients do. Start at [`read_manifest`] and [`read_script`].
//! What they mean, and which line is bad or too large: specs/Manifests.antt and Scripts.antt, and docs/FORMATS.md.
//! What follows for each manifest: src/laws.rt; for each script: src/script_laws.rt.
#![tactic(auto)]

mod commands;
mod draft;
mod entries;
mod laws;
mod manifest;
mod names;
mod script;
mod script_laws;

pub use commands::add_commands;
pub use laws::{
    limits_are, manifests_are_sound, manifests_go_line_by_line, manifests_need_no_memory,
    sets_are_named_in_order,
};
pub use manifest::{
    ClientLine, DictLine, FileLine, MOST_CLIENTS, MOST_DICTIONARIES, MOST_LOADERS, MOST_SETS,
    MOST_USERS, Manifest, ManifestError, read_lines, read_manifest,
};
pub use names::{MOST_NAME_BYTES, MOST_PATH_BYTES, place_among};
pub use script::{MOST_COMMANDS, MOST_KEYS, MOST_NUMBER, ScriptError, read_script};
pub use script_laws::{keys_are_sent_one_by_one, scripts_go_line_by_line, scripts_need_no_memory};
