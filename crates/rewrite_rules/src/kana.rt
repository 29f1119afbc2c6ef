ghost use Rattle.std.specs.Prelude.{◌≡◌, OnOk};
ghost use Rattle.conversion_meaning.specs.Rules.{kana_values, with_values};

use crate::candidates::add_value;
use mz_base::{Candidate, NoMemory, half_width, katakana};
use std::alloc::Global;

/// Adds the key, in katakana, and in katakana of half width.
pub fn add_kana(alloc: Global, list: &mut Vec<Candidate>, key: &[char]) -> Result<(), NoMemory>
    ensures { OnOk result (list.new.items ≡ with_values list.old.items (kana_values key.now)) }
{
    let wide = katakana(alloc, key)?;
    let half = half_width(alloc, wide.as_slice())?;
    add_value(alloc, list, key)?;
    add_value(alloc, list, wide.as_slice())?;
    add_value(alloc, list, half.as_slice())
}
