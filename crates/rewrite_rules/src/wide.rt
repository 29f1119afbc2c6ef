ghost use Rattle.std.specs.Prelude.{◌≡◌, ◌++◌, ◌∷◌, [], IfOk, OnOk, if◌then◌else◌};
ghost use Rattle.std.specs.List.{list_all};
ghost use Rattle.mz_base.specs.Classes.{is_from};
ghost use Rattle.mz_base.specs.Folds.{full_width};
ghost use Rattle.conversion_meaning.specs.Rules.{is_half, wide_values, with_values};

use crate::candidates::add_values;
use mz_base::{Candidate, NoMemory, Text, full_width};
use std::alloc::Global;

/// Adds the full width of each value of letters, digits and signs of half width that the list has before.
pub fn add_wide(alloc: Global, list: &mut Vec<Candidate>) -> Result<(), NoMemory>
    ensures { OnOk result (list.new.items ≡ with_values list.old.items (wide_values list.old.items)) }
{
    let wide = wide_values(alloc, list.as_slice())?;
    add_values(alloc, list, wide.as_slice())
}

fn wide_values(alloc: Global, list: &[Candidate]) -> Result<Vec<Text>, NoMemory>
    ensures { IfOk result (λ wide. wide.items ≡ wide_values list.now) }
{
    let mut wide = Vec::new(alloc);
    for candidate in list {
        widen(alloc, &mut wide, candidate.value.as_chars())?;
    }
    Ok(wide)
}

fn widen(alloc: Global, wide: &mut Vec<Text>, value: &[char]) -> Result<(), NoMemory>
    ensures { OnOk result (wide.new.items ≡ wide.old.items ++ (if is_half value.now then full_width value.now ∷ [] else [])) }
{
    if is_half(value) {
        wide.push(Text::from_vec(full_width(alloc, value)?))?;
    }
    Ok(())
}

fn is_half(value: &[char]) -> bool
    ensures { result ≡ is_half value.now }
{
    if value.is_empty() {
        return false;
    }
    are_half(value)
}

fn are_half(value: &[char]) -> bool
    ensures { result ≡ list_all (is_from 0x21 0x7E) value.now }
{
    value.iter().all(|c| '!' <= *c && *c <= '~')
}
