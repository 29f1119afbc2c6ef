ghost use Rattle.std.specs.Prelude.{◌≡◌, OnOk};
ghost use Rattle.std.specs.List.{fold};
ghost use Rattle.mz_base.specs.declared.lattice.Pair.{Pair};
ghost use Rattle.predictor.specs.Pairs.{has_value, with_pair, with_recalled};

use conversion_meaning::MOST_SUGGESTIONS;
use mz_base::{NoMemory, Pair, Text};
use std::alloc::Global;

/// Adds the pairs of a history whose key begins with the base.
pub fn add_recalled(
    alloc: Global,
    pairs: &mut Vec<Pair>,
    history: &[Pair],
    base: &[char],
) -> Result<(), NoMemory>
    ensures { OnOk result (pairs.new.items ≡ fold (with_recalled base.now) pairs.old.items history.now) }
{
    for pair in history {
        add_begun(alloc, pairs, pair, base)?;
    }
    Ok(())
}

/// Adds a pair, where its key begins with the base.
fn add_begun(
    alloc: Global,
    pairs: &mut Vec<Pair>,
    pair: &Pair,
    base: &[char],
) -> Result<(), NoMemory>
    ensures { OnOk result (pairs.new.items ≡ with_recalled base.now pairs.old.items pair.now) }
{
    if pair.key.as_chars().starts_with(base) {
        return add(alloc, pairs, pair.key.as_chars(), pair.value.as_chars());
    }
    Ok(())
}

/// Adds a pair, unless the list is full or has its value. Nothing is copied in vain.
pub fn add(
    alloc: Global,
    pairs: &mut Vec<Pair>,
    key: &[char],
    value: &[char],
) -> Result<(), NoMemory>
    ensures { OnOk result (pairs.new.items ≡ with_pair pairs.old.items (record { key = key.now; value = value.now })) }
{
    if pairs.len() >= MOST_SUGGESTIONS || has_value(pairs.as_slice(), value) {
        return Ok(());
    }
    let pair = Pair {
        key: Text::from_chars(alloc, key)?,
        value: Text::from_chars(alloc, value)?,
    };
    pairs.push(pair)?;
    Ok(())
}

fn has_value(pairs: &[Pair], value: &[char]) -> bool
    ensures { result ≡ has_value pairs.now value.now }
{
    pairs.iter().any(|pair| value == pair.value.as_chars())
}
