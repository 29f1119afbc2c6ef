ghost use Rattle.std.specs.Prelude.{◌≡◌, IfOk};
ghost use Rattle.history.specs.Pairs.{pair_of, pair_with};

use mz_base::{NoMemory, Pair, Text};
use std::alloc::Global;

/// A pair as the cache has it: its hash is that of both texts.
#[derive(Drop, PartialEq, Eq, Hash)]
pub struct Kept {
    pub key: Vec<char>,
    pub value: Vec<char>,
}

pub fn kept_of(alloc: Global, key: &[char], value: &[char]) -> Result<Kept, NoMemory>
    ensures { IfOk result (λ kept. pair_of kept ≡ pair_with key.now value.now) }
{
    Ok(Kept {
        key: Vec::from_slice(alloc, key)?,
        value: Vec::from_slice(alloc, value)?,
    })
}

pub fn pair_of(alloc: Global, kept: &Kept) -> Result<Pair, NoMemory>
    ensures { IfOk result (λ pair. pair ≡ pair_of kept.now) }
{
    Ok(Pair {
        key: Text::from_chars(alloc, kept.key.as_slice())?,
        value: Text::from_chars(alloc, kept.value.as_slice())?,
    })
}
