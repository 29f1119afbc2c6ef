ghost use Rattle.std.specs.Prelude.{◌≡◌, ◌<◌, ◌++◌, All, IfOk, OnOk, length, map};
ghost use Rattle.std.specs.List.{fold};
ghost use Rattle.mz_base.specs.declared.data.PricedRow.{PricedRow};
ghost use Rattle.conversion_meaning.specs.Suggestions.{recalled, suggestions, word_pair};
ghost use Rattle.predictor.specs.Pairs.{distinct, with_pair};

use crate::pairs::{add, add_recalled};
use conversion_meaning::MOST_SUGGESTIONS;
use mz_base::{DataSet, NoMemory, Pair, PricedRow};
use std::alloc::Global;

/// How many words are asked for at first: mostly enough for nine values.
const ASKED_AT_FIRST: usize = 32;
/// How many times as many the next time.
const GROWTH: usize = 8;

/// The suggestions for a base: of what was chosen before, the newest first, and then of the words, the cheapest first, of
/// each value the first, and of these the first [`MOST_SUGGESTIONS`]. None for an empty base.
pub fn suggest<D: DataSet>(
    alloc: Global,
    set: &D,
    history: &[Pair],
    base: &[char],
) -> Result<Vec<Pair>, NoMemory>
    ensures { IfOk result (λ pairs. pairs.items ≡ suggestions (D.lists set.now) history.now base.now) }
{
    if base.is_empty() {
        return Ok(Vec::new(alloc));
    }
    let mut most = ASKED_AT_FIRST;
    loop {
        let words = set.cheapest_with_prefix(alloc, base, most)?;
        let pairs = pairs_of(alloc, set, history, base, words.as_slice())?;
        if pairs.len() >= MOST_SUGGESTIONS || words.len() < most {
            return Ok(pairs);
        }
        most *= GROWTH;
    }
}

/// What the history and these words suggest.
fn pairs_of<D: DataSet>(
    alloc: Global,
    set: &D,
    history: &[Pair],
    base: &[char],
    words: &[PricedRow],
) -> Result<Vec<Pair>, NoMemory>
    requires { All (λ (word : PricedRow). word.row < length (D.lists set.now).words) words.now }
    ensures { IfOk result (λ pairs. pairs.items ≡ distinct (recalled history.now base.now ++ map (word_pair (D.lists set.now)) words.now)) }
{
    let mut pairs = Vec::new(alloc);
    add_recalled(alloc, &mut pairs, history, base)?;
    add_words(alloc, &mut pairs, set, words)?;
    Ok(pairs)
}

fn add_words<D: DataSet>(
    alloc: Global,
    pairs: &mut Vec<Pair>,
    set: &D,
    words: &[PricedRow],
) -> Result<(), NoMemory>
    requires { All (λ (word : PricedRow). word.row < length (D.lists set.now).words) words.now }
    ensures { OnOk result (pairs.new.items ≡ fold with_pair pairs.old.items (map (word_pair (D.lists set.now)) words.now)) }
{
    for word in words {
        let view = set.word(word.row);
        add(alloc, pairs, view.reading, view.value)?;
    }
    Ok(())
}
