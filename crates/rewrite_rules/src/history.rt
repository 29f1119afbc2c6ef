ghost use Rattle.std.specs.Prelude.{◌≡◌, ◌++◌, ◌&&◌, IfOk, filter, not};
ghost use Rattle.std.specs.List.{list_any};
ghost use Rattle.std.specs.Option.{option_copied};
ghost use Rattle.mz_base.specs.Data.{is_text};
ghost use Rattle.conversion_meaning.specs.Rules.{is_value, put_first};
ghost use Rattle.rewrite_rules.specs.Newest.{newest, newest_place};

use crate::candidates::{has_value, place_of};
use mz_base::{Candidate, NoMemory, Pair};
use std::alloc::Global;

/// The place in a list of what was chosen last for this key, of what the list has. It takes no memory.
pub fn newest_for(history: &[Pair], key: &[char], list: &[Candidate]) -> Option<usize>
    ensures { result ≡ newest_place history.now key.now list.now }
{
    match newest(history, key, list) {
        Some(pair) => place_of(list, pair.value.as_chars()),
        None => None,
    }
}

/// The first pair that has this key and a value in the list.
pub fn newest<'a>(history: &'a [Pair], key: &[char], list: &[Candidate]) -> Option<&'a Pair>
    ensures { option_copied result ≡ newest history.now key.now list.now }
{
    history.iter().find(|pair| is_chosen(pair, key, list))
}

fn is_chosen(pair: &Pair, key: &[char], list: &[Candidate]) -> bool
    ensures { result ≡ (is_text key.now pair.now.key && list_any (is_value pair.now.value) list.now) }
{
    // The key first: a scan of the list costs more.
    pair.key.as_chars() == key && has_value(list, pair.value.as_chars())
}

/// Puts what was chosen last for this key before the others.
pub fn chosen_first(
    alloc: Global,
    history: &[Pair],
    key: &[char],
    list: Vec<Candidate>,
) -> Result<Vec<Candidate>, NoMemory>
    ensures { IfOk result (λ made. made.items ≡ put_first (newest history.now key.now list.items) list.items) }
{
    match newest(history, key, list.as_slice()) {
        Some(pair) => value_first(alloc, pair.value.as_chars(), list),
        None => Ok(list),
    }
}

/// Puts what has this value before what has others.
fn value_first(
    alloc: Global,
    value: &[char],
    list: Vec<Candidate>,
) -> Result<Vec<Candidate>, NoMemory>
    ensures { IfOk result (λ made. made.items ≡ filter (is_value value.now) list.items ++ filter (λ candidate. not (is_value value.now candidate)) list.items) }
{
    let mut first = Vec::with_capacity(alloc, list.len())?;
    let mut others = Vec::with_capacity(alloc, list.len())?;
    for candidate in list {
        if candidate.value.as_chars() == value {
            first.push(candidate)?;
        } else {
            others.push(candidate)?;
        }
    }
    first.append(&mut others)?;
    Ok(first)
}
