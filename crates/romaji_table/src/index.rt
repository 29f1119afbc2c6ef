ghost use Rattle.std.specs.Prelude.{◌≡◌, IfOk, ◌&&◌, length, nat_eq, nat_lt};
ghost use Rattle.std.specs.List.{starts_with};
ghost use Rattle.std.specs.Option.{option_copied};
ghost use Rattle.std.specs.Cmp.Lexicographic.{slice_cmp};
ghost use Rattle.std.specs.Ordering.{nat_cmp};
ghost use Rattle.mz_base.specs.Kana.{is_open, longest};
ghost use Rattle.romaji_table.specs.Index.{AreWithin, Finds, IsIndex, IsTable, input_at, comes_before};

use mz_base::{NoMemory, Rule};
use std::alloc::Global;

/// The places of the rules, in the order of their inputs.
pub fn places_by_input(alloc: Global, rules: &[Rule]) -> Result<Vec<usize>, NoMemory>
    ensures { IfOk result (λ places. IsIndex rules.now places.items) }
{
    let mut places: Vec<usize> = (0..rules.len()).collect(alloc)?;
    places.sort_by(|place, other| input_at(rules, *place).cmp(input_at(rules, *other)))?;
    Ok(places)
}

/// The characters of the longest input.
pub fn most_typed(rules: &[Rule]) -> usize
    ensures { AreWithin result rules.now }
{
    let mut most = 0;
    for rule in rules {
        let length = rule.input.as_chars().len();
        if most < length {
            most = length;
        }
    }
    most
}

/// The rule with the longest input that is a prefix of the text.
pub fn longest_of<'a>(
    rules: &'a [Rule],
    places: &[usize],
    most: usize,
    text: &[char],
) -> Option<&'a Rule>
    requires { IsTable rules.now places.now most }
    ensures { option_copied result ≡ longest rules.now text.now }
{
    let limit = most.min(text.len());
    for shorter in 0..limit {
        let (front, _) = text.split_at(limit - shorter);
        if let Some(rule) = find(rules, places, front) {
            return Some(rule);
        }
    }
    None
}

fn find<'a>(rules: &'a [Rule], places: &[usize], input: &[char]) -> Option<&'a Rule>
    requires { IsIndex rules.now places.now }
    ensures { Finds rules.now input.now (option_copied result) }
{
    match places.binary_search_by(|place| input_at(rules, *place).cmp(input)) {
        Ok(index) => rules.get(places[index]),
        Err(_) => None,
    }
}

/// Whether the text is a proper prefix of a rule's input.
pub fn is_open(rules: &[Rule], places: &[usize], text: &[char]) -> bool
    requires { IsIndex rules.now places.now }
    ensures { result ≡ is_open rules.now text.now }
{
    // The inputs that begin with the text come right after it.
    let after = places.partition_point(|place| input_at(rules, *place).cmp(text).is_le());
    match places.get(after) {
        Some(place) => opens(text, input_at(rules, *place)),
        None => false,
    }
}

fn opens(text: &[char], input: &[char]) -> bool
    ensures { result ≡ (starts_with nat_eq input.now text.now && nat_lt (length text.now) (length input.now)) }
{
    input.starts_with(text) && text.len() < input.len()
}

fn input_at(rules: &[Rule], place: usize) -> &[char]
    ensures { result.now ≡ input_at rules.now place }
{
    match rules.get(place) {
        Some(rule) => rule.input.as_chars(),
        None => &[],
    }
}
