ghost use Rattle.std.specs.Prelude.{◌≡◌, ◌==◌, ◌∷◌, ◌<◌, ◌^◌, [], All, IfOk, IfSome, is_some, length, unwrap_or};
ghost use Rattle.std.specs.List.{slice_split};
ghost use Rattle.cert_text.specs.Fields.{bounds_in, RiseWithin};
ghost use Rattle.world_files.specs.BoundTexts.{items_left, next_bound, rising};

use mz_base::{NoMemory, narrowed, number};
use std::alloc::Global;
use std::marker::Model;

/// Bounds of a key, as a text that is lent spells them: positions with commas between them. It takes no memory.
#[derive(Drop)]
pub struct Bounds<'a> {
    /// The last position: how many characters the key has.
    last: u64,
    text: Option<&'a str>,
}

impl<'a> Model for Bounds<'a> {
    ghost use Rattle.std.specs.Prelude.{ℕ, List, [], unwrap_or};
    ghost use Rattle.world_files.specs.BoundTexts.{items_left, rising};

    ghost Value = { List ℕ };

    ghost view = { λ b. unwrap_or (rising b.last 0 (items_left b.text)) [] };
}

impl<'a> Bounds<'a> {
    pub fn none() -> Bounds<'a>
        ensures { result ≡ [] }
    {
        Bounds {
            last: 0,
            text: None,
        }
    }

    /// The bounds that a text spells for a key of so many characters, where it spells such.
    #[tactic(auto, using(crate::proofs::BoundLemmas::bounds_in_rising))]
    pub fn read(key_length: usize, text: &'a str) -> Option<Bounds<'a>>
        ensures told { result ≡ bounds_in key_length text.now }
        ensures within { IfSome result (RiseWithin key_length) }
    {
        if are_bounds(key_length, text) {
            Some(Bounds {
                last: key_length as u64,
                text: Some(text),
            })
        } else {
            None
        }
    }

    pub fn to_vec(&self, alloc: Global) -> Result<Vec<u16>, NoMemory>
        requires { All (λ bound. bound < 2 ^ 16) self.now }
        ensures { IfOk result (λ bounds. bounds.items ≡ self.now) }
    {
        let bounds = numbers_in(alloc, self.last, self.text)?;
        narrowed(alloc, bounds.as_slice())
    }
}

/// The bounds that a text spells, none where it spells no such.
#[tactic(auto, using(crate::proofs::BoundLemmas::added_bound))]
fn numbers_in(alloc: Global, last: u64, text: Option<&str>) -> Result<Vec<u64>, NoMemory>
    ensures { IfOk result (λ bounds. bounds.items ≡ unwrap_or (rising last 0 (items_left text.entry)) []) }
{
    let mut bounds = Vec::new(alloc);
    let mut before = 0;
    let mut left = text;
    while let Some(items) = left {
        let (item, rest) = cut_item(items);
        let Some(bound) = next_bound(item, before, last) else {
            return Ok(Vec::new(alloc));
        };
        bounds.push(bound)?;
        before = bound;
        left = rest;
    }
    Ok(bounds)
}

/// Whether a text spells bounds of a key of so many characters.
#[tactic(auto, using(crate::proofs::BoundLemmas::is_some_option_map))]
fn are_bounds(key_length: usize, text: &str) -> bool
    ensures { result ≡ is_some (bounds_in key_length text.now) }
{
    let last = key_length as u64;
    let mut before = 0;
    let mut left = Some(text);
    while let Some(items) = left {
        let (item, rest) = cut_item(items);
        match next_bound(item, before, last) {
            Some(bound) => before = bound,
            None => return false,
        }
        left = rest;
    }
    true
}

/// The number that an item spells, where it is above the one before it and not above the last position.
fn next_bound(item: &str, before: u64, last: u64) -> Option<u64>
    ensures { result ≡ next_bound last before item.now }
{
    let bound = number(item)?;
    if before < bound && bound <= last {
        Some(bound)
    } else {
        None
    }
}

/// The first item of a text with commas, and the text of the items after it.
fn cut_item(text: &str) -> (&str, Option<&str>)
    ensures items { slice_split (λ b. b == 44) text.now ≡ result.0.now ∷ items_left result.1 }
    ensures shorter { IfSome result.1 (λ rest. length rest.now < length text.now) }
{
    match text.split_once(',') {
        Some((item, rest)) => (item, Some(rest)),
        None => (text, None),
    }
}
