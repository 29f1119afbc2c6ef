ghost use Rattle.std.specs.Prelude.{◌≡◌, IfOk, map};
ghost use Rattle.dict_index.specs.Heads.{code_at, code_of, head_of, places_in};

use crate::packed::Packed;
use mz_base::NoMemory;
use std::alloc::Global;

/// The place of a text and the codes of its first letters, so that most look-ups need not read the text.
#[derive(Clone, Copy)]
pub struct Head {
    pub place: u32,
    pub first: u32,
    pub second: u32,
    pub third: u32,
}

/// The heads of the texts at these places.
pub fn heads_of(alloc: Global, texts: &Packed, places: &[u32]) -> Result<Vec<Head>, NoMemory>
    ensures { IfOk result (λ heads. heads.items ≡ map (head_of texts.now) places.now) }
{
    let mut heads = Vec::with_capacity(alloc, places.len())?;
    for place in places {
        heads.push(head_of(texts, *place))?;
    }
    Ok(heads)
}

fn head_of(texts: &Packed, place: u32) -> Head
    ensures { result ≡ head_of texts.now place }
{
    let text = texts.get(place);
    Head {
        place,
        first: code_at(text, 0),
        second: code_at(text, 1),
        third: code_at(text, 2),
    }
}

/// The places of the heads.
pub fn places_in(alloc: Global, heads: &[Head]) -> Result<Vec<u32>, NoMemory>
    ensures { IfOk result (λ places. places.items ≡ places_in heads.now) }
{
    let mut places = Vec::with_capacity(alloc, heads.len())?;
    for head in heads {
        places.push(head.place)?;
    }
    Ok(places)
}

/// The code of the letter behind so many others, from the head where it stands there.
pub fn code_of(texts: &Packed, head: &Head, depth: usize) -> u32
    ensures { result ≡ code_of texts.now head.now depth }
{
    match depth {
        0 => head.first,
        1 => head.second,
        2 => head.third,
        _ => code_at(texts.get(head.place), depth),
    }
}

/// The code of the letter behind so many others: one more than its number, and 0 where the text ends before it.
fn code_at(text: &[char], depth: usize) -> u32
    ensures { result ≡ code_at text.now depth }
{
    match text.get(depth) {
        None => 0,
        Some(letter) => *letter as u32 + 1,
    }
}
