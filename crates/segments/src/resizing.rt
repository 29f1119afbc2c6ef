ghost use Rattle.std.specs.Prelude.{◌≡◌, ℕ, ◌<◌, ◌++◌, ◌∷◌, [], IfOk, length, map, take};
ghost use Rattle.std.specs.Option.{option_map};
ghost use Rattle.conversion_meaning.specs.Segments.{can_widen, resized, wider_end};

use mz_base::NoMemory;
use std::alloc::Global;

/// The bounds with which a segment is wider by so many characters, or narrower: the ends of those before it, and its new
/// end. None where it would have no character, or would end past the key, which has `key_length` characters.
#[tactic(auto, unfolding(conversion_meaning::specs::Segments::resized))]
pub fn resize(
    alloc: Global,
    segments: &[(u16, u16)],
    i: usize,
    by: i32,
    key_length: u16,
) -> Result<Option<Vec<u16>>, NoMemory>
    requires { i < length segments.now }
    ensures { IfOk result (λ bounds. option_map (λ made. made.items) bounds ≡ resized segments.now i by key_length) }
{
    if !can_widen(segments, i, by, key_length) {
        return Ok(None);
    }
    let end = wider_end(segments, i, by);
    Ok(Some(bounds_to(alloc, segments, i, end as u16)?))
}

fn can_widen(segments: &[(u16, u16)], i: usize, by: i32, key_length: u16) -> bool
    requires { i < length segments.now }
    ensures { result ≡ can_widen segments.now i by key_length }
{
    let end = wider_end(segments, i, by);
    i64::from(segments[i].0) < end && end <= i64::from(key_length)
}

fn wider_end(segments: &[(u16, u16)], i: usize, by: i32) -> i64
    requires { i < length segments.now }
    ensures { result ≡ wider_end segments.now i by }
{
    i64::from(segments[i].1) + i64::from(by)
}

/// The ends of the segments before this one, and then this end.
fn bounds_to(
    alloc: Global,
    segments: &[(u16, u16)],
    i: usize,
    end: u16,
) -> Result<Vec<u16>, NoMemory>
    requires { i < length segments.now }
    ensures { IfOk result (λ bounds. bounds.items ≡ map (λ (part : ℕ × ℕ). part.1) (take i segments.now) ++ end ∷ []) }
{
    let (before, _) = segments.split_at(i);
    let mut bounds = Vec::with_capacity(alloc, i + 1)?;
    for (_, end_before) in before {
        bounds.push(*end_before)?;
    }
    bounds.push(end)?;
    Ok(bounds)
}
