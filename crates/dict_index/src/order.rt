ghost use Rattle.std.specs.Prelude.{◌≡◌, ℕ, slice_index_or, true, false, ◌+◌, ◌-◌, ◌<◌, ◌≤◌, IfOk, length, nat_eq, take};
ghost use Rattle.std.specs.Cmp.Lexicographic.{slice_cmp};
ghost use Rattle.std.specs.List.{take_while};
ghost use Rattle.std.specs.List.Sorted.{IsPartitionPoint, IsPartitionedBy, IsSortedBy};
ghost use Rattle.std.specs.Ordering.{nat_cmp};
ghost use Rattle.mz_base.specs.declared.data.TheConstants.{MOST_WORDS};
ghost use Rattle.dict_index.specs.Heads.{AreHeads, code_of, is_below, places_in};
ghost use Rattle.dict_index.specs.declared.heads.Head.{Head};
ghost use Rattle.dict_index.specs.Order.{AllBegin, IsIndex, comes_before, standing_at};
ghost use Rattle.dict_index.specs.Spans.{in_span};

use crate::guesses::Guess;
use crate::heads::{Head, code_of};
use crate::packed::Packed;
use mz_base::NoMemory;
use std::alloc::Global;
use std::cmp::Ordering;

/// The places of the texts, in the order of the texts.
pub fn places_in_order(alloc: Global, texts: &Packed) -> Result<Vec<u32>, NoMemory>
    requires { length texts.now ≤ MOST_WORDS }
    ensures { IfOk result (λ places. IsIndex texts.now places.items) }
{
    let mut places: Vec<u32> = (0..texts.len() as u32).collect(alloc)?;
    places.sort_by(|place, other| texts.get(*place).cmp(texts.get(*other)))?;
    Ok(places)
}

/// Some that stand together, from a place on.
#[derive(Clone, Copy)]
pub struct Span {
    pub start: usize,
    pub count: usize,
}

/// Where the heads stand whose texts are this one when cut after so many characters.
pub fn block(texts: &Packed, heads: &[Head], width: usize, text: &[char]) -> Span
    requires { IsSortedBy (comes_before texts.now) (places_in heads.now) }
    ensures inside { result.start + result.count ≤ length heads.now }
    ensures found { places_in (in_span result heads.now) ≡ standing_at texts.now width text.now (places_in heads.now) }
{
    let start = heads.partition_point(|head| front_cmp(texts.get(head.place), width, text).is_lt());
    let (_, rest) = heads.split_at(start);
    let count = rest.partition_point(|head| front_cmp(texts.get(head.place), width, text).is_le());
    Span { start, count }
}

/// The items of a span.
pub fn in_span<T>(items: &[T], span: Span) -> &[T]
    requires { span.start + span.count ≤ length items.now }
    ensures { result.now ≡ in_span span items.now }
{
    let (_, rest) = items.split_at(span.start);
    let (found, _) = rest.split_at(span.count);
    found
}

/// Heads that stand together, and where they start among all.
#[derive(Clone, Copy)]
pub struct Stretch<'a> {
    /// Only guesses use it, so nothing is promised of it.
    pub start: usize,
    pub heads: &'a [Head],
}

/// Of the heads whose texts begin with all of this one but its last letter, those whose texts begin with all of it.
/// They stand together, and that letter alone tells them. A right guess saves the search, and a wrong one is harmless.
pub fn narrowed<'a>(
    texts: &Packed,
    stretch: Stretch<'a>,
    text: &[char],
    guess: Guess,
) -> Stretch<'a>
    requires sorted { IsSortedBy (comes_before texts.now) (places_in stretch.heads.now) }
    requires are { AreHeads texts.now stretch.heads.now }
    requires some { 0 < length text.now }
    requires begun { AllBegin texts.now (take (length text.now - 1) text.now) (places_in stretch.heads.now) }
    ensures found { places_in result.heads.now ≡ standing_at texts.now (length text.now) text.now (places_in stretch.entry.heads.now) }
    ensures are { AreHeads texts.now result.heads.now }
{
    let depth = text.len() - 1;
    let code = text[depth] as u32 + 1;
    let wanted = (guess.start as usize).wrapping_sub(stretch.start);
    let before = first_from_code(texts, stretch.heads, depth, code, wanted);
    let (_, rest) = stretch.heads.split_at(before);
    let start = stretch.start.wrapping_add(before);
    let wanted = (guess.end as usize).wrapping_sub(start);
    let count = first_from_code(texts, rest, depth, code + 1, wanted);
    let (heads, _) = rest.split_at(count);
    Stretch { start, heads }
}

/// The first place whose letter has at least this code. The guess is tested first, and nothing is searched where it is
/// right.
fn first_from_code(texts: &Packed, heads: &[Head], depth: usize, code: u32, guess: usize) -> usize
    requires { IsPartitionedBy (is_below texts.now depth code) heads.now }
    ensures inside { result ≤ length heads.now }
    ensures point { IsPartitionPoint (λ head. is_below texts.now depth code head ≡ true) (λ head. is_below texts.now depth code head ≡ false) heads.now result }
{
    if is_first_from_code(texts, heads, depth, code, guess) {
        guess
    } else {
        heads.partition_point(|head| is_below(texts, depth, code, head))
    }
}

/// Whether the letters before the place are below the code, and those from it on are not.
fn is_first_from_code(texts: &Packed, heads: &[Head], depth: usize, code: u32, place: usize) -> bool
    requires { IsPartitionedBy (is_below texts.now depth code) heads.now }
    ensures point { result ≡ true → IsPartitionPoint (λ head. is_below texts.now depth code head ≡ true) (λ head. is_below texts.now depth code head ≡ false) heads.now place }
    ensures inside { result ≡ true → place ≤ length heads.now }
{
    place <= heads.len()
        && all_are_below(texts, heads, depth, code, place)
        && none_is_below(texts, heads, depth, code, place)
}

/// Whether the letters before the place are below the code, by the last of them.
fn all_are_below(texts: &Packed, heads: &[Head], depth: usize, code: u32, place: usize) -> bool
    requires inside { place ≤ length heads.now }
    requires partitioned { IsPartitionedBy (is_below texts.now depth code) heads.now }
    ensures { result ≡ true → (k : ℕ) (d : Head) → k < place → is_below texts.now depth code (slice_index_or heads.now k d) ≡ true }
{
    place == 0 || is_below(texts, depth, code, &heads[place - 1])
}

/// Whether no letter from the place on is below the code, by the first of them.
fn none_is_below(texts: &Packed, heads: &[Head], depth: usize, code: u32, place: usize) -> bool
    requires inside { place ≤ length heads.now }
    requires partitioned { IsPartitionedBy (is_below texts.now depth code) heads.now }
    ensures { result ≡ true → (k : ℕ) (d : Head) → place ≤ k → k < length heads.now → is_below texts.now depth code (slice_index_or heads.now k d) ≡ false }
{
    place == heads.len() || !is_below(texts, depth, code, &heads[place])
}

fn is_below(texts: &Packed, depth: usize, code: u32, head: &Head) -> bool
    ensures { result ≡ is_below texts.now depth code head.now }
{
    code_of(texts, head, depth) < code
}

/// Of the heads whose texts begin with this one, those whose texts are it: they stand first.
pub fn exact<'a>(texts: &Packed, heads: &'a [Head], text: &[char]) -> &'a [Head]
    requires sorted { IsSortedBy (comes_before texts.now) (places_in heads.now) }
    requires are { AreHeads texts.now heads.now }
    requires begun { AllBegin texts.now text.now (places_in heads.now) }
    ensures { places_in result.now ≡ standing_at texts.now (length text.now + 1) text.now (places_in heads.now) }
{
    let count = count_of_width(texts, heads, text.len());
    let (found, _) = heads.split_at(count);
    found
}

/// How many heads stand first whose texts have no letter behind so many.
fn count_of_width(texts: &Packed, heads: &[Head], width: usize) -> usize
    ensures { result ≡ length (take_while (λ head. nat_eq (code_of texts.now head width) 0) heads.now) }
{
    heads
        .iter()
        .take_while(|head| code_of(texts, head, width) == 0)
        .count()
}

/// How a text that is cut after so many characters stands to another.
fn front_cmp(text: &[char], width: usize, other: &[char]) -> Ordering
    ensures { result ≡ slice_cmp nat_cmp (take width text.now) other.now }
{
    let (front, _) = text.split_at(width.min(text.len()));
    front.cmp(other)
}
