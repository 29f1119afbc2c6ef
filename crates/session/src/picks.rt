ghost use Rattle.std.specs.Prelude.{◌≡◌, ◌+◌, ◌<◌, ◌++◌, IfOk, IfSome, OnOk, length, map, slice_range};
ghost use Rattle.std.specs.List.{flat_map, position};
ghost use Rattle.mz_base.specs.Data.{is_text};
ghost use Rattle.mz_base.specs.declared.lattice.Candidate.{Candidate};
ghost use Rattle.session_meaning.specs.Outcomes.{kept_places, place_of};
ghost use Rattle.session_meaning.specs.Stages.{picks_from, value_at};
ghost use Rattle.session.specs.Kept.{pair_of, pick_of, value_of};

use mz_base::{Candidate, NoMemory, Pair, Segment, Text};
use std::alloc::Global;

/// A segment, and the place of its chosen candidate.
#[derive(Clone, Copy)]
pub struct Pick<'a> {
    pub segment: &'a Segment,
    pub place: usize,
}

/// Adds each segment with its place.
pub fn add_picks<'a>(
    found: &mut Vec<Pick<'a>>,
    segments: &'a [Segment],
    places: &[usize],
) -> Result<(), NoMemory>
    ensures picks { OnOk result (map pick_of found.new.items ≡ map pick_of found.old.items ++ picks_from segments.now places.now) }
    ensures count { OnOk result (length found.new.items ≡ length found.old.items + length segments.now) }
{
    let [segment, segments @ ..] = segments else {
        return Ok(());
    };
    let [place, places @ ..] = places else {
        found.push(Pick { segment, place: 0 })?;
        return add_picks(found, segments, &[]);
    };
    found.push(Pick {
        segment,
        place: *place,
    })?;
    add_picks(found, segments, places)
}

/// The value at a place of a segment's list; empty past its end.
pub fn value_at(segment: &Segment, place: usize) -> &[char]
    ensures { result.now ≡ value_at segment.now place }
{
    match segment.candidates.as_slice().get(place) {
        Some(candidate) => candidate.value.as_chars(),
        None => &[],
    }
}

/// Adds the chosen values.
pub fn add_values(alloc: Global, out: &mut Vec<Text>, picks: &[Pick<'_>]) -> Result<(), NoMemory>
    ensures { OnOk result (out.new.items ≡ out.old.items ++ map value_of (map pick_of picks.now)) }
{
    for pick in picks {
        out.push(Text::from_chars(alloc, value_at(pick.segment, pick.place))?)?;
    }
    Ok(())
}

/// The chosen values, joined.
pub fn joined(alloc: Global, picks: &[Pick<'_>]) -> Result<Text, NoMemory>
    ensures { IfOk result (λ text. text ≡ flat_map (λ value. value) (map value_of (map pick_of picks.now))) }
{
    let mut letters = Vec::new(alloc);
    for pick in picks {
        letters.extend_from_slice(value_at(pick.segment, pick.place))?;
    }
    Ok(Text::from_vec(letters))
}

/// A pair for each segment: its part of the key, and the chosen value.
pub fn pairs_of(alloc: Global, key: &[char], picks: &[Pick<'_>]) -> Result<Vec<Pair>, NoMemory>
    ensures { IfOk result (λ pairs. pairs.items ≡ map (pair_of key.now) (map pick_of picks.now)) }
{
    let mut pairs = Vec::with_capacity(alloc, picks.len())?;
    for pick in picks {
        pairs.push(pair_of(alloc, key, pick)?)?;
    }
    Ok(pairs)
}

fn pair_of(alloc: Global, key: &[char], pick: &Pick<'_>) -> Result<Pair, NoMemory>
    ensures { IfOk result (λ pair. pair ≡ pair_of key.now (pick_of pick.now)) }
{
    let segment = pick.segment;
    Ok(Pair {
        key: Text::from_chars(
            alloc,
            part(key, segment.begin as usize, segment.end as usize),
        )?,
        value: Text::from_chars(alloc, value_at(segment, pick.place))?,
    })
}

/// The characters of the key from one position to another, as far as there are any.
fn part(key: &[char], begin: usize, end: usize) -> &[char]
    ensures { result.now ≡ slice_range key.now begin end }
{
    let (_, rest) = key.split_at(begin.min(key.len()));
    let (part, _) = rest.split_at(end.saturating_sub(begin).min(rest.len()));
    part
}

/// Adds, for each segment, the place in its list of the value that was picked before, 0 where it is not there, and 0 where
/// there are no more picks.
pub fn add_kept(
    places: &mut Vec<usize>,
    segments: &[Segment],
    picks: &[Pick<'_>],
) -> Result<(), NoMemory>
    ensures { OnOk result (places.new.items ≡ places.old.items ++ kept_places segments.now (map value_of (map pick_of picks.now))) }
{
    let [segment, segments @ ..] = segments else {
        return Ok(());
    };
    let [pick, picks @ ..] = picks else {
        places.push(0)?;
        return add_kept(places, segments, &[]);
    };
    places.push(place_of(segment, value_at(pick.segment, pick.place)))?;
    add_kept(places, segments, picks)
}

/// The place of a value in a segment's list, 0 where it is not there.
fn place_of(segment: &Segment, value: &[char]) -> usize
    ensures { result ≡ place_of segment.now value.now }
{
    match position_of(segment.candidates.as_slice(), value) {
        Some(place) => place,
        None => 0,
    }
}

fn position_of(candidates: &[Candidate], value: &[char]) -> Option<usize>
    ensures place { result ≡ position (λ (candidate : Candidate). is_text value.now candidate.value) candidates.now }
    ensures inside { IfSome result (λ place. place < length candidates.now) }
{
    candidates
        .iter()
        .position(|candidate| candidate.value.as_chars() == value)
}
