ghost use Rattle.std.specs.Prelude.{◌≡◌, ◌+◌, ◌-◌, ◌%◌, ◌<◌, ◌≤◌, [], IfOk, IfSome, length, map};
ghost use Rattle.std.specs.Arc.{arc_value};
ghost use Rattle.mz_base.specs.declared.conversion.Segment.{Segment};
ghost use Rattle.std.specs.Option.{option_map};
ghost use Rattle.mz_base.specs.declared.lattice.TheConstants.{MOST_KEY};
ghost use Rattle.conversion_meaning.specs.Lattices.{AreBounds, IsKey};
ghost use Rattle.conversion_meaning.specs.Segments.{resized};
ghost use Rattle.session_meaning.specs.Outcomes.{count_in_focus, conversion_of, first_choice, kept_places, next_choice, parts_of, previous_choice, rechosen, values_before, with_chosen, with_focus};
ghost use Rattle.session_meaning.specs.Reached.{IsChosen};
ghost use Rattle.session_meaning.specs.Stages.{chosen_in_focus, chosen_pairs, chosen_text, picks, reading, segment_in_focus};
ghost use Rattle.session.specs.Kept.{Chosen, IsKept, pick_of, rewidened};

use crate::composition::Composition;
use crate::picks::{Pick, add_kept, add_picks, joined, pairs_of};
use mz_base::{Conversion, DataSet, NoMemory, Pair, Segment, Text, UserWords};
use std::alloc::Global;
use std::marker::Model;
use std::sync::Arc;

/// A conversion and the key that it converts.
#[derive(Drop)]
pub struct Made {
    pub key: Vec<char>,
    pub conversion: Conversion,
}

/// A composition that is converted, and what is chosen of its conversion.
#[derive(Drop)]
pub struct Choosing<D: DataSet, U: UserWords> {
    composition: Arc<Composition<D, U>>,
    made: Arc<Made>,
    focus: usize,
    chosen: Vec<usize>,
}

impl<D: DataSet, U: UserWords> Model for Choosing<D, U> {
    ghost use Rattle.std.specs.Arc.{arc_value};
    ghost use Rattle.session.specs.Kept.{Chosen, IsKept};

    ghost Value = { Chosen };

    ghost view = { λ c. record { composition = arc_value c.composition; choice = record { conversion = (arc_value c.made).conversion; focus = c.focus; chosen = c.chosen.items } } };

    ghost invariant = { λ c. IsKept (arc_value c.composition) (arc_value c.made).key.items (record { conversion = (arc_value c.made).conversion; focus = c.focus; chosen = c.chosen.items }) };
}

impl<D: DataSet + Drop, U: UserWords + Drop> Choosing<D, U> {
    /// The reading is converted, with the first segment in focus and all first candidates chosen.
    pub fn first(
        alloc: Global,
        composition: &Arc<Composition<D, U>>,
        key: Vec<char>,
    ) -> Result<Choosing<D, U>, NoMemory>
        requires same { key.items ≡ reading (arc_value composition.now) }
        requires key { IsKey key.items }
        ensures { IfOk result (λ c. c ≡ record { composition = arc_value composition.now; choice = first_choice (conversion_of (arc_value composition.now) []) }) }
    {
        composition.data_are_sound();
        let conversion = composition.conversion(alloc, key.as_slice(), &[])?;
        let chosen = first_places(alloc, conversion.segments.as_slice())?;
        Choosing::of(alloc, composition, Made { key, conversion }, 0, chosen)
    }

    /// What is chosen of a conversion of the reading.
    fn of(
        alloc: Global,
        composition: &Arc<Composition<D, U>>,
        made: Made,
        focus: usize,
        chosen: Vec<usize>,
    ) -> Result<Choosing<D, U>, NoMemory>
        requires { IsKept (arc_value composition.now) made.key.items (record { conversion = made.conversion; focus = focus; chosen = chosen.items }) }
        ensures { IfOk result (λ c. c ≡ record { composition = arc_value composition.now; choice = record { conversion = made.conversion; focus = focus; chosen = chosen.items } }) }
    {
        let made = Arc::new(alloc, made)?;
        Ok(Choosing {
            composition: Arc::try_clone(composition)?,
            made,
            focus,
            chosen,
        })
    }

    /// The same conversion, with another focus and other places chosen.
    fn with(&self, focus: usize, chosen: Vec<usize>) -> Result<Choosing<D, U>, NoMemory>
        requires { IsChosen (record { conversion = self.now.choice.conversion; focus = focus; chosen = chosen.items }) }
        ensures { IfOk result (λ c. c ≡ record { composition = self.now.composition; choice = record { conversion = self.now.choice.conversion; focus = focus; chosen = chosen.items } }) }
    {
        Ok(Choosing {
            composition: Arc::try_clone(&self.composition)?,
            made: Arc::try_clone(&self.made)?,
            focus,
            chosen,
        })
    }

    /// The same, shared.
    pub fn share(&self, alloc: Global) -> Result<Choosing<D, U>, NoMemory>
        ensures { IfOk result (λ c. c ≡ self.now) }
    {
        let chosen = Vec::from_slice(alloc, self.chosen.as_slice())?;
        self.with(self.focus, chosen)
    }

    /// Another candidate of the segment in focus.
    pub fn with_chosen(&self, alloc: Global, place: usize) -> Result<Choosing<D, U>, NoMemory>
        requires { place < count_in_focus self.now.choice }
        ensures { IfOk result (λ c. c ≡ record self.now { choice = with_chosen self.now.choice place }) }
    {
        let mut chosen = Vec::from_slice(alloc, self.chosen.as_slice())?;
        chosen[self.focus] = place;
        self.with(self.focus, chosen)
    }

    pub fn next(&self, alloc: Global) -> Result<Choosing<D, U>, NoMemory>
        ensures { IfOk result (λ c. c ≡ record self.now { choice = next_choice self.now.choice }) }
    {
        let place = place_after(self.chosen_in_focus(), self.count_in_focus());
        self.with_chosen(alloc, place)
    }

    pub fn previous(&self, alloc: Global) -> Result<Choosing<D, U>, NoMemory>
        ensures { IfOk result (λ c. c ≡ record self.now { choice = previous_choice self.now.choice }) }
    {
        let place = place_before(self.chosen_in_focus(), self.count_in_focus());
        self.with_chosen(alloc, place)
    }

    /// Another segment in focus, the last one for a place past it.
    pub fn with_focus(&self, alloc: Global, place: usize) -> Result<Choosing<D, U>, NoMemory>
        ensures { IfOk result (λ c. c ≡ record self.now { choice = with_focus self.now.choice place }) }
    {
        let chosen = Vec::from_slice(alloc, self.chosen.as_slice())?;
        self.with(place.min(self.segments().len() - 1), chosen)
    }

    pub fn segments(&self) -> &[Segment]
        ensures { result.now ≡ self.now.choice.conversion.segments }
    {
        self.made.conversion.segments.as_slice()
    }

    /// The place of the segment in focus.
    pub fn focus(&self) -> usize
        ensures focus { result ≡ self.now.choice.focus }
        ensures inside { result < length self.now.choice.conversion.segments }
    {
        self.focus
    }

    /// The place after it.
    pub fn after_focus(&self) -> usize
        ensures { result ≡ self.now.choice.focus + 1 }
    {
        self.focus.min(self.segments().len()) + 1
    }

    pub fn segment_in_focus(&self) -> &Segment
        ensures { result.now ≡ segment_in_focus self.now.choice }
    {
        &self.segments()[self.focus]
    }

    /// The place of its chosen candidate.
    pub fn chosen_in_focus(&self) -> usize
        ensures place { result ≡ chosen_in_focus self.now.choice }
        ensures inside { result < count_in_focus self.now.choice }
    {
        self.chosen[self.focus]
    }

    /// How many candidates it has.
    pub fn count_in_focus(&self) -> usize
        ensures { result ≡ count_in_focus self.now.choice }
    {
        self.segment_in_focus().candidates.as_slice().len()
    }

    /// The key that is converted.
    pub fn key(&self) -> &[char]
        ensures key { result.now ≡ reading self.now.composition }
        ensures few { length result.now ≤ MOST_KEY }
        ensures kept { IsKept self.now.composition result.now self.now.choice }
    {
        self.made.key.as_slice()
    }

    pub fn conversion(&self) -> &Conversion
        ensures { result.now ≡ self.now.choice.conversion }
    {
        &self.made.conversion
    }

    /// The chosen values, joined.
    pub fn text(&self, alloc: Global) -> Result<Text, NoMemory>
        ensures { IfOk result (λ text. text ≡ chosen_text self.now.choice) }
    {
        let picks = self.picks(alloc)?;
        joined(alloc, picks.as_slice())
    }

    /// A pair for each segment: its part of the key, and the chosen value.
    pub fn pairs(&self, alloc: Global) -> Result<Vec<Pair>, NoMemory>
        ensures { IfOk result (λ pairs. pairs.items ≡ chosen_pairs self.now.composition self.now.choice) }
    {
        let picks = self.picks(alloc)?;
        pairs_of(alloc, self.key(), picks.as_slice())
    }

    pub fn composition(&self) -> &Arc<Composition<D, U>>
        ensures { arc_value result.now ≡ self.now.composition }
    {
        &self.composition
    }

    /// The segments with the places of their chosen candidates.
    pub fn picks(&self, alloc: Global) -> Result<Vec<Pick<'_>>, NoMemory>
        ensures picks { IfOk result (λ found. map pick_of found.items ≡ picks self.now.choice) }
        ensures count { IfOk result (λ found. length found.items ≡ length self.now.choice.conversion.segments) }
    {
        let mut found = Vec::with_capacity(alloc, self.segments().len())?;
        add_picks(&mut found, self.segments(), self.chosen.as_slice())?;
        Ok(found)
    }

    /// The same focus where the segment in focus is wider by so many characters; values before it stay chosen where they
    /// are listed still. None where it can't be.
    pub fn widened(&self, alloc: Global, by: i32) -> Result<Option<Choosing<D, U>>, NoMemory>
        ensures { IfOk result (λ wider. wider ≡ rewidened self.now by) }
    {
        match self.wider_bounds(alloc, by)? {
            Some(bounds) => Ok(Some(self.within(alloc, bounds.as_slice())?)),
            None => Ok(None),
        }
    }

    /// The bounds with which the segment in focus is wider by so many characters. None where it can't be.
    fn wider_bounds(&self, alloc: Global, by: i32) -> Result<Option<Vec<u16>>, NoMemory>
        ensures made { IfOk result (λ bounds. option_map (λ made. made.items) bounds ≡ resized (parts_of self.now.choice) self.now.choice.focus by (length (reading self.now.composition))) }
        ensures are { IfOk result (λ bounds. IfSome bounds (λ made. AreBounds (reading self.now.composition) made.items)) }
        ensures few { IfOk result (λ bounds. IfSome bounds (λ made. self.now.choice.focus < length made.items)) }
    {
        let key_length = self.key().len() as u16;
        let parts = parts_of(alloc, self.segments())?;
        segments::resize(alloc, parts.as_slice(), self.focus(), by, key_length)
    }

    /// The same focus in the conversion within other bounds.
    fn within(&self, alloc: Global, bounds: &[u16]) -> Result<Choosing<D, U>, NoMemory>
        requires bounds { AreBounds (reading self.now.composition) bounds.now }
        requires few { self.now.choice.focus < length bounds.now }
        ensures { IfOk result (λ c. c ≡ record { composition = self.now.composition; choice = rechosen self.now.choice (conversion_of self.now.composition bounds.now) }) }
    {
        let conversion = self.composition.conversion(alloc, self.key(), bounds)?;
        let chosen = self.kept_places(alloc, conversion.segments.as_slice())?;
        let key = Vec::from_slice(alloc, self.key())?;
        Choosing::of(
            alloc,
            &self.composition,
            Made { key, conversion },
            self.focus,
            chosen,
        )
    }

    /// The places, in the lists of other segments, of what is chosen before the focus, and then first places.
    fn kept_places(&self, alloc: Global, segments: &[Segment]) -> Result<Vec<usize>, NoMemory>
        ensures { IfOk result (λ places. places.items ≡ kept_places segments.now (values_before self.now.choice)) }
    {
        let picks = self.picks(alloc)?;
        let (before, _) = picks.as_slice().split_at(self.focus);
        let mut places = Vec::with_capacity(alloc, segments.len())?;
        add_kept(&mut places, segments, before)?;
        Ok(places)
    }
}

/// The first place for each segment.
fn first_places(alloc: Global, segments: &[Segment]) -> Result<Vec<usize>, NoMemory>
    ensures { IfOk result (λ places. places.items ≡ map (λ (segment : Segment). 0) segments.now) }
{
    let mut places = Vec::with_capacity(alloc, segments.len())?;
    for segment in segments {
        places.push(first_place(segment))?;
    }
    Ok(places)
}

/// The place of a segment's first candidate.
fn first_place(_segment: &Segment) -> usize
    ensures { result ≡ 0 }
{
    0
}

/// Where the segments begin and end.
fn parts_of(alloc: Global, segments: &[Segment]) -> Result<Vec<(u16, u16)>, NoMemory>
    ensures { IfOk result (λ parts. parts.items ≡ map (λ (segment : Segment). (segment.begin, segment.end)) segments.now) }
{
    let mut parts = Vec::with_capacity(alloc, segments.len())?;
    for segment in segments {
        parts.push((segment.begin, segment.end))?;
    }
    Ok(parts)
}

/// The place after this one, round the end.
fn place_after(place: usize, count: usize) -> usize
    requires { place < count }
    ensures next { result ≡ (place + 1) % count }
    ensures inside { result < count }
{
    (place + 1) % count
}

/// The place before this one, round the end.
fn place_before(place: usize, count: usize) -> usize
    requires { place < count }
    ensures before { result ≡ (place + (count - 1)) % count }
    ensures inside { result < count }
{
    if place == 0 { count - 1 } else { place - 1 }
}
