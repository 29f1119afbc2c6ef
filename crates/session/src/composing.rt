ghost use Rattle.std.specs.Prelude.{◌≡◌, ◌&&◌, IfOk, length, nat_le, nat_lt};
ghost use Rattle.std.specs.Arc.{arc_value};
ghost use Rattle.std.specs.Option.{option_copied};
ghost use Rattle.mz_base.specs.declared.lattice.TheConstants.{MOST_KEY};
ghost use Rattle.session_meaning.specs.Stages.{C};
ghost use Rattle.session_meaning.specs.Outcomes.{Went, begun, can_convert, converted, in_composition, in_precomposition, suggestion_at, took_suggestion, typed};
ghost use Rattle.session.specs.Stages.{outcome_of, stage_of};

use crate::Pinned;
use crate::choosing::Choosing;
use crate::composition::Composition;
use crate::stage::{Outcome, Stage};
use composer::MOST_SHOWN;
use keys::Action;
use mz_base::{DataSet, MOST_KEY, NoMemory, Pair, Text, UserWords};
use std::alloc::Global;
use std::sync::Arc;

/// A character begins a composition with the data that were taken.
pub fn begun<D: DataSet + Drop, U: UserWords + Drop>(
    alloc: Global,
    taken: Option<Pinned<D, U>>,
    letter: char,
) -> Result<Stage<D, U>, NoMemory>
    ensures { IfOk result (λ stage. stage_of stage ≡ begun taken letter) }
{
    match taken {
        Some(pinned) => composing(alloc, Composition::begun(alloc, pinned, letter)?),
        None => Ok(Stage::Precomposition),
    }
}

fn composing<D: DataSet + Drop, U: UserWords + Drop>(
    alloc: Global,
    composition: Composition<D, U>,
) -> Result<Stage<D, U>, NoMemory>
    ensures { IfOk result (λ stage. stage_of stage ≡ C composition) }
{
    Ok(Stage::Composition(Arc::new(alloc, composition)?))
}

/// What an action comes to in precomposition.
pub fn in_precomposition<D: DataSet + Drop, U: UserWords + Drop>(
    alloc: Global,
    taken: Option<Pinned<D, U>>,
    action: Action,
) -> Result<Outcome<D, U>, NoMemory>
    ensures { IfOk result (λ outcome. outcome_of outcome ≡ in_precomposition taken action) }
{
    match action {
        Action::Insert(letter) => Ok(Outcome::Went(begun(alloc, taken, letter)?)),
        _ => Ok(Outcome::Passed),
    }
}

/// What an action comes to in composition.
pub fn in_composition<D: DataSet + Drop, U: UserWords + Drop>(
    alloc: Global,
    composition: &Arc<Composition<D, U>>,
    action: Action,
) -> Result<Outcome<D, U>, NoMemory>
    ensures { IfOk result (λ outcome. outcome_of outcome ≡ in_composition (arc_value composition.now) action) }
{
    match action {
        Action::Insert(letter) => typed(alloc, composition, letter),
        Action::Convert => converted(alloc, composition),
        Action::Commit => Ok(Outcome::Committed(
            Text::from_vec(composition.reading()?),
            Stage::Precomposition,
        )),
        Action::Cancel => Ok(Outcome::Went(Stage::Precomposition)),
        Action::Backspace => went(alloc, composition.backspaced(alloc)?),
        Action::Delete => went(alloc, composition.deleted(alloc)?),
        Action::Left => went(alloc, composition.moved_left(alloc)?),
        Action::Right => went(alloc, composition.moved_right(alloc)?),
        Action::Home => went(alloc, composition.moved_home(alloc)?),
        Action::End => went(alloc, composition.moved_end(alloc)?),
        _ => Ok(Outcome::Passed),
    }
}

/// The session goes on with a composition.
fn went<D: DataSet + Drop, U: UserWords + Drop>(
    alloc: Global,
    composition: Composition<D, U>,
) -> Result<Outcome<D, U>, NoMemory>
    ensures { IfOk result (λ outcome. outcome_of outcome ≡ Went (C composition)) }
{
    Ok(Outcome::Went(composing(alloc, composition)?))
}

fn typed<D: DataSet + Drop, U: UserWords + Drop>(
    alloc: Global,
    composition: &Composition<D, U>,
    letter: char,
) -> Result<Outcome<D, U>, NoMemory>
    ensures { IfOk result (λ outcome. outcome_of outcome ≡ typed composition.now letter) }
{
    if composition.preedit().len() >= MOST_SHOWN {
        return Ok(Outcome::Filled);
    }
    went(alloc, composition.typed(alloc, letter)?)
}

/// The reading is converted, where it has a key's length.
fn converted<D: DataSet + Drop, U: UserWords + Drop>(
    alloc: Global,
    composition: &Arc<Composition<D, U>>,
) -> Result<Outcome<D, U>, NoMemory>
    ensures { IfOk result (λ outcome. outcome_of outcome ≡ converted (arc_value composition.now)) }
{
    let reading = composition.reading()?;
    if !is_key(reading.as_slice()) {
        return Ok(Outcome::Passed);
    }
    Ok(Outcome::Converted(Choosing::first(alloc, composition, reading)?))
}

fn is_key(reading: &[char]) -> bool
    ensures { result ≡ (nat_lt 0 (length reading.now) && nat_le (length reading.now) MOST_KEY) }
{
    !reading.is_empty() && reading.len() <= MOST_KEY
}

/// The pair of the suggestion of this number, from 1.
pub fn suggestion_at<D: DataSet + Drop, U: UserWords + Drop>(
    composition: &Composition<D, U>,
    number: u32,
) -> Option<&Pair>
    ensures { option_copied result ≡ suggestion_at composition.now number }
{
    if number == 0 {
        return None;
    }
    composition.suggested().get(number as usize - 1)
}

/// A suggestion is taken by its number.
pub fn took_suggestion<D: DataSet + Drop, U: UserWords + Drop>(
    alloc: Global,
    composition: &Composition<D, U>,
    number: u32,
) -> Result<Outcome<D, U>, NoMemory>
    ensures { IfOk result (λ outcome. outcome_of outcome ≡ took_suggestion (suggestion_at composition.now number)) }
{
    match suggestion_at(composition, number) {
        Some(pair) => Ok(Outcome::Committed(pair.value.copy(alloc)?, Stage::Precomposition)),
        None => Ok(Outcome::Passed),
    }
}
