ghost use Rattle.std.specs.Prelude.{◌≡◌, IfOk};
ghost use Rattle.session_meaning.specs.Outcomes.{Went, in_conversion, took_candidate, widened};
ghost use Rattle.session_meaning.specs.Stages.{C, V};
ghost use Rattle.session.specs.Stages.{outcome_of, stage_of};

use crate::Pinned;
use crate::choosing::Choosing;
use crate::composing::begun;
use crate::stage::{Outcome, Stage};
use keys::Action;
use mz_base::{DataSet, NoMemory, UserWords};
use std::alloc::Global;
use std::sync::Arc;

/// What an action comes to in conversion.
pub fn in_conversion<D: DataSet + Drop, U: UserWords + Drop>(
    alloc: Global,
    choosing: &Choosing<D, U>,
    taken: Option<Pinned<D, U>>,
    action: Action,
) -> Result<Outcome<D, U>, NoMemory>
    ensures { IfOk result (λ outcome. outcome_of outcome ≡ in_conversion choosing.now.composition choosing.now.choice taken action) }
{
    match action {
        Action::Next => Ok(chose(choosing.next(alloc)?)),
        Action::Previous => Ok(chose(choosing.previous(alloc)?)),
        Action::Left => Ok(chose(choosing.with_focus(alloc, choosing.focus().saturating_sub(1))?)),
        Action::Right => Ok(chose(choosing.with_focus(alloc, choosing.after_focus())?)),
        Action::Home => Ok(chose(choosing.with_focus(alloc, 0)?)),
        Action::End => Ok(chose(choosing.with_focus(
            alloc,
            choosing.segments().len().saturating_sub(1),
        )?)),
        Action::Widen => widened(alloc, choosing, 1),
        Action::Narrow => widened(alloc, choosing, -1),
        Action::Commit => Ok(Outcome::Committed(choosing.text(alloc)?, Stage::Precomposition)),
        Action::Cancel => cancelled(choosing),
        Action::CommitThenInsert(letter) => Ok(Outcome::Committed(
            choosing.text(alloc)?,
            begun(alloc, taken, letter)?,
        )),
        _ => Ok(Outcome::Passed),
    }
}

fn chose<D: DataSet + Drop, U: UserWords + Drop>(choosing: Choosing<D, U>) -> Outcome<D, U>
    ensures { outcome_of result ≡ Went (V choosing.composition choosing.choice) }
{
    Outcome::Went(Stage::Conversion(choosing))
}

/// Back to the composition.
fn cancelled<D: DataSet + Drop, U: UserWords + Drop>(
    choosing: &Choosing<D, U>,
) -> Result<Outcome<D, U>, NoMemory>
    ensures { IfOk result (λ outcome. outcome_of outcome ≡ Went (C choosing.now.composition)) }
{
    let composition = Arc::try_clone(choosing.composition())?;
    Ok(Outcome::Went(Stage::Composition(composition)))
}

/// The segment in focus is wider by so many characters, where it can be.
fn widened<D: DataSet + Drop, U: UserWords + Drop>(
    alloc: Global,
    choosing: &Choosing<D, U>,
    by: i32,
) -> Result<Outcome<D, U>, NoMemory>
    ensures { IfOk result (λ outcome. outcome_of outcome ≡ widened choosing.now.composition choosing.now.choice by) }
{
    match choosing.widened(alloc, by)? {
        Some(wider) => Ok(Outcome::Converted(wider)),
        None => Ok(Outcome::Passed),
    }
}

/// The candidate of this number, from 1, is chosen in the segment in focus.
pub fn took_candidate<D: DataSet + Drop, U: UserWords + Drop>(
    alloc: Global,
    choosing: &Choosing<D, U>,
    number: u32,
) -> Result<Outcome<D, U>, NoMemory>
    ensures { IfOk result (λ outcome. outcome_of outcome ≡ took_candidate choosing.now.composition choosing.now.choice number) }
{
    let number = number as usize;
    if number == 0 || number > choosing.count_in_focus() {
        return Ok(Outcome::Passed);
    }
    Ok(chose(choosing.with_chosen(alloc, number - 1)?))
}
