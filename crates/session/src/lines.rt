ghost use Rattle.std.specs.Prelude.{◌≡◌, ◌++◌, [], ◌∷◌, ◌*◌, ◌/◌, drop, take, IfOk, OnOk, map};
ghost use Rattle.std.specs.Fmt.{decimal};
ghost use Rattle.mz_base.specs.declared.lattice.Candidate.{Candidate};
ghost use Rattle.mz_base.specs.declared.lattice.Pair.{Pair};
ghost use Rattle.session_meaning.specs.Lines.{choosing_rest, composing_rest, line_of, page, rest_of};
ghost use Rattle.session_meaning.specs.Stages.{mode_of, version_of};
ghost use Rattle.session_meaning.specs.declared.page.TheConstants.{PAGE_PLACES};
ghost use Rattle.session.specs.Stages.{stage_of};

use crate::choosing::Choosing;
use crate::composition::Composition;
use crate::picks::add_values;
use crate::stage::Stage;
use mz_base::{Candidate, DataSet, Line, Mode, NoMemory, Pair, Seq, Text, UserWords, Word};
use session_meaning::PAGE_PLACES;
use std::alloc::Global;

/// A line that shows the stage.
pub fn line_of<D: DataSet + Drop, U: UserWords + Drop>(
    alloc: Global,
    word: Word,
    stage: &Stage<D, U>,
    text: Text,
) -> Result<Line, NoMemory>
    ensures { IfOk result (λ line. line ≡ line_of word (stage_of stage.now) text) }
{
    let rest = rest_of(alloc, stage)?;
    Ok(line_with(word, stage, text, rest))
}

/// A line that shows something else.
pub fn line_with<D: DataSet + Drop, U: UserWords + Drop>(
    word: Word,
    stage: &Stage<D, U>,
    text: Text,
    rest: Vec<Text>,
) -> Line
    ensures { result ≡ record { word = word; mode = mode_of (stage_of stage.now); version = version_of (stage_of stage.now); result = text; rest = rest.items } }
{
    Line {
        word,
        mode: mode_of(stage),
        version: version_of(stage),
        result: text,
        rest: Seq::from_vec(rest),
    }
}

pub fn mode_of<D: DataSet + Drop, U: UserWords + Drop>(stage: &Stage<D, U>) -> Mode
    ensures { result ≡ mode_of (stage_of stage.now) }
{
    match stage {
        Stage::Precomposition => Mode::P,
        Stage::Composition(_) => Mode::C,
        Stage::Conversion(_) => Mode::V,
    }
}

/// The number of the job whose data the stage keeps, 0 in precomposition.
pub fn version_of<D: DataSet + Drop, U: UserWords + Drop>(stage: &Stage<D, U>) -> u32
    ensures { result ≡ version_of (stage_of stage.now) }
{
    match stage {
        Stage::Precomposition => 0,
        Stage::Composition(composition) => composition.version(),
        Stage::Conversion(choosing) => choosing.composition().version(),
    }
}

fn rest_of<D: DataSet + Drop, U: UserWords + Drop>(
    alloc: Global,
    stage: &Stage<D, U>,
) -> Result<Vec<Text>, NoMemory>
    ensures { IfOk result (λ rest. rest.items ≡ rest_of (stage_of stage.now)) }
{
    match stage {
        Stage::Precomposition => Ok(Vec::new(alloc)),
        Stage::Composition(composition) => composing_rest(alloc, composition),
        Stage::Conversion(choosing) => choosing_rest(alloc, choosing),
    }
}

fn composing_rest<D: DataSet + Drop, U: UserWords + Drop>(
    alloc: Global,
    composition: &Composition<D, U>,
) -> Result<Vec<Text>, NoMemory>
    ensures { IfOk result (λ rest. rest.items ≡ composing_rest composition.now) }
{
    let mut rest = Vec::new(alloc);
    rest.push(Text::from_chars(alloc, composition.preedit())?)?;
    rest.push(number_text(alloc, composition.cursor())?)?;
    add_suggested(alloc, &mut rest, composition.suggested())?;
    Ok(rest)
}

fn add_suggested(alloc: Global, rest: &mut Vec<Text>, pairs: &[Pair]) -> Result<(), NoMemory>
    ensures { OnOk result (rest.new.items ≡ rest.old.items ++ map (λ (pair : Pair). pair.value) pairs.now) }
{
    for pair in pairs {
        rest.push(pair.value.copy(alloc)?)?;
    }
    Ok(())
}

fn choosing_rest<D: DataSet + Drop, U: UserWords + Drop>(
    alloc: Global,
    choosing: &Choosing<D, U>,
) -> Result<Vec<Text>, NoMemory>
    ensures { IfOk result (λ rest. rest.items ≡ choosing_rest choosing.now.choice) }
{
    let segments = choosing.segments().len();
    let count = choosing.count_in_focus();
    let mut rest = Vec::new(alloc);
    rest.push(number_text(alloc, choosing.focus() + 1)?)?;
    rest.push(number_text(alloc, segments)?)?;
    let picks = choosing.picks(alloc)?;
    add_values(alloc, &mut rest, picks.as_slice())?;
    rest.push(number_text(alloc, choosing.chosen_in_focus() + 1)?)?;
    rest.push(number_text(alloc, count)?)?;
    let list = choosing.segment_in_focus().candidates.as_slice();
    add_page(alloc, &mut rest, list, choosing.chosen_in_focus())?;
    Ok(rest)
}

/// Adds the values of the page on which a place of a list stands.
fn add_page(
    alloc: Global,
    rest: &mut Vec<Text>,
    list: &[Candidate],
    place: usize,
) -> Result<(), NoMemory>
    ensures { OnOk result (rest.new.items ≡ rest.old.items ++ page list.now place) }
{
    add_candidates(alloc, rest, page_of(list, place))
}

fn add_candidates(
    alloc: Global,
    rest: &mut Vec<Text>,
    candidates: &[Candidate],
) -> Result<(), NoMemory>
    ensures { OnOk result (rest.new.items ≡ rest.old.items ++ map (λ (candidate : Candidate). candidate.value) candidates.now) }
{
    for candidate in candidates {
        rest.push(candidate.value.copy(alloc)?)?;
    }
    Ok(())
}

fn page_of(list: &[Candidate], place: usize) -> &[Candidate]
    ensures { result.now ≡ take PAGE_PLACES (drop (place / PAGE_PLACES * PAGE_PLACES) list.now) }
{
    let start = place / PAGE_PLACES * PAGE_PLACES;
    let (_, rest) = list.split_at(start.min(list.len()));
    let (page, _) = rest.split_at(PAGE_PLACES.min(rest.len()));
    page
}

fn number_text(alloc: Global, number: usize) -> Result<Text, NoMemory>
    ensures { IfOk result (λ text. text ≡ decimal number) }
{
    let digits = number.to_string(alloc)?;
    Text::from_str(alloc, digits.as_str())
}
