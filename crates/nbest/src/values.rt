ghost use Rattle.std.specs.Prelude.{◌≡◌, ◌<◌, ◌++◌, [], ◌∷◌, if◌then◌else◌, Some, All, IfOk, OnOk, length};
ghost use Rattle.conversion_meaning.specs.Candidates.{first_values, path_value};
ghost use Rattle.conversion_meaning.specs.Lattices.{IsLatticeOf};
ghost use Rattle.conversion_meaning.specs.Paths.{IsSpan};
ghost use Rattle.nbest.specs.Kept.{has_value, is_new};

use crate::search::NBest;
use conversion_meaning::{MOST_PATHS, MOST_VALUES};
use lattice::value_of;
use mz_base::{Candidate, DataSet, Lattice, NoMemory, Span, Text, UserWords};
use std::alloc::Global;
use viterbi::solve;

/// The first values of a span, each with its least cost.
pub fn distinct<D: DataSet, U: UserWords>(
    alloc: Global,
    set: &D,
    user: &U,
    lattice: &Lattice,
    span: &Span,
) -> Result<Vec<Candidate>, NoMemory>
    requires made { IsLatticeOf (D.lists set.now) (U.rows user.now) lattice.now }
    requires span { IsSpan (D.lists set.now) lattice.now span.now }
    ensures { IfOk result (λ values. values.items ≡ first_values (D.lists set.now) (U.rows user.now) lattice.now.key lattice.now.entries span.now) }
{
    let solved = solve(alloc, set, lattice, span)?;
    let mut search = NBest::new(alloc, set, lattice, span, &solved)?;
    let mut values = Vec::new(alloc);
    let mut path = Vec::new(alloc);
    let mut text = Vec::new(alloc);
    for _place in 0..MOST_PATHS {
        if values.len() == MOST_VALUES {
            return Ok(values);
        }
        let Some(found) = search.next_in(set, lattice, path)? else {
            return Ok(values);
        };
        text = path_value(set, user, lattice, found.path.as_slice(), text)?;
        add(alloc, &mut values, text.as_slice(), found.cost)?;
        path = found.path.into_vec();
    }
    Ok(values)
}

/// The values of a path's entries, one after the other, in place of what the vector had.
fn path_value<D: DataSet, U: UserWords>(
    set: &D,
    user: &U,
    lattice: &Lattice,
    path: &[u32],
    mut text: Vec<char>,
) -> Result<Vec<char>, NoMemory>
    requires made { IsLatticeOf (D.lists set.now) (U.rows user.now) lattice.now }
    requires inside { All (λ o. o < length lattice.now.entries) path.now }
    ensures { IfOk result (λ made. made.items ≡ path_value (D.lists set.now) (U.rows user.now) lattice.now.key lattice.now.entries path.now) }
{
    text.clear();
    for ordinal in path {
        text.extend_from_slice(value_of(lattice, set, user, *ordinal))?;
    }
    Ok(text)
}

/// Adds a value with its cost, unless it is there.
fn add(alloc: Global, values: &mut Vec<Candidate>, text: &[char], cost: i64) -> Result<(), NoMemory>
    ensures { OnOk result (values.new.items ≡ values.old.items ++ (if is_new values.old.items text.now then record { value = text.now; cost = Some cost } ∷ [] else [])) }
{
    if has_value(values.as_slice(), text) {
        return Ok(());
    }
    values.push(Candidate {
        value: Text::from_chars(alloc, text)?,
        cost: Some(cost),
    })?;
    Ok(())
}

fn has_value(values: &[Candidate], text: &[char]) -> bool
    ensures { result ≡ has_value values.now text.now }
{
    values.iter().any(|kept| text == kept.value.as_chars())
}
