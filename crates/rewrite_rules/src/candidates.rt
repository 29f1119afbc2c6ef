ghost use Rattle.std.specs.Prelude.{◌≡◌, None, IfOk, OnOk, position};
ghost use Rattle.std.specs.List.{list_any};
ghost use Rattle.conversion_meaning.specs.Rules.{is_value, with_value, with_values};
ghost use Rattle.rewrite_rules.specs.Seen.{AreValues};

use mz_base::{Candidate, NoMemory, Text};
use std::alloc::Global;
use std::collections::HashSet;

/// So many values are looked up by a scan of the list; a set serves more.
const MOST_SCANNED: usize = 32;

/// Copies of these candidates.
pub fn copies(alloc: Global, list: &[Candidate]) -> Result<Vec<Candidate>, NoMemory>
    ensures { IfOk result (λ copied. copied.items ≡ list.now) }
{
    let mut copied = Vec::with_capacity(alloc, list.len())?;
    for candidate in list {
        copied.push(copy_of(alloc, candidate)?)?;
    }
    Ok(copied)
}

fn copy_of(alloc: Global, candidate: &Candidate) -> Result<Candidate, NoMemory>
    ensures { IfOk result (λ copied. copied ≡ candidate.now) }
{
    Ok(Candidate {
        value: candidate.value.copy(alloc)?,
        cost: candidate.cost,
    })
}

pub fn has_value(list: &[Candidate], value: &[char]) -> bool
    ensures { result ≡ list_any (is_value value.now) list.now }
{
    list.iter()
        .any(|candidate| candidate.value.as_chars() == value)
}

/// The place of the first candidate that has this value.
pub fn place_of(list: &[Candidate], value: &[char]) -> Option<usize>
    ensures { result ≡ position (is_value value.now) list.now }
{
    list.iter()
        .position(|candidate| candidate.value.as_chars() == value)
}

/// Adds a value at the end, where no candidate has it.
pub fn add_value(alloc: Global, list: &mut Vec<Candidate>, value: &[char]) -> Result<(), NoMemory>
    ensures { OnOk result (list.new.items ≡ with_value list.old.items value.now) }
{
    if has_value(list.as_slice(), value) {
        return Ok(());
    }
    list.push(added(alloc, value)?)?;
    Ok(())
}

fn added(alloc: Global, value: &[char]) -> Result<Candidate, NoMemory>
    ensures { IfOk result (λ candidate. candidate ≡ record { value = value.now; cost = None }) }
{
    Ok(Candidate {
        value: Text::from_chars(alloc, value)?,
        cost: None,
    })
}

/// Adds several values, one after the other.
pub fn add_values(alloc: Global, list: &mut Vec<Candidate>, values: &[Text]) -> Result<(), NoMemory>
    ensures { OnOk result (list.new.items ≡ with_values list.old.items values.now) }
{
    if values.len() <= MOST_SCANNED {
        return add_few(alloc, list, values);
    }
    add_many(alloc, list, values)
}

fn add_few(alloc: Global, list: &mut Vec<Candidate>, values: &[Text]) -> Result<(), NoMemory>
    ensures { OnOk result (list.new.items ≡ with_values list.old.items values.now) }
{
    for value in values {
        add_value(alloc, list, value.as_chars())?;
    }
    Ok(())
}

/// Adds them by a set of the values that the list has.
fn add_many(alloc: Global, list: &mut Vec<Candidate>, values: &[Text]) -> Result<(), NoMemory>
    ensures { OnOk result (list.new.items ≡ with_values list.old.items values.now) }
{
    let mut seen = values_of(alloc, list.as_slice())?;
    for value in values {
        add_unseen(alloc, &mut seen, list, value.as_chars())?;
    }
    Ok(())
}

/// The values of these candidates.
fn values_of(alloc: Global, list: &[Candidate]) -> Result<HashSet<Vec<char>>, NoMemory>
    ensures { IfOk result (λ seen. AreValues seen.keys list.now) }
{
    let mut seen = HashSet::new(alloc);
    for candidate in list {
        let value = Vec::from_slice(alloc, candidate.value.as_chars())?;
        seen.insert(value)?;
    }
    Ok(seen)
}

/// Adds a value at the end of the list, where the set of its values does not have it.
fn add_unseen(
    alloc: Global,
    seen: &mut HashSet<Vec<char>>,
    list: &mut Vec<Candidate>,
    value: &[char],
) -> Result<(), NoMemory>
    requires { AreValues seen.old.keys list.old.items }
    ensures seen { OnOk result (AreValues seen.new.keys list.new.items) }
    ensures list { OnOk result (list.new.items ≡ with_value list.old.items value.now) }
{
    let is_new = seen.insert(Vec::from_slice(alloc, value)?)?;
    if is_new {
        list.push(added(alloc, value)?)?;
    }
    Ok(())
}
