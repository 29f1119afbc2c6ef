ghost use Rattle.std.specs.Prelude.{◌≡◌, ◌==◌, ◌-◌, true, IfOk, OnOk, slice_index_or};
ghost use Rattle.std.specs.List.{list_all};
ghost use Rattle.conversion_meaning.specs.Rules.{is_digit, is_number, kanji_digits, number_of, number_values, units_of, with_values};

use crate::candidates::add_value;
use crate::spelling::{kanji_digit, spelled};
use conversion_meaning::MOST_DIGITS;
use mz_base::{Candidate, NoMemory, full_width};
use std::alloc::Global;

/// Adds a number in full width, in kanji digits and with units, where the key is one.
pub fn add_numbers(alloc: Global, list: &mut Vec<Candidate>, key: &[char]) -> Result<(), NoMemory>
    ensures { OnOk result (list.new.items ≡ with_values list.old.items (number_values key.now)) }
{
    if !is_number(key) {
        return Ok(());
    }
    let wide = full_width(alloc, key)?;
    let digits = kanji_digits(alloc, key)?;
    add_value(alloc, list, wide.as_slice())?;
    add_value(alloc, list, digits.as_slice())?;
    add_units(alloc, list, key)
}

fn is_number(key: &[char]) -> bool
    ensures { result ≡ is_number key.now }
{
    if key.is_empty() || key.len() > MOST_DIGITS {
        return false;
    }
    are_digits(key)
}

fn are_digits(key: &[char]) -> bool
    ensures { result ≡ list_all is_digit key.now }
{
    key.iter().all(|c| '0' <= *c && *c <= '9')
}

fn kanji_digits(alloc: Global, key: &[char]) -> Result<Vec<char>, NoMemory>
    ensures { IfOk result (λ digits. digits.items ≡ kanji_digits key.now) }
{
    Ok(
        key.iter()
            .map(|c| kanji_digit(value_of(*c)))
            .collect(alloc)?,
    )
}

/// The value of a digit.
fn value_of(c: char) -> u64
    ensures { result ≡ c - 0x30 }
{
    (c as u64).saturating_sub(0x30)
}

/// Adds a number with units, unless it begins with 0.
fn add_units(alloc: Global, list: &mut Vec<Candidate>, key: &[char]) -> Result<(), NoMemory>
    requires { is_number key.now ≡ true }
    ensures { OnOk result (list.new.items ≡ with_values list.old.items (units_of key.now)) }
{
    if begins_with_zero(key) {
        return Ok(());
    }
    let text = spelled(alloc, number_of(key))?;
    add_value(alloc, list, text.as_slice())
}

fn begins_with_zero(key: &[char]) -> bool
    ensures { result ≡ (slice_index_or key.now 0 0 == 0x30) }
{
    match key.first() {
        Some(c) => *c == '0',
        None => false,
    }
}

/// The number that the digits of the key write.
fn number_of(key: &[char]) -> u64
    requires { is_number key.now ≡ true }
    ensures { result ≡ number_of key.now }
{
    let mut number = 0;
    for c in key {
        number = number * 10 + value_of(*c);
    }
    number
}
