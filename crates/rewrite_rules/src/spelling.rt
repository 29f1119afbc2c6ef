ghost use Rattle.std.specs.Prelude.{◌≡◌, ◌++◌, IfOk, OnOk};
ghost use Rattle.conversion_meaning.specs.Rules.{digit_with, group_with, kanji_digit, last_digit, spelled, spelled_group};

use conversion_meaning::KANJI_DIGITS;
use mz_base::NoMemory;
use std::alloc::Global;

/// The kanji of a digit.
pub fn kanji_digit(digit: u64) -> char
    ensures { result ≡ kanji_digit digit }
{
    if digit < 10 {
        KANJI_DIGITS[digit as usize]
    } else {
        '\0'
    }
}

/// A number with its units: groups of four digits, with 兆, 億 and 万.
#[tactic(auto, unfolding(conversion_meaning::specs::Rules::spelled))]
pub fn spelled(alloc: Global, n: u64) -> Result<Vec<char>, NoMemory>
    ensures { IfOk result (λ text. text.items ≡ spelled n) }
{
    let mut text = Vec::new(alloc);
    add_group_with(&mut text, '兆', n / 1_000_000_000_000)?;
    add_group_with(&mut text, '億', n / 100_000_000 % 10_000)?;
    add_group_with(&mut text, '万', n / 10_000 % 10_000)?;
    add_group(&mut text, n % 10_000)?;
    Ok(text)
}

/// Adds a group before its unit, nothing for 0.
fn add_group_with(text: &mut Vec<char>, unit: char, n: u64) -> Result<(), NoMemory>
    ensures { OnOk result (text.new.items ≡ text.old.items ++ group_with unit n) }
{
    if n == 0 {
        return Ok(());
    }
    add_group(text, n)?;
    text.push(unit)?;
    Ok(())
}

/// Adds a number below 10,000, nothing for 0.
fn add_group(text: &mut Vec<char>, n: u64) -> Result<(), NoMemory>
    ensures { OnOk result (text.new.items ≡ text.old.items ++ spelled_group n) }
{
    add_digit_with(text, '千', n / 1_000)?;
    add_digit_with(text, '百', n / 100 % 10)?;
    add_digit_with(text, '十', n / 10 % 10)?;
    add_last_digit(text, n % 10)
}

/// Adds a digit before its unit: nothing for 0, the unit alone for 1.
fn add_digit_with(text: &mut Vec<char>, unit: char, digit: u64) -> Result<(), NoMemory>
    ensures { OnOk result (text.new.items ≡ text.old.items ++ digit_with unit digit) }
{
    if digit == 0 {
        return Ok(());
    }
    if digit > 1 {
        text.push(kanji_digit(digit))?;
    }
    text.push(unit)?;
    Ok(())
}

/// Adds the ones, nothing for 0.
fn add_last_digit(text: &mut Vec<char>, digit: u64) -> Result<(), NoMemory>
    ensures { OnOk result (text.new.items ≡ text.old.items ++ last_digit digit) }
{
    if digit > 0 {
        text.push(kanji_digit(digit))?;
    }
    Ok(())
}
