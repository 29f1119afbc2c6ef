ghost use Rattle.std.specs.Prelude.{◌≡◌, ◌++◌, IfOk, OnOk, find, option_copied};
ghost use Rattle.mz_base.specs.Folds.{full_width, full_width_of, half_of, half_width, hiragana, hiragana_of, is_full, katakana, katakana_of, row_text};

use crate::{HALF_ROWS, NoMemory};
use std::alloc::Global;

/// A character that has a half width form: that form, and the sound mark that follows it.
#[derive(Clone, Copy)]
pub struct HalfRow {
    pub full: char,
    pub half: char,
    pub mark: Option<char>,
}

/// The text with katakana in place of hiragana; all else stays.
pub fn katakana(alloc: Global, text: &[char]) -> Result<Vec<char>, NoMemory>
    ensures { IfOk result (λ folded. folded.items ≡ katakana text.now) }
{
    Ok(text.iter().map(|c| katakana_of(*c)).collect(alloc)?)
}

/// The text with hiragana in place of katakana; all else stays.
pub fn hiragana(alloc: Global, text: &[char]) -> Result<Vec<char>, NoMemory>
    ensures { IfOk result (λ folded. folded.items ≡ hiragana text.now) }
{
    Ok(text.iter().map(|c| hiragana_of(*c)).collect(alloc)?)
}

/// The text with the full width forms of its ASCII characters; all else stays.
pub fn full_width(alloc: Global, text: &[char]) -> Result<Vec<char>, NoMemory>
    ensures { IfOk result (λ folded. folded.items ≡ full_width text.now) }
{
    Ok(text.iter().map(|c| full_width_of(*c)).collect(alloc)?)
}

/// The text with the half width forms of `HALF_ROWS`; all else stays. It may get longer, by sound marks.
pub fn half_width(alloc: Global, text: &[char]) -> Result<Vec<char>, NoMemory>
    ensures { IfOk result (λ folded. folded.items ≡ half_width text.now) }
{
    let mut folded = Vec::new(alloc);
    for c in text {
        add_half(&mut folded, *c)?;
    }
    Ok(folded)
}

fn katakana_of(c: char) -> char
    ensures { result ≡ katakana_of c }
{
    if 'ぁ' <= c && c <= 'ゖ' {
        char::from_u32(c as u32 + 0x60).unwrap_or(c)
    } else {
        c
    }
}

fn hiragana_of(c: char) -> char
    ensures { result ≡ hiragana_of c }
{
    if 'ァ' <= c && c <= 'ヶ' {
        char::from_u32(c as u32 - 0x60).unwrap_or(c)
    } else {
        c
    }
}

fn full_width_of(c: char) -> char
    ensures { result ≡ full_width_of c }
{
    if '!' <= c && c <= '~' {
        char::from_u32(c as u32 + 0xFEE0).unwrap_or(c)
    } else if c == ' ' {
        '\u{3000}'
    } else {
        c
    }
}

#[tactic(auto, unfolding(crate::specs::Folds::row_of))]
fn add_half(folded: &mut Vec<char>, c: char) -> Result<(), NoMemory>
    ensures { OnOk result (folded.new.items ≡ folded.old.items ++ half_of c) }
{
    match row_of(&HALF_ROWS, c) {
        Some(row) => add_row(folded, row),
        None => Ok(folded.push(c)?),
    }
}

fn add_row(folded: &mut Vec<char>, row: &HalfRow) -> Result<(), NoMemory>
    ensures { OnOk result (folded.new.items ≡ folded.old.items ++ row_text row.now) }
{
    folded.push(row.half)?;
    if let Some(mark) = row.mark {
        folded.push(mark)?;
    }
    Ok(())
}

/// The row of this character.
fn row_of(rows: &[HalfRow], c: char) -> Option<&HalfRow>
    ensures { option_copied result ≡ find (is_full c) rows.now }
{
    rows.iter().find(|row| row.full == c)
}
