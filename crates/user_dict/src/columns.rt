ghost use Rattle.std.specs.Prelude.{◌≡◌, ℕ, IfOk, option_map};
ghost use Rattle.std.specs.Str.{chars};
ghost use Rattle.mz_base.specs.Lines.{fields_of};
ghost use Rattle.user_dict.specs.Columns.{fields_view};
ghost use Rattle.user_dict.specs.Kept.{row_of_words};
ghost use Rattle.user_dict.specs.Rows.{made_row, reading_of, row_fields};

use crate::words::Words;
use mz_base::{NoMemory, cut_field, hiragana};
use std::alloc::Global;
use unicode_normalization::slice::extend_nfkc;

/// The fields of a row, as they stand on the line.
#[derive(Clone, Copy)]
pub struct Columns<'a> {
    pub reading: &'a str,
    pub word: &'a str,
    pub pos: &'a str,
}

/// The fields of a line; further ones do not count.
pub fn columns_of(line: &str) -> Option<Columns<'_>>
    ensures { option_map fields_view result ≡ row_fields (fields_of line.now) }
{
    let (reading, rest) = cut_field(line);
    let (word, rest) = cut_field(rest?);
    let (pos, _) = cut_field(rest?);
    Some(Columns { reading, word, pos })
}

/// The texts that the fields make.
pub fn words_of(alloc: Global, columns: &Columns<'_>) -> Result<Words, NoMemory>
    ensures { IfOk result (λ words. (line : ℕ) → row_of_words words line ≡ made_row line (fields_view columns.now)) }
{
    Ok(Words {
        reading: reading_of(alloc, columns.reading)?,
        word: letters(alloc, columns.word)?,
        pos: letters(alloc, columns.pos)?,
    })
}

/// The reading that a field makes: in NFKC, and then with hiragana in place of katakana.
fn reading_of(alloc: Global, field: &str) -> Result<Vec<char>, NoMemory>
    ensures { IfOk result (λ reading. reading.items ≡ reading_of (chars field.now)) }
{
    let letters = letters(alloc, field)?;
    let mut composed = Vec::new(alloc);
    extend_nfkc(&mut composed, letters.as_slice())?;
    hiragana(alloc, composed.as_slice())
}

fn letters(alloc: Global, field: &str) -> Result<Vec<char>, NoMemory>
    ensures { IfOk result (λ letters. letters.items ≡ chars field.now) }
{
    Ok(field.chars().collect(alloc)?)
}
