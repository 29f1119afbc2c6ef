ghost use Rattle.std.specs.Prelude.{◌≡◌, Some, encode_utf8_all, IfOk, List};
ghost use Rattle.std.specs.Str.{chars};

use crate::NoMemory;
use std::alloc::Global;
use std::fmt;
use std::marker::Model;

/// A text, seen as a list of characters.
#[derive(Drop)]
pub struct Text {
    letters: Vec<char>,
}

impl Model for Text {
    ghost use Rattle.std.specs.Prelude.{ℕ, List};

    ghost Value = { List ℕ };

    ghost view = { λ t. t.letters.items };
}

impl Text {
    pub fn from_vec(letters: Vec<char>) -> Text
        ensures { result ≡ letters.items }
    {
        Text { letters }
    }

    pub fn from_chars(alloc: Global, letters: &[char]) -> Result<Text, NoMemory>
        ensures { IfOk result (λ t. t ≡ letters.now) }
    {
        Ok(Text {
            letters: Vec::from_slice(alloc, letters)?,
        })
    }

    pub fn from_str(alloc: Global, text: &str) -> Result<Text, NoMemory>
        ensures { IfOk result (λ t. t ≡ chars text.now) }
    {
        Ok(Text {
            letters: text.chars().collect(alloc)?,
        })
    }

    pub fn copy(&self, alloc: Global) -> Result<Text, NoMemory>
        ensures { IfOk result (λ t. t ≡ self.now) }
    {
        Text::from_chars(alloc, self.as_chars())
    }

    pub fn as_chars(&self) -> &[char]
        ensures { result.now ≡ self.now }
    {
        self.letters.as_slice()
    }
}

impl fmt::Display for Text {
    ghost output = { λ t. Some (encode_utf8_all t) };

    fn fmt<W: fmt::Write>(&self, f: &mut fmt::Formatter<W>) -> fmt::Result {
        for letter in self.as_chars() {
            write!(f, "{letter}")?;
        }
        Ok(())
    }
}
